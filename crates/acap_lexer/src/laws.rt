//! Laws of lines and their spellings, from the definitions alone: each function does nothing, and its contract is the law.

ghost use Rattle.acap_lexer.specs.Examples.{Examples, OctetExamples, LimitExamples, HeldExamples, PrintedExamples};
ghost use Rattle.acap_lexer.specs.Laws.{KeepsItems, KeepsWaits, TakesOctets, LeavesRoom, GoesByStages, ReadsParts, ReadsQuoted, ReadsSpellings, SpellsLines};

/// An item that begins a text begins every longer text.
pub fn keeps_items()
    ensures { KeepsItems }
{}

/// A longer text has no fewer continuations due.
pub fn keeps_waits()
    ensures { KeepsWaits }
{}

/// An item takes some of the octets that it begins.
pub fn takes_octets()
    ensures { TakesOctets }
{}

/// A text that no item begins is shorter than what a lexer holds.
pub fn leaves_room()
    ensures { LeavesRoom }
{}

/// How far a text leads is what comes of its stages, one after the other.
pub fn goes_by_stages()
    ensures { GoesByStages }
{}

/// A part is read to its end, whatever the bound on its tokens.
pub fn reads_parts()
    ensures { ReadsParts }
{}

/// What is printed between quotes is read back as that string.
pub fn reads_quoted()
    ensures { ReadsQuoted }
{}

/// A line is read exactly where its text is a spelling of its tokens.
pub fn reads_spellings()
    ensures spelled { ReadsSpellings }
    ensures read { SpellsLines }
{}

/// Examples of texts and what begins them, computed from the definitions alone.
pub fn examples()
    ensures { Examples }
{}

/// Which octets are of which kind, and which may touch a token.
pub fn octet_examples()
    ensures { OctetExamples }
{}

/// Each limit on both its sides.
pub fn limit_examples()
    ensures { LimitExamples }
{}

/// What comes next of held octets, and what all octets answer.
pub fn held_examples()
    ensures { HeldExamples }
{}

/// Strings as they are printed, quoted or as literals.
pub fn printed_examples()
    ensures { PrintedExamples }
{}
