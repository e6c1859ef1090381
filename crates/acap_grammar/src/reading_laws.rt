//! What a client reads from what is printed: each function does nothing, and its contract is the law.
ghost use Rattle.acap_grammar.specs.Printed.{ApartLaw, PrintedLaw};
ghost use Rattle.acap_grammar.specs.Readable.{HearingLaw};
ghost use Rattle.acap_grammar.specs.ReadingExamples.{ReadingExamples};
ghost use Rattle.acap_grammar.specs.Sayable.{ReadableLaw};

/// How octets are heard: pieces as the octets that they are together, lines as what they say, whatever follows, and a line
/// that isn't whole not yet. No line begins another, and no octets are two lists of lines (RFC 2244 section 2.2).
pub fn hearing_law()
    ensures { HearingLaw }
{}

/// What a session says is read back: its octets are exactly the lines that it says (RFC 2244 sections 2.2, 3.6 and 6).
pub fn readable_law()
    ensures { ReadableLaw }
{}

/// What is sent of contexts can't be confused: what is printed alike has the same contexts, entries, positions, printed data and
/// stamps, one by one (RFC 2244 section 6.5).
pub fn apart_law()
    ensures { ApartLaw }
{}

/// A client may hold printed data in place of rows: notices lead to the same, and misfit alike (RFC 2244 section 3.3).
pub fn printed_law()
    ensures { PrintedLaw }
{}

/// Octets and the lines that a client hears: escapes, literals, codes, positions, a string of 300,000 octets.
pub fn reading_examples()
    ensures { ReadingExamples }
{}
