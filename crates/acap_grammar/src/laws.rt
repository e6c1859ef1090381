//! Laws of commands and replies, from the definitions alone: each function does nothing, and its contract is the law.
ghost use Rattle.acap_grammar.specs.Alike.{PlacesLaw};
ghost use Rattle.acap_grammar.specs.Examples.{LineExamples, LineFaults, LimitExamples, TextExamples, ToldExamples};
ghost use Rattle.acap_grammar.specs.Formed.{NamesLaw, ReadsFormed};
ghost use Rattle.acap_grammar.specs.Laws.{FirstFault, CommandExamples, FaultExamples, ReplyExamples};
ghost use Rattle.acap_grammar.specs.Sendable.{ReadsSendable, SpellsCommands};
ghost use Rattle.acap_grammar.specs.Texts.{ReadsTexts, SpelledTexts};

/// The fault is the first from the left: what stands after the token at which it lies changes nothing, and it lies at
/// the end of the line only where an argument or the verb is missing.
pub fn first_fault()
    ensures { FirstFault }
{}

/// What a line says doesn't depend on where its tokens lie, nor on which strings are literals: lines with tokens of the
/// same kinds and values are the same command, or have the same fault at the same token (RFC 2244 sections 2.2 and 2.6.3).
pub fn places_law()
    ensures { PlacesLaw }
{}

/// The tokens of a STORE, a SEARCH and a DELETEACL (RFC 2244 sections 6.4.1, 6.6.1 and 6.7) and the commands that they are.
pub fn command_examples()
    ensures { CommandExamples }
{}

/// Lines and the faults that are the first from the left in them.
pub fn fault_examples()
    ensures { FaultExamples }
{}

/// Replies and their octets.
pub fn reply_examples()
    ensures { ReplyExamples }
{}

/// Lines of each verb and the commands that they are (RFC 2244 section 6).
pub fn line_examples()
    ensures { LineExamples }
{}

/// Lines that are no commands, what may stand once, and which fault is the first.
pub fn line_faults()
    ensures { LineFaults }
{}

/// Each limit of a list on both its sides.
pub fn limit_examples()
    ensures { LimitExamples }
{}

/// The texts of refusals and completions (RFC 2244 sections 3.6 and 6.2).
pub fn text_examples()
    ensures { TextExamples }
{}

/// Each command within the limits is read back from its plainest spelling (RFC 2244 sections 6 and 8).
pub fn spelled_commands()
    ensures { SpellsCommands }
{}

/// What is read as a command can be sent, and its paths are well formed: nothing beyond the names, the limits and the
/// combinations of the table is accepted (RFC 2244 sections 3, 6 and 8).
pub fn sendable_law()
    ensures sendable { ReadsSendable }
    ensures paths { ReadsFormed }
{}

/// Each command within the limits has a text, whose octets are answered by a line that is read as that command, whatever
/// follows; and so is every other text of its tokens (RFC 2244 sections 2.2, 2.6 and 8).
pub fn spelled_texts()
    ensures plainest { SpelledTexts }
    ensures others { ReadsTexts }
{}

/// Names are read exactly where they are well formed: paths and datasets from their components on, attributes and
/// contexts (RFC 2244 sections 3.1, 3.3 and 4.1).
pub fn names_law()
    ensures { NamesLaw }
{}

/// What is sent of contexts, as octets (RFC 2244 section 6.5).
#[tactic(auto, using(crate::proofs::Computing::told_examples))]
pub fn told_examples()
    ensures { ToldExamples }
{}
