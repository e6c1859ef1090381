//! Laws of what devices report, from the definitions alone: each function does nothing, and its contract is the law.
ghost use Rattle.acap_task.specs.Examples.{ToldExamples};
ghost use Rattle.acap_task.specs.Histories.{HistoryLaw};

/// Examples of what devices report after a few calls.
pub fn told_examples()
    ensures { ToldExamples }
{}

/// Of a session's record of its calls, and the calls of its seat in the history of a closed book, the shorter
/// is how the other ends (RFC 2244 section 2). So the replies that the session sent are those of that
/// history.
pub fn history_law()
    ensures { HistoryLaw }
{}
