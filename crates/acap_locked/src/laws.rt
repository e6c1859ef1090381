//! Laws of histories and epochs, from the definitions alone: each function does nothing, and its contract is the law.
ghost use Rattle.acap_locked.specs.Examples.{EpochExamples, HistoryExamples, PassExamples, RingExamples};
ghost use Rattle.acap_locked.specs.Laws.{ReplayLaw};

/// A machine is the replay of a history exactly where the run of its steps answers what the history says, and ends in that machine (RFC
/// 2244 section 2).
pub fn replay_law()
    ensures { ReplayLaw }
{}

/// Examples of flags, and of the seats that are rung (RFC 2244 section 6.5).
pub fn ring_examples()
    ensures { RingExamples }
{}

/// Examples of histories, and of the items of passes.
pub fn history_examples()
    ensures { HistoryExamples }
{}

/// Examples of passes that are missing, or differ from the history.
pub fn pass_examples()
    ensures { PassExamples }
{}

/// Examples of when an epoch begins, and when a history is full.
pub fn epoch_examples()
    ensures { EpochExamples }
{}
