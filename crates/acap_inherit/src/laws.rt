//! Laws of inheritance, from the definitions alone: each function does nothing, and its contract is the law.
ghost use Rattle.acap_inherit.specs.Examples.{ChainExamples, OverBaseExamples, MomentExamples};
ghost use Rattle.acap_inherit.specs.Laws.{ChainLaw, BaseLaw, RepeatLaw, FirstLaw, MomentLaw};
ghost use Rattle.acap_inherit.specs.Laws.{FirstDatasetLaw, NothingLaw, ReadingLaw, NamesLaw};
ghost use Rattle.acap_inherit.specs.TouchedExamples.{TouchedExamples};
ghost use Rattle.acap_inherit.specs.TouchedLaws.{TouchedPathsLaw, UnreadLaw};

/// Which datasets a chain has: each names the next (RFC 2244 section 5.2).
pub fn chain_law()
    ensures { ChainLaw }
{}

/// A dataset inherits from what the `dataset.inherit` of its management entry resolves to (RFC 2244 section 5.2).
pub fn base_law()
    ensures { BaseLaw }
{}

/// A dataset that comes again in a chain changes nothing.
pub fn repeat_law()
    ensures { RepeatLaw }
{}

/// The first record that says something of an attribute, or of the entry, decides (RFC 2244 section 5.1).
pub fn first_law()
    ensures { FirstLaw }
{}

/// The moment of an entry is the latest of its records down to the first at which inheritance ends.
pub fn moment_law()
    ensures { MomentLaw }
{}

/// What is not inherited.
pub fn first_dataset_law()
    ensures { FirstDatasetLaw }
{}

/// What no record has is NIL, and what is found lies in the chain.
pub fn nothing_law()
    ensures { NothingLaw }
{}

/// Which records a chain and an answer are read from.
pub fn reading_law()
    ensures { ReadingLaw }
{}

/// Which names there are along a chain.
pub fn names_law()
    ensures { NamesLaw }
{}

/// Chains by what management entries name, one for each case.
pub fn chain_examples()
    ensures { ChainExamples }
{}

/// What an entry shows over a base, by what is stored of it, one for each case.
pub fn over_base_examples()
    ensures { OverBaseExamples }
{}

/// The moments of entries with several records.
pub fn moment_examples()
    ensures { MomentExamples }
{}

/// Which paths changes touch, computed from the definition, one change for each case.
pub fn touched_examples()
    ensures { TouchedExamples }
{}

/// What a change doesn't touch is read alike before and after it.
pub fn unread_law()
    ensures { UnreadLaw }
{}

/// Which paths are listed as touched, and in which order.
pub fn touched_paths_law()
    ensures { TouchedPathsLaw }
{}
