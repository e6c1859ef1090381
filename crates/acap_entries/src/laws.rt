//! Laws of names, times, stores and changes, from the definitions alone: each function does nothing, and its contract is the law.
ghost use Rattle.acap_entries.specs.Laws.{ChangeLaw, AfterLaw, TwoChangesLaw, RemovalLaw, DeletionLaw};
ghost use Rattle.acap_entries.specs.Laws.{FullPathLaw, OwnEntryLaw, PathLaw, FormLaw};
ghost use Rattle.acap_entries.specs.Laws.{ExistenceLaw, StampLaw, TimeLaw};
ghost use Rattle.acap_entries.specs.Laws.{MomentExamples, StampExamples, TimeExamples, PathExamples};
ghost use Rattle.acap_entries.specs.Laws.{DatasetExamples, NameExamples, HomeExamples};

/// A change determines the store that it leaves.
pub fn change_law()
    ensures { ChangeLaw }
{}

/// The store after a change, as a value, is the one that the change stands for.
pub fn after_law()
    ensures { AfterLaw }
{}

/// What stands at each path after two changes.
pub fn two_changes_law()
    ensures { TwoChangesLaw }
{}

/// A record that one change writes and the next removes is gone.
pub fn removal_law()
    ensures { RemovalLaw }
{}

/// Which deletions are kept, and what is known of those that are not (RFC 2244 section 6.6.2).
pub fn deletion_law()
    ensures { DeletionLaw }
{}

/// The order of full paths is total, and tells well-formed paths apart.
pub fn full_path_law()
    ensures { FullPathLaw }
{}

/// Which entry is a dataset's own (RFC 2244 section 3.1.1).
pub fn own_entry_law()
    ensures { OwnEntryLaw }
{}

/// What is made of datasets and paths is well formed as they are.
pub fn form_law()
    ensures { FormLaw }
{}

/// The moment of a change, by the clock and by the last one.
pub fn moment_examples()
    ensures { MomentExamples }
{}

/// Which records make datasets, and which datasets exist (RFC 2244 section 3.1.1).
pub fn existence_law()
    ensures { ExistenceLaw }
{}

/// A path is its dataset and then its name.
pub fn path_law()
    ensures { PathLaw }
{}

/// Each moment has exactly one stamp.
pub fn stamp_law()
    ensures { StampLaw }
{}

/// The stamps of the moments 0 and 1, of the first and of the last.
pub fn stamp_examples()
    ensures { StampExamples }
{}

/// The stamp of a moment is a time that stands for that moment (RFC 2244 section 8).
pub fn time_law()
    ensures { TimeLaw }
{}

/// Texts that are times and texts that are none, one for each rule (RFC 2244 section 8).
pub fn time_examples()
    ensures { TimeExamples }
{}

/// Paths that are accepted and refused, one for each rule.
pub fn path_examples()
    ensures { PathExamples }
{}

/// Datasets that are accepted and refused, one for each rule.
pub fn dataset_examples()
    ensures { DatasetExamples }
{}

/// Attributes, users and contexts that are accepted and refused, one for each rule.
pub fn name_examples()
    ensures { NameExamples }
{}

/// Datasets with `~`, and the own entries of datasets.
pub fn home_examples()
    ensures { HomeExamples }
{}
