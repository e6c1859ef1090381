//! Laws of commands that write, from the definitions alone: each function does nothing, and its contract is the law.
ghost use Rattle.acap_store.specs.DatasetLaws.{DatasetLaw, HousedLaw, RootLaw, SoundLaw};
ghost use Rattle.acap_entries.specs.Store.{Stored};
ghost use Rattle.acap_store.specs.Examples.{ItemExamples, MeaningExamples, PermissionExamples, LimitExamples, WritingExamples, TellingLaw, StageLaws, ChangeExamples};
ghost use Rattle.acap_store.specs.Laws.{OrderLaw, PathLaw, KeptLaw, LaterLaw, RoomLaw, StepsLaw};

/// A command is refused by the first refusal of their order that holds, and accepted where none does (RFC 2244 section 3.6).
pub fn order_law()
    ensures { OrderLaw }
{}

/// What a command writes, path by path (RFC 2244 section 6.6.1).
pub fn path_law()
    ensures { PathLaw }
{}

/// Which paths keep their records.
pub fn kept_law()
    ensures { KeptLaw }
{}

/// Each accepted command is later than the one before it, whatever the clock (RFC 2244 section 3.1.1).
pub fn later_law()
    ensures { LaterLaw }
{}

/// Which datasets there are after a command: those that there were, those on the way to its paths, and those that its items
/// make (RFC 2244 section 3.1.1).
pub fn dataset_law()
    ensures { DatasetLaw }
{}

/// A command takes no dataset away, and where the dataset of each record exists, it does afterwards.
pub fn housed_law()
    ensures { HousedLaw }
{}

/// Items that may be stored and items that may not, one for each rule (RFC 2244 sections 3.1.1, 3.5 and 5.2).
pub fn item_examples()
    ensures { (records : Stored) → ItemExamples records }
{}

/// What SETACL and DELETEACL store (RFC 2244 section 6.7).
pub fn meaning_examples()
    ensures { (records : Stored) → MeaningExamples records }
{}

/// Which rights suffice, and on what they are asked (RFC 2244 section 3.5).
pub fn permission_examples()
    ensures { PermissionExamples }
{}

/// What stands twice, what is later, and each limit on both its sides (RFC 2244 sections 3.6 and 6.6.1).
pub fn limit_examples()
    ensures { LimitExamples }
{}

/// What an entry has once it is written (RFC 2244 section 6.6.1).
pub fn writing_examples()
    ensures { WritingExamples }
{}

/// Which names DELETEDSINCE prints, and its refusals (RFC 2244 section 6.6.2).
pub fn telling_law()
    ensures { TellingLaw }
{}

/// Whether what is written is too much, whatever the moment (RFC 2244 section 3.6).
pub fn room_law()
    ensures { RoomLaw }
{}

/// Which datasets are missing on the way to one (RFC 2244 section 3.1.1).
pub fn steps_law()
    ensures { StepsLaw }
{}

/// Each refusal comes before the later ones, and is judged by the store as it was (RFC 2244 section 3.6).
pub fn stage_law()
    ensures { StageLaws }
{}

/// Which deletions a change records, and by which moment UNCHANGEDSINCE goes (RFC 2244 sections 6.6.1 and 6.6.2).
pub fn change_examples()
    ensures { (records : Stored) → ChangeExamples records }
{}

/// From which datasets the way up ends at `/` (RFC 2244 section 3.1).
pub fn root_law()
    ensures { RootLaw }
{}

/// The empty store is sound, and a command whose paths are well formed leaves a sound store sound, with the datasets that it had
/// (RFC 2244 section 3.1.1).
pub fn sound_law()
    ensures { SoundLaw }
{}
