//! Laws of access lists and rights, from the definitions alone: each function does nothing, and its contract is the law.
ghost use Rattle.acap_rights.specs.Laws.{PairLaw, WhomLaw, NegativeLaw, OrderLaw, AdministratorLaw};
ghost use Rattle.acap_rights.specs.Laws.{OwnerLaw, DecidingLaw, KeepingLaw, EditLaw};
ghost use Rattle.acap_rights.specs.Groups.{GroupLaw};
ghost use Rattle.acap_rights.specs.Sharing.{SharedLaw};
ghost use Rattle.acap_rights.specs.Examples.{PairExamples, RightsExamples, GroupExamples};
ghost use Rattle.acap_rights.specs.Examples.{HomeExamples, EditExamples};

/// What a string of a list says is the pair whose form it is, and nothing where it is no pair's form.
pub fn pair_law()
    ensures { PairLaw }
{}

/// A user's own pairs and those of `anyone` give their letters or, with `-`, take them away; those of others do neither.
pub fn whom_law()
    ensures { WhomLaw }
{}

/// A list over groups gives a user what it gives with each group's string written out for its members, and what a group's negative
/// string takes from a member is not given by any other.
pub fn group_law()
    ensures { GroupLaw }
{}

/// What a string of the deciding list takes from a user is not given, whatever stands before and after it, unless it is implicit.
pub fn negative_law()
    ensures { NegativeLaw }
{}

/// The order of a list's strings makes no difference to the rights.
pub fn order_law()
    ensures { OrderLaw }
{}

/// An administrator has all rights.
pub fn administrator_law()
    ensures { AdministratorLaw }
{}

/// The owner of a dataset may read and administer it.
pub fn owner_law()
    ensures { OwnerLaw }
{}

/// Which of the four lists decides, one after the other: the empty list decides too, and NIL is none.
pub fn deciding_law()
    ensures { DecidingLaw }
{}

/// Rights that are asked once for a dataset are those on each attribute for which an entry has no list of its own.
#[tactic(auto, using(crate::proofs::SharingLemmas::shared_law))]
pub fn shared_law()
    ensures { SharedLaw }
{}

/// Which attributes of a management entry are lists, and whose.
pub fn keeping_law()
    ensures { KeepingLaw }
{}

/// What SETACL and DELETEACL change in a list, and what they leave.
pub fn edit_law()
    ensures { EditLaw }
{}

/// Which strings are pairs.
pub fn pair_examples()
    ensures { PairExamples }
{}

/// What lists give, the implicit rights, and what is listed of them.
pub fn rights_examples()
    ensures { RightsExamples }
{}

/// What lists give to who is in groups.
pub fn group_examples()
    ensures { GroupExamples }
{}

/// Whose datasets are whose, and the default lists.
pub fn home_examples()
    ensures { HomeExamples }
{}

/// What SETACL and DELETEACL make of lists.
pub fn edit_examples()
    ensures { EditExamples }
{}
