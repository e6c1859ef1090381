//! Laws of lists that change and clients that follow them, whatever the hits: each function does nothing, and its contract is the law.
ghost use Rattle.acap_moves.specs.Following.{FollowingLaw, PendingLaw};
ghost use Rattle.acap_moves.specs.Moves.{MovesLaw, UndoLaw};
ghost use Rattle.acap_moves.specs.Notices.{MixedLaw, NoticeListLaw};
ghost use Rattle.acap_moves.specs.Examples.{MoveExamples};

/// The lists with the new hits of the first changed names are those made step by step.
pub fn mixed_law<H>()
    ensures { MixedLaw H }
{}

/// The client that holds the rows of the old list and applies the notices holds those of the new one, in a list or by name.
pub fn notice_list_law<H>()
    ensures { NoticeListLaw H }
{}

/// Moving the hits of the touched names one after the other, in ascending order, gives the new list and the notices of the changed
/// ones, whatever else is touched.
pub fn moves_law<H>()
    ensures { MovesLaw H }
{}

/// Undoing moves from the last to the first gives the list that was.
pub fn undo_law<H>()
    ensures { UndoLaw H }
{}

/// Over any list of changes and sendings, the notices that wait take the list last sent to the present one, and the client holds the
/// list last sent.
pub fn following_law<H>()
    ensures { FollowingLaw H }
{}

/// The notices of two changes one after the other are both lists joined.
pub fn pending_law<H>()
    ensures { PendingLaw H }
{}

/// Notices of one change, computed from the definitions alone.
pub fn move_examples()
    ensures { MoveExamples }
{}
