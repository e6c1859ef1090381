//! Whether a move leaves a live list as it was.
ghost use Rattle.std.specs.Prelude.{◌≡◌, IsTrue, Some, slice_get};
ghost use Rattle.acap_moves.specs.Moves.{undone};

use crate::undo_move::UndoMove;
use acap_entries::Ranked;
use acap_search::BoxedHit;

// Whether an equal hit stands at a place.
fn stands_at(hits: &Ranked<BoxedHit>, place: usize, gone: &BoxedHit) -> bool
    ensures { IsTrue result → slice_get hits.now.0 place ≡ Some gone.now }
{
    match hits.get(place) {
        Some(found) => found.hit().equals(gone.hit()),
        None => false,
    }
}

/// Whether the list was the same before a move: nothing was taken out and nothing put in, or an equal hit where one was taken out.
pub(crate) fn is_idle(hits: &Ranked<BoxedHit>, made: &UndoMove) -> bool
    ensures { IsTrue result → undone made.now hits.now.0 ≡ hits.now.0 }
{
    match (&made.gone, made.come) {
        (None, None) => true,
        (Some((place, gone)), Some(come)) => *place == come && stands_at(hits, come, gone),
        (Some(_), None) | (None, Some(_)) => false,
    }
}
