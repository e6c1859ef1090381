//! The list that a live context's client was sent last: written out, or as moves back from the present one.
ghost use Rattle.std.specs.Prelude.{List, ◌≡◌, ◌≤◌, IfOk, OnOk, IfSome};
ghost use Rattle.acap_search.specs.Matches.{Match};
ghost use Rattle.acap_views.specs.Undoing.{shown_in, room_in};

use crate::undo_move::UndoMove;
use acap_entries::{Copying, Memory, copy_all};
use acap_search::Hits;

/// The list that was sent last: the present one with the moves since then taken back, the newest first, or written out where these
/// have become too many.
#[derive(Drop)]
pub(crate) enum LastSent {
    /// The moves since then, the oldest first.
    Moves(Vec<UndoMove>),
    /// The list.
    Written(Hits),
}

impl LastSent {
    /// The same list. Fails only for want of memory.
    pub(crate) fn copy(&self) -> Result<LastSent, Memory>
        ensures { IfOk result (λ made. (now : List Match) → shown_in made now ≡ shown_in self.now now) }
    {
        match self {
            LastSent::Moves(undos) => Ok(LastSent::Moves(copy_all(undos)?)),
            LastSent::Written(hits) => Ok(LastSent::Written(hits.copy()?)),
        }
    }

    /// Makes room for `more` moves, where moves are kept. The list stays, also where memory is refused.
    pub(crate) fn reserve(&mut self, more: usize) -> Result<(), Memory>
        ensures list { (now : List Match) → shown_in self.new now ≡ shown_in self.old now }
        ensures room { OnOk result (IfSome (room_in self.new) (λ room. more ≤ room)) }
    {
        if let LastSent::Moves(undos) = self {
            undos.reserve(more)?;
        }
        Ok(())
    }
}
