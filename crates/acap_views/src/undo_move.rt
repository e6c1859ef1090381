//! One move of a live list, as it is taken back.

use acap_entries::{Copying, Memory};
use acap_search::BoxedHit;
use std::marker::Model;

/// What a move did to a list: which hit it took out and where that stood, and where it put a new one, both by how many stood before.
#[derive(Clone, Drop)]
pub(crate) struct UndoMove {
    pub(crate) gone: Option<(usize, BoxedHit)>,
    pub(crate) come: Option<usize>,
}

impl Model for UndoMove {
    ghost use Rattle.acap_moves.specs.Moves.{Undo};
    ghost use Rattle.acap_search.specs.Matches.{Match};
    ghost use Rattle.acap_views.specs.UndoMoves.{undo_code};

    ghost Value = { Undo Match };

    ghost coded = { undo_code };

    ghost view = { λ u. record { gone = u.gone; come = u.come } };
}

impl Copying for UndoMove {
    fn copy(&self) -> Result<UndoMove, Memory> {
        self.clone()
    }
}
