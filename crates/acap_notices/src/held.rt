//! `Held`: the rows that a client holds of a context.
ghost use Rattle.std.specs.Prelude.{◌≡◌, ◌↔◌, Some, None, OnOk, OnErr};
ghost use Rattle.acap_notices.specs.Faults.{IsMisfit};
ghost use Rattle.acap_notices.specs.Rows.{IsEachOnce};
ghost use Rattle.acap_notices.specs.Holding.{HasRows, holding, holding_after};

use crate::held_fault::HeldFault;
use crate::notice::Notice;
use crate::{listed, mapped};
use acap_entries::{Row, Sequence};
use std::marker::Model;

/// What a client holds of a context: the rows that it was given by the SEARCH that made it, as the notices since then have changed
/// them. Of an enumerated context that is a list, of another the rows by the names of their entries (RFC 2244 section 3.3).
#[derive(Drop)]
pub struct Held {
    rows: Vec<Row>,
    enumerated: bool,
}

impl Model for Held {
    ghost use Rattle.acap_notices.specs.Rows.{IsEachOnce};
    ghost use Rattle.acap_notices.specs.Holding.{Holding, holding, holding_code};

    ghost Value = { Holding };

    ghost coded = { holding_code };

    ghost view = { λ h. holding h.enumerated h.rows.items };

    ghost invariant = { λ h. IsEachOnce h.rows.items };
}

impl Held {
    /// The rows of a SEARCH, with their positions or without. No name may come twice (`is_each_once`). Takes no memory.
    pub fn start(rows: Sequence<Row>, enumerated: bool) -> Held
        requires { IsEachOnce rows }
        ensures { result ≡ holding enumerated rows }
    {
        Held {
            rows: rows.into_vec(),
            enumerated,
        }
    }

    /// The rows that are held: of an enumerated context in their order, of another in any. No name comes twice.
    pub fn rows(&self) -> &[Row]
        ensures rows { HasRows self.now result.now }
        ensures once { IsEachOnce result.now }
    {
        self.rows.as_slice()
    }

    /// Applies a notice. `Misfit` exactly where it doesn't fit what is held. At a fault nothing has changed.
    #[tactic(auto, using(crate::proofs::RuleLemmas::no_twice), unfolding(crate::specs::Client::mapped_after))]
    pub fn apply(&mut self, notice: &Notice) -> Result<(), HeldFault>
        ensures ok { OnOk result (holding_after self.old notice.now ≡ Some self.new) }
        ensures misfit { IsMisfit result ↔ (holding_after self.old notice.now ≡ None) }
        ensures err { OnErr result (self.new ≡ self.old) }
    {
        if self.enumerated {
            match notice {
                Notice::AddTo { position, row } => listed::add(&mut self.rows, *position, row),
                Notice::RemoveFrom { entry, position } => {
                    listed::remove(&mut self.rows, entry, *position)
                }
                Notice::Change { from, to, row } => {
                    listed::change(&mut self.rows, *from, *to, row)
                }
            }
        } else {
            match notice {
                Notice::AddTo { row, .. } => mapped::add(&mut self.rows, row),
                Notice::RemoveFrom { entry, .. } => mapped::remove(&mut self.rows, entry),
                Notice::Change { row, .. } => mapped::change(&mut self.rows, row),
            }
        }
    }
}
