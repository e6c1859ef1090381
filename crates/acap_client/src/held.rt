//! `Held`: the rows of one context, with positions or by name.
ghost use Rattle.std.specs.Prelude.{◌≡◌, ◌↔◌, ◌≤◌, Some, None, [], OnOk, OnErr, length, vec_capacity};
ghost use Rattle.std.specs.Prelude.{if◌then◌else◌};
ghost use Rattle.std.specs.Option.{option_copied};
ghost use Rattle.acap_client.specs.Following.{held_after, held_as};
ghost use Rattle.acap_client.specs.Keeping.{IsMisfit, noted};
ghost use Rattle.acap_client.specs.Placing.{is_enumerated, rows_of, row_in};

use crate::note::Note;
use crate::row::Row;
use crate::{arranging, by_name, listed};
use acap_notices::HeldFault;
use std::alloc::Global;
use std::marker::Model;

/// The rows that are held of a context, as lines printed them. Of an enumerated context they stand in their positions,
/// of another in the order of their names (RFC 2244 section 3.3).
#[derive(Drop)]
pub struct Held {
    rows: Vec<Row>,
    enumerated: bool,
}

impl Model for Held {
    ghost use Rattle.acap_client.specs.Codes.{held_code};
    ghost use Rattle.acap_client.specs.Following as following;
    ghost use Rattle.acap_client.specs.Placing.{IsInPlace, held_in};

    ghost Value = { following.Held };

    ghost coded = { held_code };

    ghost view = { λ h. held_in h.enumerated h.rows.items };

    ghost invariant = { λ h. IsInPlace h.enumerated h.rows.items };
}

impl Held {
    /// The rows of a SEARCH. Where they aren't enumerated, the first of each name is held, and the room is for them.
    /// Takes no memory.
    pub(crate) fn start(rows: Vec<Row>, room: Vec<Row>, enumerated: bool) -> Held
        requires none { room.items ≡ [] }
        requires room { (if enumerated then 0 else length rows.items) ≤ vec_capacity room }
        ensures { result ≡ held_as enumerated rows.items }
    {
        if enumerated {
            return Held { rows, enumerated };
        }
        Held {
            rows: arranging::arranged(rows, room),
            enumerated,
        }
    }

    /// Whether the context is enumerated: whether its rows stand in positions.
    pub fn is_enumerated(&self) -> bool
        ensures { result ≡ is_enumerated self.now }
    {
        self.enumerated
    }

    /// The rows: of an enumerated context in their positions, of another in the order of their names.
    pub fn rows(&self) -> &[Row]
        ensures { result.now ≡ rows_of self.now }
    {
        self.rows.as_slice()
    }

    /// The row of an entry, if one is held. Takes no memory.
    pub fn row(&self, entry: &[u8]) -> Option<&Row>
        ensures { option_copied result ≡ row_in entry.now self.now }
    {
        if self.enumerated {
            listed::find(self.rows.as_slice(), entry)
        } else {
            by_name::find(self.rows.as_slice(), entry)
        }
    }

    /// Applies a notice. `Misfit` exactly where it doesn't fit what is held. At a fault nothing has changed.
    #[tactic(auto, unfolding(acap_grammar::specs::Printed::printed_map_after))]
    pub(crate) fn apply(&mut self, alloc: Global, note: &Note) -> Result<(), HeldFault>
        ensures ok { OnOk result (held_after self.old (noted note.now) ≡ Some self.new) }
        ensures misfit { IsMisfit result ↔ (held_after self.old (noted note.now) ≡ None) }
        ensures err { OnErr result (self.new ≡ self.old) }
    {
        if self.enumerated {
            match note {
                Note::AddTo(position, name, items) => {
                    listed::add(alloc, &mut self.rows, position, name, items)
                }
                Note::RemoveFrom(name, position) => listed::remove(&mut self.rows, name, position),
                Note::Change(old, new, name, items) => {
                    listed::change(alloc, &mut self.rows, old, new, name, items)
                }
            }
        } else {
            match note {
                Note::AddTo(_, name, items) => by_name::add(alloc, &mut self.rows, name, items),
                Note::RemoveFrom(name, _) => by_name::remove(&mut self.rows, name),
                Note::Change(_, _, name, items) => {
                    by_name::change(alloc, &mut self.rows, name, items)
                }
            }
        }
    }
}
