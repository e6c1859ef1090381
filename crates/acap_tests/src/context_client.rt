//! A client that follows what it is sent of a context.

use crate::dice::Quest;
use crate::world::World;
use crate::wrong::Wrong;
use acap_commands::{Refusal, Rows, Said, Tolds};
use acap_entries::{Copying, Memory, Row, Sequence, Steps};
use acap_notices::{Held, ToldRef, is_each_once};
use std::alloc::Global;
use std::sync::ledger::Ledger;

/// A client's context, whose name is one letter.
#[derive(Drop)]
pub(crate) struct Client {
    pub(crate) seat: u8,
    pub(crate) name: u8,
    quest: Quest,
    held: Held,
}

// Whether a client holds these rows, in their order where they have positions.
fn has_rows(held: &[Row], rows: &[Row], enumerated: bool) -> bool {
    if enumerated {
        return held == rows;
    }
    held.len() == rows.len() && rows.iter().all(|row| held.contains(row))
}

// What a client holds that was sent some rows.
fn hold(rows: Sequence<Row>, enumerated: bool) -> Result<Held, Wrong> {
    if is_each_once(rows.as_slice()) {
        Ok(Held::start(rows, enumerated))
    } else {
        Err(Wrong::Twice)
    }
}

impl Client {
    /// The client of a context that is made now, unless the dataset doesn't exist.
    pub(crate) fn open<L: Ledger>(
        world: &mut World,
        seat: u8,
        name: u8,
        quest: Quest,
        steps: &mut Steps<L>,
    ) -> Result<Option<Client>, Wrong> {
        let line = quest.making(world.alloc, name)?;
        match world.send(seat, line.as_slice(), steps)? {
            Said::Searched(found) => {
                let rows = found.rows.into_own(world.alloc).map_err(|_| Memory)?;
                let held = hold(rows, quest.enumerated)?;
                Ok(Some(Client {
                    seat,
                    name,
                    quest,
                    held,
                }))
            }
            Said::Refused(Refusal::NoExist(_)) => Ok(None),
            _ => Err(Wrong::Answer),
        }
    }

    /// The same client once more.
    pub(crate) fn copy(&self, alloc: Global) -> Result<Client, Wrong> {
        let mut rows = Sequence::new(alloc);
        for row in self.held.rows() {
            rows.push(row.copy()?)?;
        }
        Ok(Client {
            seat: self.seat,
            name: self.name,
            quest: self.quest.copy(alloc)?,
            held: hold(rows, self.quest.enumerated)?,
        })
    }

    // The rows that its user finds now.
    fn find<L: Ledger>(&self, world: &mut World, steps: &mut Steps<L>) -> Result<Rows, Wrong> {
        let line = self.quest.searching(world.alloc)?;
        match world.send(self.seat, line.as_slice(), steps)? {
            Said::Searched(found) => Ok(found.rows),
            Said::Refused(Refusal::NoExist(_)) => Ok(Rows::none()),
            _ => Err(Wrong::Answer),
        }
    }

    // The rows that its user finds in the context.
    fn show<L: Ledger>(&self, world: &mut World, steps: &mut Steps<L>) -> Result<Rows, Wrong> {
        let line = self.quest.within(world.alloc, self.name)?;
        match world.send(self.seat, line.as_slice(), steps)? {
            Said::Searched(found) => Ok(found.rows),
            _ => Err(Wrong::Answer),
        }
    }

    /// It hears what is sent at its seat. Then it holds what its user finds, and so does its context.
    pub(crate) fn hear<L: Ledger>(
        &mut self,
        tolds: &Tolds,
        world: &mut World,
        steps: &mut Steps<L>,
    ) -> Result<(), Wrong> {
        for told in tolds.iter() {
            self.apply(&told)?;
        }
        let rows = self.find(world, steps)?;
        if !has_rows(self.held.rows(), rows.as_slice(), self.quest.enumerated) {
            return Err(Wrong::Held);
        }
        if self.show(world, steps)? != rows {
            return Err(Wrong::Range);
        }
        Ok(())
    }

    // It hears one thing that is sent at its seat.
    fn apply(&mut self, told: &ToldRef<'_>) -> Result<(), Wrong> {
        match told {
            ToldRef::Note(name, notice) if name.as_slice() == [self.name].as_slice() => {
                Ok(self.held.apply(*notice)?)
            }
            ToldRef::Freed(_) => Err(Wrong::Freed),
            _ => Ok(()),
        }
    }
}
