//! A machine, and what was sent to it.

use crate::machine::{command_of, empty, seat};
use crate::wrong::Wrong;
use acap_commands::{Event, Said, Tolds};
use acap_entries::{Memory, Moment, Steps, UserName};
use acap_machine::State;
use std::alloc::Global;
use std::sync::ledger::Ledger;

/// A machine, and what was sent to it, as a script says it.
#[derive(Drop)]
pub(crate) struct World {
    pub(crate) alloc: Global,
    machine: Box<State>,
    sent: Vec<u8>,
}

impl World {
    /// An empty machine without administrators.
    pub(crate) fn new(alloc: Global) -> Result<World, Memory> {
        World::of(alloc, empty(alloc))
    }

    // A machine to which nothing was sent.
    fn of(alloc: Global, machine: State) -> Result<World, Memory> {
        Ok(World {
            alloc,
            machine: Box::new(alloc, machine)?,
            sent: Vec::new(alloc),
        })
    }

    /// An equal machine, to which nothing was sent.
    pub(crate) fn copy(&self) -> Result<World, Memory> {
        World::of(self.alloc, self.machine.copy()?)
    }

    /// A machine to which these lines were sent, each of which makes something, at a seat of joe's.
    pub(crate) fn filled<L: Ledger>(
        alloc: Global,
        lines: &[&[u8]],
        steps: &mut Steps<L>,
    ) -> Result<World, Wrong> {
        let mut world = World::new(alloc)?;
        let _hello = world.enter(1, b"joe", steps)?;
        for line in lines {
            match world.send(1, line, steps)? {
                Said::Done(_) => {}
                _ => return Err(Wrong::Answer),
            }
        }
        Ok(world)
    }

    /// The machine.
    pub(crate) fn state(&self) -> &State {
        &self.machine
    }

    /// What was sent.
    pub(crate) fn into_sent(self) -> Vec<u8> {
        self.sent
    }

    // Keeps what is sent at a seat.
    fn keep(&mut self, verb: &[u8], number: u8, text: &[u8]) -> Result<(), Memory> {
        self.sent.extend_from_slice(b"> ")?;
        self.sent.extend_from_slice(verb)?;
        self.sent
            .extend_from_slice(&[b' ', b'0'.saturating_add(number), b' '])?;
        self.sent.extend_from_slice(text)?;
        self.sent.extend_from_slice(b"\n")?;
        Ok(())
    }

    // What the machine says to an event of a seat.
    fn answer<L: Ledger>(
        &mut self,
        number: u8,
        event: Event,
        steps: &mut Steps<L>,
    ) -> Result<Said, Wrong> {
        let reply = self
            .machine
            .step(seat(number.min(63)), event, Moment::first(), steps)?;
        Ok(reply.said)
    }

    /// A user takes a seat.
    pub(crate) fn enter<L: Ledger>(
        &mut self,
        number: u8,
        name: &[u8],
        steps: &mut Steps<L>,
    ) -> Result<Said, Wrong> {
        self.keep(b"enter", number, name)?;
        match UserName::read(self.alloc, name) {
            Ok(user) => self.answer(number, Event::Enter(user), steps),
            Err(_) => Err(Wrong::Unread),
        }
    }

    /// What is said to a line of a seat.
    pub(crate) fn send<L: Ledger>(
        &mut self,
        number: u8,
        line: &[u8],
        steps: &mut Steps<L>,
    ) -> Result<Said, Wrong> {
        self.keep(b"send", number, line)?;
        let command = command_of(self.alloc, line)?;
        self.answer(number, Event::Command(command), steps)
    }

    /// What is sent at a seat without being asked for: something exactly where its bit says so.
    pub(crate) fn drain<L: Ledger>(
        &mut self,
        number: u8,
        steps: &mut Steps<L>,
    ) -> Result<Tolds, Wrong> {
        self.keep(b"drain", number, b"")?;
        let waits = (self.machine.waiting() >> number.min(63)) & 1 == 1;
        let Said::Drained(tolds) = self.answer(number, Event::Drain, steps)? else {
            return Err(Wrong::Answer);
        };
        if waits == tolds.is_empty() {
            return Err(Wrong::Waiting);
        }
        Ok(tolds)
    }
}
