//! `Event`: what a session asks of the machine; `Fault`: why it isn't performed.
ghost use Rattle.std.specs.Prelude.{◌≡◌, ◌↔◌, IsTrue};

use crate::command::Command;
use acap_entries::{Copying, Memory, UserName};
use thiserror::Error;

/// Why an event isn't performed; the machine is as before.
#[derive(Clone, Copy, Debug, PartialEq, Eq, Error)]
pub enum Fault {
    /// Memory was refused.
    #[error("out of memory")]
    Memory,
    /// Nobody has the seat.
    #[error("nobody has the seat")]
    NotEntered,
    /// The seat has a user already.
    #[error("the seat is taken")]
    AlreadyEntered,
    /// The history holds as many events as it may; the machine itself never says so.
    #[error("the history is full")]
    HistoryFull,
}

impl From<Memory> for Fault {
    ghost use Rattle.std.specs.Prelude.{◌≡◌};
    ghost use Rattle.acap_commands.specs.declared.event.Fault.TheVariants as fault;

    ghost from_gives = { λ memory made. made ≡ fault.Memory };

    fn from(_memory: Memory) -> Fault {
        Fault::Memory
    }
}

/// What a session brings to the machine (RFC 2244 sections 2 and 6).
#[derive(Clone, Drop)]
pub enum Event {
    /// A user takes the seat.
    Enter(UserName),
    /// The user of the seat gives a command.
    Command(Command),
    /// The user's pending notices are asked for.
    Drain,
    /// The user leaves the seat.
    Leave,
}

impl Event {
    /// Whether two of them are equal. Takes no memory.
    pub fn equals(&self, other: &Event) -> bool
        ensures { IsTrue result ↔ (self.now ≡ other.now) }
    {
        match (self, other) {
            (Event::Enter(one), Event::Enter(two)) => one == two,
            (Event::Command(one), Event::Command(two)) => one.equals(two),
            (Event::Drain, Event::Drain) | (Event::Leave, Event::Leave) => true,
            _ => false,
        }
    }
}

impl Copying for Event {
    fn copy(&self) -> Result<Event, Memory> {
        self.clone()
    }
}
