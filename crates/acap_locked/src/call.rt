//! `Call`: an event, its moment and its reply; `Answer`: what its caller gets.
ghost use Rattle.std.specs.Prelude.{◌≡◌, ◌↔◌, IsTrue};

use crate::item::Item;
use acap_commands::{Event, Reply};
use acap_entries::{Copying, Memory, Moment};

/// One call: an event, when it came, and its reply.
#[derive(Drop)]
pub struct Call {
    /// The event.
    pub event: Event,
    /// What the clock showed.
    pub moment: Moment,
    /// What was answered.
    pub reply: Reply,
}

impl Call {
    /// Whether two of them are equal. Takes no memory.
    pub fn equals(&self, other: &Call) -> bool
        ensures { IsTrue result ↔ (self.now ≡ other.now) }
    {
        self.event.equals(&other.event)
            && self.moment == other.moment
            && self.reply.equals(&other.reply)
    }
}

impl Copying for Call {
    fn copy(&self) -> Result<Call, Memory> {
        let event = self.event.copy()?;
        let reply = self.reply.copy()?;
        Ok(Call {
            event,
            moment: self.moment,
            reply,
        })
    }
}

/// What a call answers.
#[derive(Drop)]
pub struct Answer {
    /// The number of the epoch in which it was made, from 0.
    pub epoch: u64,
    /// Its place in the history of that epoch, from 0.
    pub place: u64,
    /// The reply of the machine.
    pub reply: Reply,
    /// The pass's new item, for the caller's own record: there is one in every answer of a book, until the caller takes it.
    pub kept: Option<Item>,
    /// The seats to be rung, since a drain has something to report there: a bit for each, the lowest for the first.
    pub rings: u64,
}
