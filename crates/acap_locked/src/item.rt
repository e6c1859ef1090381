//! `Item`: one call as its pass holds it; `PassContents`: all that a pass holds.
ghost use Rattle.std.specs.Prelude.{◌≡◌};

use crate::shared_call::SharedCall;
use acap_commands::{Event, Reply};
use acap_entries::{Copying, Memory, Moment, Seat, Sequence};

/// One call of a pass.
#[derive(Drop)]
pub struct Item {
    /// The number of the epoch in which it was made, from 0.
    pub epoch: u64,
    /// Its place in the history of that epoch, from 0.
    pub place: u64,
    /// The call.
    pub exchange: SharedCall,
}

impl Item {
    /// The event.
    pub fn event(&self) -> &Event
        ensures { result.now ≡ self.now.exchange.event }
    {
        &self.exchange.call().event
    }

    /// What the clock showed.
    pub fn moment(&self) -> Moment
        ensures { result ≡ self.now.exchange.moment }
    {
        self.exchange.call().moment
    }

    /// What was answered.
    pub fn reply(&self) -> &Reply
        ensures { result.now ≡ self.now.exchange.reply }
    {
        &self.exchange.call().reply
    }
}

/// The same call once more: its event and its reply are shared.
impl Copying for Item {
    fn copy(&self) -> Result<Item, Memory> {
        let exchange = self.exchange.copy()?;
        Ok(Item {
            epoch: self.epoch,
            place: self.place,
            exchange,
        })
    }
}

/// The calls of a pass, in their order.
pub type ItemList = Sequence<Item>;

/// What a pass holds.
#[derive(Drop)]
pub struct PassContents {
    /// Its seat.
    pub seat: Seat,
    /// The number of the epoch of its items, from 0.
    pub epoch: u64,
    /// The calls that were made through it in that epoch, in their order.
    pub items: ItemList,
    /// How many were made through it in the epochs before.
    pub retired: u64,
}

/// What passes hold, in the order in which they were handed in.
pub type PassContentsList = Sequence<PassContents>;
