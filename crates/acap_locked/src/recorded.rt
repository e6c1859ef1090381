//! A call as it is written down: for the history, for its pass, and for its caller.
ghost use Rattle.std.specs.Prelude.{◌≡◌, IfOk};
ghost use Rattle.acap_locked.specs.Notes.{entry_of, item_of};

use crate::history_entry::HistoryEntry;
use crate::item::Item;
use crate::shared_call::SharedCall;
use acap_entries::{Memory, Seat};

/// Where a call is written down.
#[derive(Clone, Copy)]
pub(crate) struct Mark {
    /// At which seat it was made.
    pub(crate) seat: Seat,
    /// In which epoch.
    pub(crate) epoch: u64,
    /// After how many calls of it.
    pub(crate) place: u64,
}

/// What a call leaves in the history, in its pass, and with its caller.
#[derive(Drop)]
pub(crate) struct Recorded {
    /// The history's.
    pub(crate) entry: HistoryEntry,
    /// The pass's.
    pub(crate) item: Item,
    /// The caller's.
    pub(crate) kept: Item,
}

/// All three, of the same call. Fails only for want of memory.
pub(crate) fn write_down(mark: Mark, exchange: SharedCall) -> Result<Recorded, Memory>
    ensures entry { IfOk result (λ made. made.entry ≡ entry_of mark.seat exchange) }
    ensures item { IfOk result (λ made. made.item ≡ item_of mark.epoch mark.place exchange) }
    ensures kept { IfOk result (λ made. made.kept ≡ item_of mark.epoch mark.place exchange) }
{
    let Mark { seat, epoch, place } = mark;
    let item = Item {
        epoch,
        place,
        exchange: exchange.share()?,
    };
    let kept = Item {
        epoch,
        place,
        exchange: exchange.share()?,
    };
    let entry = HistoryEntry { seat, exchange };
    Ok(Recorded { entry, item, kept })
}
