//! Calls of epochs that are over are counted at once, and freed a few at a time.
ghost use Rattle.std.specs.Prelude.{◌≡◌, ◌≤◌, ◌<◌, ◌+◌, ◌^◌, ◌==◌, ◌++◌, ◌∷◌, [], if◌then◌else◌, length, sum};
ghost use Rattle.std.specs.Prelude.{OnOk};
ghost use Rattle.acap_locked.specs.Epochs.{retire};
ghost use Rattle.acap_locked.specs.Room.{HasRoom};

use crate::history_entry::HistoryEntry;
use crate::item::Item;
use crate::room::push_in_room;
use std::alloc::AllocError;
use std::mem;

/// The old calls that are freed at each call, of the history and of its pass. An epoch has at most twice as many calls as the next one, so
/// that all of them are gone before that is over.
const LET_GO: usize = 2;

/// Frees `count` of those that were set aside, the last ones first, and with the first of them their room. Takes no memory.
pub(crate) fn let_go<T: Drop>(spent: &mut Vec<T>, count: usize) {
    let all = spent.len();
    if all > 0 {
        spent.truncate(all.saturating_sub(count));
        if spent.is_empty() {
            spent.shrink_to_fit();
        }
    }
}

/// Frees a few of those that were set aside, and makes room for one more of the others, also for when these are set aside first. Fails
/// only for want of memory.
pub(crate) fn make_room<T: Drop>(items: &mut Vec<T>, spent: &mut Vec<T>) -> Result<(), AllocError>
    ensures items { items.new.items ≡ items.old.items }
    ensures room { OnOk result (HasRoom items.new × HasRoom spent.new) }
{
    let_go(spent, LET_GO);
    items.reserve(1)?;
    spent.reserve(1)
}

/// Sets all aside, to be let go later. Where others are set aside still, they are put to these, if there is memory for it, and else let go
/// at once.
pub(crate) fn set_aside<T: Drop>(items: &mut Vec<T>, spent: &mut Vec<T>)
    ensures items { items.new.items ≡ [] }
    ensures room { HasRoom items.old → HasRoom spent.old → HasRoom items.new }
{
    if spent.is_empty() {
        mem::swap(items, spent);
    } else if spent.append(items).is_err() {
        items.clear();
    }
}

/// Counts the items of an older epoch, and sets them aside.
pub(crate) fn renew(
    items: &mut Vec<Item>,
    spent: &mut Vec<Item>,
    retired: &mut u64,
    epoch: &mut u64,
    current: u64,
)
    requires { retired.old + length items.old.items < 2 ^ 64 }
    ensures items { items.new.items ≡ (if epoch.old == current then items.old.items else []) }
    ensures retired { retired.new
        ≡ (if epoch.old == current then retired.old else retired.old + length items.old.items) }
    ensures epoch { epoch.new ≡ current }
    ensures same { retired.new + length items.new.items ≡ retired.old + length items.old.items }
    ensures room { HasRoom items.old → HasRoom spent.old → HasRoom items.new }
{
    if *epoch != current {
        *retired += items.len() as u64;
        set_aside(items, spent);
        *epoch = current;
    }
}

/// Adds an item of this epoch, in room that is there. Those of an older one are counted, and set aside.
pub(crate) fn gain(
    items: &mut Vec<Item>,
    spent: &mut Vec<Item>,
    retired: &mut u64,
    epoch: &mut u64,
    current: u64,
    item: Item,
)
    requires room { HasRoom items.old × HasRoom spent.old }
    requires fits { retired.old + length items.old.items < 2 ^ 64 }
    ensures items { items.new.items ≡ (if epoch.old == current then items.old.items else []) ++ item ∷ [] }
    ensures retired { retired.new
        ≡ (if epoch.old == current then retired.old else retired.old + length items.old.items) }
    ensures epoch { epoch.new ≡ current }
    ensures count { retired.new + length items.new.items ≡ retired.old + length items.old.items + 1 }
{
    renew(items, spent, retired, epoch, current);
    push_in_room(items, item);
}

/// Counts each call at its seat.
pub(crate) fn retire_all(counts: &mut Vec<u64>, history: &[HistoryEntry])
    requires seats { length counts.old.items ≡ 64 }
    requires fits { sum counts.old.items + length history.now ≤ 4611686018427387904 }
    ensures counts { counts.new.items ≡ retire counts.old.items history.now }
    ensures total { sum counts.new.items ≡ sum counts.old.items + length history.now }
    ensures seats { length counts.new.items ≡ 64 }
{
    for entry in history {
        let seat = usize::from(entry.seat.number());
        let count = counts[seat].saturating_add(1);
        counts[seat] = count;
    }
}
