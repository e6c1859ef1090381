//! Compares what passes hold with the history.
ghost use Rattle.std.specs.Prelude.{◌≡◌, ◌+◌, ◌<◌, ◌≤◌, ◌^◌, ◌↔◌, OnOk, IfOk, IsTrue, MatchOption, length};
ghost use Rattle.std.specs.Prelude.{map};
ghost use Rattle.std.specs.List.{list_any};
ghost use Rattle.acap_locked.specs.Epochs.{held_in};
ghost use Rattle.acap_locked.specs.Notes.{item_of};
ghost use Rattle.acap_locked.specs.Passes.{items_from, calls_of, calls_through, HereBelow, IsMissing, IsSame};
ghost use Rattle.acap_locked.specs.Passes.{SameBelow, IsUnequal, Stands, is_of};

use crate::history_entry::HistoryEntry;
use crate::item::{Item, PassContents, PassContentsList};
use crate::pass::{Pass, SEATS};
use crate::retiring::renew;
use crate::site::Site;
use acap_entries::{Memory, Seat, Sequence};
use std::alloc::Global;
use std::sync::ledger::{Book, Share};

// Whether a pass of the seat is among them.
fn is_here<S: Site>(passes: &[Pass<S>], seat: Seat) -> bool
    ensures { result ≡ list_any (is_of seat) passes.now }
{
    for pass in passes {
        if pass.seat == seat {
            return true;
        }
    }
    false
}

/// The least seat without a pass.
pub(crate) fn find_missing<S: Site>(passes: &[Pass<S>]) -> Option<Seat>
    ensures { MatchOption result (HereBelow passes.now 64) (λ seat. IsMissing passes.now seat) }
{
    for number in 0..SEATS {
        let seat = Seat::new(number).unwrap();
        if !is_here(passes, seat) {
            return Some(seat);
        }
    }
    None
}

// Whether the item is this call's.
fn is_item(item: &Item, epoch: u64, place: u64, entry: &HistoryEntry) -> bool
    ensures { IsTrue result ↔ (item.now ≡ item_of epoch place entry.now.exchange) }
{
    item.epoch == epoch && item.place == place && item.exchange.equals(&entry.exchange)
}

// Whether these are the seat's calls.
fn agrees(epoch: u64, seat: Seat, items: &[Item], history: &[HistoryEntry]) -> bool
    ensures { IsTrue result ↔ (items.now ≡ items_from epoch seat 0 history.now) }
{
    let mut rest = items;
    let mut place = 0;
    for entry in history {
        if entry.seat == seat {
            let Some((item, after)) = rest.split_first() else {
                return false;
            };
            if !is_item(item, epoch, place, entry) {
                return false;
            }
            rest = after;
        }
        place += 1;
    }
    rest.is_empty()
}

// Whether two numbers add up to a third.
fn is_sum(one: u64, other: u64, sum: u64) -> bool
    ensures { IsTrue result ↔ (one + other ≡ sum) }
{
    one <= sum && sum - one == other
}

// Whether the pass holds its seat's calls in this epoch, and the count of those before.
fn stands<S: Site>(pass: &Pass<S>, epoch: u64, history: &[HistoryEntry], count: u64) -> bool
    ensures { IsTrue result ↔ Stands epoch history.now count pass.now }
{
    if pass.epoch == epoch {
        pass.retired == count && agrees(epoch, pass.seat, &pass.items, history)
    } else {
        is_sum(pass.retired, pass.items.len() as u64, count)
            && agrees(epoch, pass.seat, &[], history)
    }
}

// Whether each pass of the seat does.
fn is_same<S: Site>(
    passes: &[Pass<S>],
    epoch: u64,
    history: &[HistoryEntry],
    count: u64,
    seat: Seat,
) -> bool
    ensures { IsTrue result ↔ IsSame passes.now epoch history.now count seat }
{
    for pass in passes {
        if pass.seat == seat && !stands(pass, epoch, history, count) {
            return false;
        }
    }
    true
}

/// The least seat with a pass that differs from the history.
pub(crate) fn find_unequal<S: Site>(
    passes: &[Pass<S>],
    epoch: u64,
    history: &[HistoryEntry],
    retired: &[u64],
) -> Option<Seat>
    requires { length retired.now ≡ 64 }
    ensures { MatchOption result (SameBelow passes.now epoch history.now retired.now 64)
        (λ seat. IsUnequal passes.now epoch history.now retired.now seat) }
{
    for number in 0..SEATS {
        let seat = Seat::new(number).unwrap();
        if !is_same(passes, epoch, history, retired[number as usize], seat) {
            return Some(seat);
        }
    }
    None
}

// Puts the share of a pass to the others, and gives what the pass holds in this epoch.
fn hand_in<S: Site>(
    book: &mut Book<S>,
    all: &mut Share<S>,
    epoch: u64,
    pass: Pass<S>,
) -> PassContents
    requires { book.old.total < 2 ^ 64 }
    ensures held { result ≡ held_in epoch pass }
    ensures parts { all.new.parts ≡ all.old.parts + 1 }
    ensures amount { all.new.amount ≡ all.old.amount + calls_through pass }
    ensures apart { all.new.parts ≤ S.parts }
    ensures total { book.new.total ≡ book.old.total }
{
    let Pass {
        seat,
        mut share,
        mut items,
        mut spent,
        epoch: mut at,
        mut retired,
    } = pass;
    book.audit(&mut share);
    renew(&mut items, &mut spent, &mut retired, &mut at, epoch);
    all.merge(share);
    PassContents {
        seat,
        epoch: at,
        items: Sequence::from_vec(items),
        retired,
    }
}

/// Puts the shares of passes together, one after another, and gives what each holds in this epoch. Fails only for want of memory.
#[tactic(auto, using(crate::proofs::Passed::calls_push, crate::proofs::Passed::map_push))]
pub(crate) fn gather<S: Site>(
    alloc: Global,
    book: &mut Book<S>,
    all: &mut Share<S>,
    epoch: u64,
    passes: Vec<Pass<S>>,
) -> Result<PassContentsList, Memory>
    requires none { (all.old.parts ≡ 0) × (all.old.amount ≡ 0) }
    requires bound { book.old.total < 2 ^ 64 }
    ensures parts { OnOk result (all.new.parts ≡ length passes.items) }
    ensures amount { OnOk result (all.new.amount ≡ calls_of passes.items) }
    ensures apart { OnOk result (length passes.items ≤ S.parts) }
    ensures total { OnOk result (book.new.total ≡ book.old.total) }
    ensures items { IfOk result (λ made. made ≡ map (held_in epoch) passes.items) }
{
    let mut items = Vec::with_capacity(alloc, passes.len())?;
    for pass in passes {
        items.push(hand_in(book, all, epoch, pass))?;
    }
    Ok(Sequence::from_vec(items))
}
