//! `Pass`: the right to make calls at one seat.
ghost use Rattle.std.specs.Prelude.{◌≡◌, IfOk, max};
ghost use Rattle.acap_locked.specs.Epochs.{held_in};
ghost use Rattle.acap_locked.specs.Passes.{new_pass, new_passes};

use crate::item::Item;
use crate::retiring::{let_go, renew};
use crate::site::Site;
use acap_entries::{Memory, Seat};
use std::alloc::Global;
use std::marker::Model;
use std::sync::ledger::Share;

/// How many seats there are.
pub(crate) const SEATS: u8 = 64;

/// The right to make calls at one seat (RFC 2244 section 2), with a record of those that were made: as many as its share of the ledger
/// says. One session after another may use it.
#[derive(Drop)]
pub struct Pass<S: Site> {
    pub(crate) seat: Seat,
    pub(crate) share: Share<S>,
    pub(crate) items: Vec<Item>,
    // Calls of epochs that are over, until they are freed. No contract sees them.
    pub(crate) spent: Vec<Item>,
    pub(crate) epoch: u64,
    pub(crate) retired: u64,
}

impl<S: Site> Model for Pass<S> {
    ghost use Rattle.std.specs.Prelude.{◌≡◌, ◌+◌, ◌<◌, ◌^◌, length};
    ghost use Rattle.acap_locked.specs.contracts.item.PassContents as held;
    ghost use Rattle.acap_locked.specs.declared.item.PassContents.{PassContents};

    ghost Value = { PassContents };

    ghost coded = { held.the_row.coded };

    ghost view = { λ p. record {
      seat = p.seat;
      epoch = p.epoch;
      items = p.items.items;
      retired = p.retired;
    } };

    ghost invariant = { λ p. (p.share.parts ≡ 1) × (p.share.amount ≡ p.retired + length p.items.items)
        × (p.retired + length p.items.items < 2 ^ 64) };
}

impl<S: Site> Pass<S> {
    /// A pass without calls, which has one part of the ledger. Takes no memory.
    pub(crate) fn new(alloc: Global, seat: Seat, share: Share<S>) -> Pass<S>
        requires { (share.parts ≡ 1) × (share.amount ≡ 0) }
        ensures { result ≡ new_pass seat }
    {
        Pass {
            seat,
            share,
            items: Vec::new(alloc),
            spent: Vec::new(alloc),
            epoch: 0,
            retired: 0,
        }
    }

    /// Its seat.
    pub fn seat(&self) -> Seat
        ensures { result ≡ self.now.seat }
    {
        self.seat
    }

    /// The calls that were made through it in the last epoch of which it knows, in their order.
    pub fn items(&self) -> &[Item]
        ensures { result.now ≡ self.now.items }
    {
        self.items.as_slice()
    }

    /// Counts the calls of epochs that were over at the last call of another pass, and frees `count` of them. It is for a pass through
    /// which no calls are made: each call does the same. Says whether some are still to be freed. Takes no lock.
    pub fn let_go(&mut self, other: &Pass<S>, count: usize) -> bool
        ensures { self.new ≡ held_in (max self.old.epoch other.now.epoch) self.old }
    {
        let latest = self.epoch.max(other.epoch);
        renew(
            &mut self.items,
            &mut self.spent,
            &mut self.retired,
            &mut self.epoch,
            latest,
        );
        let_go(&mut self.spent, count);
        !self.spent.is_empty()
    }
}

/// A pass for each of the 64 seats, out of a share of 64 parts. Fails only for want of memory.
#[tactic(auto, unfolding(crate::specs::Passes::new_passes))]
pub(crate) fn make_passes<S: Site>(alloc: Global, share: Share<S>) -> Result<Vec<Pass<S>>, Memory>
    requires { (share.parts ≡ 64) × (share.amount ≡ 0) }
    ensures { IfOk result (λ made. made.items ≡ new_passes 64) }
{
    let mut rest = share;
    let mut passes = Vec::with_capacity(alloc, 64)?;
    for number in 0..SEATS {
        let seat = Seat::new(number).unwrap();
        passes.push(Pass::new(alloc, seat, rest.split_off(1, 0)))?;
    }
    Ok(passes)
}
