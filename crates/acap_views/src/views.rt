//! `Views`: the contexts of all seats. Seats are taken and left, and those with pending notices are found.
ghost use Rattle.std.specs.Prelude.{◌≡◌, ◌≢◌, ◌<◌, ℕ, false, IsTrue, OnOk, OnErr, IfOk, map as each};
ghost use Rattle.std.specs.FinMap as table;
ghost use Rattle.std.specs.Int.{bit_at};
ghost use Rattle.std.specs.Option.{option_copied, option_map};
ghost use Rattle.acap_entries.specs.Orders.{octets_cmp};
ghost use Rattle.acap_ordmap.specs.Sorted.{InOrder};
ghost use Rattle.acap_views.specs.Keeping.{seats_in};
ghost use Rattle.acap_views.specs.Listing.{as_contexts, bare_seat};
ghost use Rattle.acap_views.specs.Seats as rule;
ghost use Rattle.acap_views.specs.Waiting.{waiting};

use crate::open_context::OpenContext;
use crate::seat_contexts::SeatContexts;
use crate::telling::any_waits;
use acap_entries::{
    ContextName, Memory, Seat, UserName, Whole, lookup, put_in_room, room_for_one, take_out,
};
use std::alloc::Global;
use std::marker::Model;

/// Who sits at which seat, and the contexts of each session (RFC 2244 sections 2 and 3.3).
#[derive(Drop)]
pub struct Views {
    pub(crate) alloc: Global,
    pub(crate) seats: Vec<(Seat, SeatContexts)>,
}

impl Model for Views {
    ghost use Rattle.std.specs.Prelude.{◌-◌, vec_len, vec_capacity};
    ghost use Rattle.std.specs.FinMap as table;
    ghost use Rattle.std.specs.Ordering.{nat_cmp};
    ghost use Rattle.acap_ordmap.specs.Sorted.{InOrder};
    ghost use Rattle.acap_views.specs.Keeping.{RoomySeats, roomy_seats_code};

    ghost Value = { RoomySeats };

    ghost coded = { roomy_seats_code };

    ghost view = { λ v. record {
      seats = table.from_sorted v.seats.items;
      spare = vec_capacity v.seats - vec_len v.seats;
    } };

    ghost invariant = { λ v. InOrder nat_cmp v.seats.items };
}

// The same users at the same seats, with equal contexts. Fails only for want of memory.
fn copy_each(
    alloc: Global,
    seats: &Vec<(Seat, SeatContexts)>,
) -> Result<Vec<(Seat, SeatContexts)>, Memory>
    ensures { IfOk result (λ made. each bare_seat made.items ≡ each bare_seat seats.now.items) }
{
    let mut made = Vec::with_capacity(alloc, seats.len())?;
    for entry in seats {
        made.push((entry.0, entry.1.copy()?))?;
    }
    Ok(made)
}

// The bits with one more set, or as they are.
fn with_bit(bits: u64, number: u8, set: bool) -> u64
    requires { number < 64 }
    ensures one { IsTrue set → bit_at result number ≡ 1 }
    ensures others { (n : ℕ) → n ≢ number → bit_at result n ≡ bit_at bits n }
    ensures none { set ≡ false → result ≡ bits }
{
    if set { bits | 1 << number } else { bits }
}

impl Views {
    /// Nobody sits anywhere. Takes no memory.
    pub fn new(alloc: Global) -> Views
        ensures { seats_in result ≡ table.empty }
    {
        Views {
            alloc,
            seats: Vec::new(alloc),
        }
    }

    /// Makes room for one user more (RFC 2244 section 2). Nobody's contexts change, also where memory is refused.
    pub fn reserve_seat(&mut self) -> Result<(), Memory>
        ensures same { seats_in self.new ≡ seats_in self.old }
        ensures room { OnOk result (0 < self.new.spare) }
    {
        room_for_one(&mut self.seats)
    }

    /// A user takes a seat, in the room that there is, and has no context there (RFC 2244 section 2). Takes no memory.
    pub fn take_seat(&mut self, seat: Seat, user: UserName)
        requires { 0 < self.old.spare }
        ensures { seats_in self.new ≡ rule.with_user (seats_in self.old) seat user }
    {
        let sitting = SeatContexts::new(self.alloc, user);
        put_in_room(&mut self.seats, seat, sitting);
    }

    /// Who sits at a seat leaves it, and takes all contexts along (RFC 2244 section 2). Takes no memory.
    pub fn leave(&mut self, seat: Seat)
        ensures { seats_in self.new ≡ rule.without_user (seats_in self.old) seat }
    {
        let _ = take_out(&mut self.seats, &Whole { key: &seat });
    }

    /// Who sits at a seat, if anybody does (RFC 2244 section 2). Takes no memory.
    pub fn user(&self, seat: Seat) -> Option<&UserName>
        ensures { option_copied result ≡ option_map (λ o. o.user) (table.get (seats_in self.now) seat) }
    {
        match self.sitting(seat) {
            Some(sitting) => Some(sitting.user()),
            None => None,
        }
    }

    /// Who sits at a seat, with the contexts of the session.
    pub(crate) fn sitting(&self, seat: Seat) -> Option<&SeatContexts>
        ensures { option_copied result ≡ table.get self.now.seats seat }
    {
        lookup(self.seats.as_slice(), &Whole { key: &seat })
    }

    /// The contexts at a seat, in the order of their names: none where nobody sits.
    pub(crate) fn contexts(&self, seat: Seat) -> &[(ContextName, OpenContext)]
        ensures order { InOrder octets_cmp result.now }
        ensures value { as_contexts result.now ≡ rule.contexts_at (seats_in self.now) seat }
    {
        match self.sitting(seat) {
            Some(sitting) => sitting.contexts(),
            None => &[],
        }
    }

    /// The same users at the same seats, with equal contexts (RFC 2244 section 3.3). Fails only for want of memory.
    pub fn copy(&self) -> Result<Views, Memory>
        ensures { IfOk result (λ made. seats_in made ≡ seats_in self.now) }
    {
        let seats = copy_each(self.alloc, &self.seats)?;
        Ok(Views {
            alloc: self.alloc,
            seats,
        })
    }

    /// At which seats a drain has something to send: a bit for each, the lowest for the first (RFC 2244 section 6.5). Takes no
    /// memory.
    pub fn waiting(&self) -> u64
        ensures { result ≡ waiting (seats_in self.now) }
    {
        let mut bits = 0u64;
        for entry in &self.seats {
            bits = with_bit(bits, entry.0.number(), any_waits(entry.1.contexts()));
        }
        bits
    }
}
