//! All contexts follow a change: room first, and then, once it is committed, the updates that were prepared.
ghost use Rattle.std.specs.Prelude.{◌≡◌, OnOk, length, map as each};
ghost use Rattle.acap_views.specs.Followed as rule;
ghost use Rattle.acap_views.specs.Holds.{kept_in, space_in};
ghost use Rattle.acap_views.specs.Keeping.{occupant_in, seats_in};
ghost use Rattle.acap_views.specs.Listing.{bare, bare_seat};
ghost use Rattle.acap_views.specs.Preparing.{kept_after, context_after, contexts_after};
ghost use Rattle.acap_views.specs.Preparing.{occupant_after, seats_after, with_delta};

use crate::context_lists::ContextLists;
use crate::delta::{Delta, SeatUpdates, Shifts};
use crate::open_context::OpenContext;
use crate::seat_contexts::SeatContexts;
use crate::views::Views;
use acap_entries::{ContextName, Finger, Memory, Seat};
use std::alloc::Global;

// Brings what is kept of a context up to date, in the room that there is; with too many notices it is freed.
fn follow(held: &mut ContextLists, shifts: Shifts, enumerated: bool, finger: &mut Finger)
    requires { rule.HasRoomIn (length shifts) (kept_in held.old) (space_in held.old) }
    ensures { kept_in held.new ≡ kept_after enumerated shifts (kept_in held.old) }
{
    let is_kept = match held {
        ContextLists::Live(watch) => watch.follow(shifts.into_vec(), enumerated, finger),
        ContextLists::Snapshot(_) | ContextLists::Freed => true,
    };
    if !is_kept {
        *held = ContextLists::Freed;
    }
}

impl OpenContext {
    // Makes room for what becomes of `more` entries.
    fn reserve(&mut self, alloc: Global, more: usize) -> Result<(), Memory>
        ensures same { self.new.context ≡ self.old.context }
        ensures room { OnOk result (rule.HasRoomFor more self.new) }
    {
        if more == 0 {
            return Ok(());
        }
        match &mut self.held {
            ContextLists::Live(watch) => watch.reserve(alloc, more),
            ContextLists::Snapshot(_) | ContextLists::Freed => Ok(()),
        }
    }

    // Brings it up to date.
    fn follow(&mut self, shifts: Shifts, finger: &mut Finger)
        requires { rule.HasRoomFor (length shifts) self.old }
        ensures { self.new.context ≡ context_after shifts self.old.context }
    {
        follow(&mut self.held, shifts, self.enumerated, finger);
    }
}

// Makes room for what becomes of contexts, context by context.
fn reserve_all(
    alloc: Global,
    contexts: &mut Vec<(ContextName, OpenContext)>,
    turns: &[Shifts],
) -> Result<(), Memory>
    ensures same { each bare contexts.new.items ≡ each bare contexts.old.items }
    ensures room { OnOk result (rule.AreRoomy turns.now contexts.new.items) }
{
    let count = contexts.len().min(turns.len());
    for at in 0..count {
        let more = turns[at].len();
        contexts[at].1.reserve(alloc, more)?;
    }
    Ok(())
}

// Brings contexts up to date, context by context. Contexts of one search have an entry at the same place: the finger points there.
fn follow_all(
    contexts: &mut Vec<(ContextName, OpenContext)>,
    turns: SeatUpdates,
    finger: &mut Finger,
)
    requires { rule.AreRoomy turns contexts.old.items }
    ensures { each bare contexts.new.items ≡ contexts_after turns (each bare contexts.old.items) }
{
    let mut at = 0;
    for shifts in turns.into_vec() {
        if at >= contexts.len() {
            return;
        }
        contexts[at].1.follow(shifts, finger);
        at += 1;
    }
}

impl SeatContexts {
    // Makes room for what becomes of the contexts.
    fn reserve(&mut self, alloc: Global, turns: &[Shifts]) -> Result<(), Memory>
        ensures same { occupant_in self.new ≡ occupant_in self.old }
        ensures room { OnOk result (rule.IsRoomySeat turns.now self.new) }
    {
        reserve_all(alloc, &mut self.contexts, turns)
    }

    // Brings the contexts up to date.
    fn follow(&mut self, turns: SeatUpdates, finger: &mut Finger)
        requires { rule.IsRoomySeat turns self.old }
        ensures { occupant_in self.new ≡ occupant_after turns (occupant_in self.old) }
    {
        follow_all(&mut self.contexts, turns, finger);
    }
}

// Makes room at some seats.
fn reserve_seats(
    alloc: Global,
    seats: &mut Vec<(Seat, SeatContexts)>,
    turns: &[SeatUpdates],
) -> Result<(), Memory>
    ensures same { each bare_seat seats.new.items ≡ each bare_seat seats.old.items }
    ensures room { OnOk result (rule.AreRoomySeats turns.now seats.new.items) }
{
    let count = seats.len().min(turns.len());
    for at in 0..count {
        seats[at].1.reserve(alloc, turns[at].as_slice())?;
    }
    Ok(())
}

// Brings the contexts at some seats up to date.
fn follow_seats(seats: &mut Vec<(Seat, SeatContexts)>, turns: Vec<SeatUpdates>)
    requires { rule.AreRoomySeats turns.items seats.old.items }
    ensures { each bare_seat seats.new.items ≡ seats_after turns.items (each bare_seat seats.old.items) }
{
    let mut at = 0;
    let mut finger = Finger::first();
    for at_seat in turns {
        if at >= seats.len() {
            return;
        }
        seats[at].1.follow(at_seat, &mut finger);
        at += 1;
    }
}

impl Views {
    /// Makes room for what was prepared of a change (RFC 2244 section 3.3). No context changes, also where memory is refused.
    pub fn reserve(&mut self, delta: &Delta) -> Result<(), Memory>
        ensures same { seats_in self.new ≡ seats_in self.old }
        ensures room { OnOk result (rule.HasRoom delta.now self.new) }
    {
        reserve_seats(self.alloc, &mut self.seats, delta.seats.as_slice())
    }

    /// Brings all contexts up to date once a change is committed, as it was prepared, in the room that there is (RFC 2244 sections 3.3
    /// and 6.5). Takes no memory and cannot fail.
    pub fn on_change(&mut self, delta: Delta)
        requires { rule.HasRoom delta self.old }
        ensures { seats_in self.new ≡ with_delta delta (seats_in self.old) }
    {
        follow_seats(&mut self.seats, delta.seats.into_vec());
    }
}
