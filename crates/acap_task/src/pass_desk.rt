//! `PassDesk`: a desk that calls a book behind its lock; `SeatLease`: what it leaves to the next session.
ghost use Rattle.std.specs.Prelude.{◌≡◌, ◌<◌, ◌++◌, ◌∷◌, [], IfOk, OnErr, OnOk, vec_len, vec_capacity};
ghost use Rattle.acap_task.specs.Desks.{EndsAlike, HasCalled, HasLeft};

use crate::bell::Ringer;
use crate::count::count_up;
use crate::desk::Desk;
use acap_commands::{Event, Fault};
use acap_entries::Moment;
use acap_locked::{Answer, Item, Pass, Served, Site};
use std::alloc::Global;
use std::sync::Wait;
use std::sync::ledger::Ledger;

/// A pass between two sessions, and the Leave that it owes: where the last one was refused, its user still
/// sits there.
#[derive(Drop)]
pub struct SeatLease<S: Site> {
    /// The pass.
    pub pass: Pass<S>,
    /// Whether Leave is to be asked before the next session.
    pub owes_leave: bool,
}

/// A desk that calls a book behind its lock with a pass (RFC 2244 section 2), and keeps what it was answered.
/// Of this record and the pass's items the shorter is how the other ends: the pass lets go of calls of older
/// epochs, and has those of earlier sessions.
#[derive(Drop)]
pub struct PassDesk<'a, S: Site, L: Ledger, R: Wait, N: Ringer> {
    rt: &'a R,
    served: &'a Served<S, L>,
    ringer: &'a N,
    /// The pass.
    pub pass: Pass<S>,
    /// The calls of the session that were answered, in their order.
    pub calls: Vec<Item>,
    /// How many were answered with a fault, up to the last number.
    pub faults: u64,
    /// Whether the last Leave was refused.
    pub owes_leave: bool,
    ghost ends: { ∥ EndsAlike calls.items pass.items ∥₁ },
}

// Puts an item into room for it.
fn push_in_room(items: &mut Vec<Item>, item: Item)
    requires { vec_len items.old < vec_capacity items.old }
    ensures { items.new.items ≡ items.old.items ++ item ∷ [] }
{
    items.push(item).unwrap();
}

// One call, which is kept in the record.
fn call_with<S: Site, L: Ledger, R: Wait>(
    rt: &R,
    served: &Served<S, L>,
    pass: &mut Pass<S>,
    calls: &mut Vec<Item>,
    event: Event,
    moment: Moment,
) -> Result<Answer, Fault>
    ensures ok { IfOk result (λ answer. HasCalled event moment answer.reply pass.old.items calls.old.items
        pass.new.items calls.new.items) }
    ensures err { OnErr result ((pass.new ≡ pass.old) × (calls.new.items ≡ calls.old.items)) }
    ensures seat { pass.new.seat ≡ pass.old.seat }
{
    calls.reserve(1)?;
    let mut answer = served.call(rt, pass, event, moment)?;
    match answer.kept.take() {
        Some(item) => push_in_room(calls, item),
        None => {}
    }
    Ok(answer)
}

// A Leave that is owed.
fn ask_leave<S: Site, L: Ledger, R: Wait, N: Ringer>(
    rt: &R,
    served: &Served<S, L>,
    ringer: &N,
    pass: &mut Pass<S>,
    now: Moment,
) -> Result<(), Fault>
    ensures ok { OnOk result (HasLeft now pass.old pass.new) }
    ensures err { OnErr result (pass.new ≡ pass.old) }
    ensures seat { pass.new.seat ≡ pass.old.seat }
{
    let answer = served.call(rt, pass, Event::Leave, now)?;
    ringer.ring(answer.rings);
    Ok(())
}

impl<'a, S: Site, L: Ledger, R: Wait, N: Ringer> PassDesk<'a, S, L, R, N> {
    ghost use Rattle.std.specs.Prelude.{◌≡◌, [], false, true, IfOk, IfErr};
    ghost use Rattle.acap_task.specs.Desks.{HasLeft};

    /// A desk that has made no call. Takes no memory.
    pub fn new(
        alloc: Global,
        rt: &'a R,
        served: &'a Served<S, L>,
        ringer: &'a N,
        pass: Pass<S>,
    ) -> PassDesk<'a, S, L, R, N>
        ensures { (result.calls.items ≡ []) × (result.faults ≡ 0) × (result.pass ≡ pass)
            × (result.owes_leave ≡ false) }
    {
        PassDesk {
            rt,
            served,
            ringer,
            pass,
            calls: Vec::new(alloc),
            faults: 0,
            owes_leave: false,
        }
    }

    /// A desk at a place that is given out again. Where the last Leave there was refused, it is asked first,
    /// and is no call of the desk; refused again, the place comes back as it was. It may wait for the lock.
    pub fn begin(
        alloc: Global,
        rt: &'a R,
        served: &'a Served<S, L>,
        ringer: &'a N,
        place: SeatLease<S>,
        now: Moment,
    ) -> Result<PassDesk<'a, S, L, R, N>, SeatLease<S>>
        ensures ok { IfOk result (λ desk. (desk.calls.items ≡ []) × (desk.faults ≡ 0)
            × (desk.owes_leave ≡ false)) }
        ensures free { IfOk result (λ desk. place.owes_leave ≡ false → desk.pass ≡ place.pass) }
        ensures seat { IfOk result (λ desk. desk.pass.seat ≡ place.pass.seat) }
        ensures left { IfOk result (λ desk. place.owes_leave ≡ true → HasLeft now place.pass desk.pass) }
        ensures err { IfErr result (λ kept. kept ≡ place) }
    {
        let SeatLease { pass, owes_leave } = place;
        let mut pass = pass;
        if owes_leave && ask_leave(rt, served, ringer, &mut pass, now).is_err() {
            return Err(SeatLease { pass, owes_leave });
        }
        Ok(PassDesk::new(alloc, rt, served, ringer, pass))
    }

    /// The place, for another session.
    pub fn into_lease(self) -> SeatLease<S>
        ensures { (result.pass ≡ self.entry.pass) × (result.owes_leave ≡ self.entry.owes_leave) }
    {
        SeatLease {
            pass: self.pass,
            owes_leave: self.owes_leave,
        }
    }
}

impl<S: Site, L: Ledger, R: Wait, N: Ringer> Desk for PassDesk<'_, S, L, R, N> {
    ghost use Rattle.std.specs.Prelude.{◌≡◌, IfOk, OnErr};
    ghost use Rattle.acap_task.specs.Desks.{HasCalled, desk_told, owes_after};
    ghost use Rattle.acap_task.specs.Told.{after_call};

    ghost told = { λ d. desk_told d.calls.items d.faults };

    ghost seat = { λ d. d.pass.seat };

    fn call(&mut self, event: Event, moment: Moment) -> Result<Answer, Fault>
        ensures told { desk_told self.new.calls.items self.new.faults
            ≡ after_call (desk_told self.old.calls.items self.old.faults) event moment result }
        ensures ok { IfOk result (λ answer. HasCalled event moment answer.reply self.old.pass.items
            self.old.calls.items self.new.pass.items self.new.calls.items) }
        ensures err { OnErr result
            ((self.new.pass ≡ self.old.pass) × (self.new.calls.items ≡ self.old.calls.items)) }
        ensures seat { self.new.pass.seat ≡ self.old.pass.seat }
        ensures owes { self.new.owes_leave ≡ owes_after event result self.old.owes_leave }
    {
        let leaves = matches!(event, Event::Leave);
        let outcome = call_with(
            self.rt,
            self.served,
            &mut self.pass,
            &mut self.calls,
            event,
            moment,
        );
        if leaves {
            self.owes_leave = outcome.is_err();
        }
        match &outcome {
            Ok(answer) => self.ringer.ring(answer.rings),
            Err(_) => self.faults = count_up(self.faults),
        }
        outcome
    }
}
