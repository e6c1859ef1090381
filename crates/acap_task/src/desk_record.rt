//! The calls that a desk had answered when its pass was given back.

use crate::bell::{Bell, Ringer};
use crate::count::count_up;
use crate::desk::Desk;
use crate::pass_desk::{PassDesk, SeatLease};
use crate::source::Source;
use crate::task::Over;
use crate::wire::Wire;
use acap_commands::{Event, Fault};
use acap_entries::Moment;
use acap_locked::{Answer, Item, Site};
use std::sync::Wait;
use std::sync::ledger::Ledger;

/// The record of a desk whose pass was given back: it reports what that desk reported. Each further call is a
/// fault.
#[derive(Drop)]
pub struct DeskRecord {
    /// The calls of the session that were answered, in their order.
    pub calls: Vec<Item>,
    /// How many were answered with a fault, up to the last number.
    pub faults: u64,
    /// Whether the last Leave was refused, so that the place that was given back owes one.
    pub owes_leave: bool,
}

impl Desk for DeskRecord {
    ghost use Rattle.acap_task.specs.Desks.{desk_told};

    ghost told = { λ d. desk_told d.calls.items d.faults };

    fn call(&mut self, _event: Event, _moment: Moment) -> Result<Answer, Fault> {
        self.faults = count_up(self.faults);
        Err(Fault::Memory)
    }
}

impl<'u, W, C, L, R, N, S, B> Over<'u, W, PassDesk<'_, C, L, R, N>, S, B>
where
    W: Wire,
    C: Site,
    L: Ledger,
    R: Wait,
    N: Ringer,
    S: Source,
    B: Bell,
{
    ghost use Rattle.std.specs.Prelude.{◌≡◌};

    /// The same end with the record of its desk, and the place that the desk had, for another session.
    pub fn into_record(self) -> (Over<'u, W, DeskRecord, S, B>, SeatLease<C>)
        ensures count { (result.0.end ≡ self.entry.end) × (result.0.polls ≡ self.entry.polls)
            × (result.0.turns ≡ self.entry.turns) }
        ensures parties { result.0.running.parties ≡ self.entry.running.parties }
        ensures same { (result.0.running.wire ≡ self.entry.running.wire)
            × (result.0.running.source ≡ self.entry.running.source)
            × (result.0.running.bell ≡ self.entry.running.bell)
            × (result.0.running.progress ≡ self.entry.running.progress) }
        ensures kept { (result.0.running.desk.calls ≡ self.entry.running.desk.calls)
            × (result.0.running.desk.faults ≡ self.entry.running.desk.faults) }
        ensures place { (result.1.pass ≡ self.entry.running.desk.pass)
            × (result.1.owes_leave ≡ self.entry.running.desk.owes_leave)
            × (result.0.running.desk.owes_leave ≡ self.entry.running.desk.owes_leave) }
    {
        let (running, place) = self.running.into_record();
        let over = Over {
            running,
            end: self.end,
            polls: self.polls,
            turns: self.turns,
        };
        (over, place)
    }
}
