//! Places that are given out again: a Leave that is owed there is asked before the next user enters.
use crate::calling::does;
use crate::calls::Act;
use crate::stage::{Play, Silent, is_true};
use acap_commands::Event;
use acap_entries::Moment;
use acap_locked::{Item, Pass, Served, Site};
use acap_task::{PassDesk, SeatLease};
use std::alloc::AllocGlobal;
use std::io;
use std::sync::Wait;
use std::sync::ledger::Ledger;

/// A place at which joe is to enter.
struct PlaceRow {
    /// Whether ann sits there.
    is_taken: bool,
    /// Whether a Leave is owed there.
    owes_leave: bool,
    /// The calls of the pass in the end, each by the first letter of its event.
    calls: &'static [u8],
}

/// Ann leaves before joe enters where that is owed. Where she stays he is refused, and where the Leave is refused again, since nobody
/// sits there, no session begins.
static ROWS: [PlaceRow; 4] = [
    PlaceRow {
        is_taken: false,
        owes_leave: false,
        calls: b"E",
    },
    PlaceRow {
        is_taken: true,
        owes_leave: true,
        calls: b"ELE",
    },
    PlaceRow {
        is_taken: true,
        owes_leave: false,
        calls: b"E",
    },
    PlaceRow {
        is_taken: false,
        owes_leave: true,
        calls: b"",
    },
];

// The first letter of an item's event.
fn letter(item: &Item) -> u8 {
    match item.event() {
        Event::Enter(_) => b'E',
        Event::Command(_) => b'C',
        Event::Drain => b'D',
        Event::Leave => b'L',
    }
}

// Whether these are the calls of a pass.
fn are_calls(items: &[Item], calls: &[u8]) -> bool {
    let alike = items
        .iter()
        .zip(calls)
        .all(|(item, call)| letter(item) == *call);
    alike && items.len() == calls.len()
}

// The pass of a place at which joe has asked to enter, if a session can begin there.
fn give_out<S: Site, L: Ledger, R: Wait + AllocGlobal>(
    rt: &R,
    served: &Served<S, L>,
    place: SeatLease<S>,
) -> Pass<S> {
    match PassDesk::begin(rt.alloc(), rt, served, &Silent, place, Moment::first()) {
        Ok(desk) => {
            let mut pass = desk.into_lease().pass;
            does(rt, served, &mut pass, Act::Enters(b"joe"));
            pass
        }
        Err(place) => place.pass,
    }
}

// At the last seat of a new machine, which can be closed then.
impl<R: Wait + AllocGlobal> Play<R> for PlaceRow {
    fn comes_true<S: Site, L: Ledger>(
        &self,
        rt: &R,
        served: Served<S, L>,
        passes: Vec<Pass<S>>,
    ) -> io::Result<bool> {
        let mut passes = passes;
        let Some(mut pass) = passes.pop() else {
            return Ok(false);
        };
        if self.is_taken {
            does(rt, &served, &mut pass, Act::Enters(b"ann"));
        }
        let owes_leave = self.owes_leave;
        let pass = give_out(rt, &served, SeatLease { pass, owes_leave });
        let made = are_calls(pass.items(), self.calls);
        passes.push(pass)?;
        Ok(made && served.close(passes).is_ok())
    }
}

#[test]
fn a_leave_that_is_owed_is_asked_before_the_next_user_enters(rt: HostRuntime) {
    for row in &ROWS {
        assert!(rt; is_true(&rt, row));
    }
}
