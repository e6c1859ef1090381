//! Tests of values that have several owners: who they are, as the count shows, and that none of them sees
//! what is stored later. No contract speaks of owners.
ghost use Rattle.std.specs.Prelude.{◌≡◌, ◌<◌};

use crate::machine::{empty, enter, seat};
use crate::work::event_of;
use acap_commands::{Fault, Reply};
use acap_entries::{Cell, Moment, Steps};
use acap_grammar::render_said;
use acap_locked::{Call, SharedCall};
use acap_machine::State;
use bytes::Bytes;
use std::alloc::Global;
use std::marker::Brand;
use std::sync::ledger::{Blank, Ledger};

/// An event of joe's, and whether the stored value then has other owners than the store: while the call, its
/// event and reply, is held as a history holds it, and once it is dropped.
struct OwnersRow {
    event: &'static [u8],
    held: bool,
    dropped: bool,
}

/// The value is `mono`, of `option.value` in joe's font.
const OWNERS: [OwnersRow; 10] = [
    // The command has what it stores.
    OwnersRow {
        event: b"A1 STORE (\"/option/~/font\" \"option.value\" \"mono\")",
        held: true,
        dropped: false,
    },
    // A reply has its rows.
    OwnersRow {
        event: b"A1 SEARCH \"/option/~/\" RETURN (\"option.value\") ALL",
        held: true,
        dropped: false,
    },
    OwnersRow {
        event: b"A1 SEARCH \"/option/~/\" RETURN (\"option.value*\") ALL",
        held: true,
        dropped: false,
    },
    OwnersRow {
        event: b"A1 SEARCH \"/option/~/\" RETURN (\"entry\") SORT (\"option.value\" \"i;octet\") ALL",
        held: false,
        dropped: false,
    },
    // A context has its hits.
    OwnersRow {
        event: b"A1 SEARCH \"/option/~/\" MAKECONTEXT \"v\" RETURN (\"option.value\") ALL",
        held: true,
        dropped: true,
    },
    OwnersRow {
        event: b"A1 FREECONTEXT \"v\"",
        held: false,
        dropped: false,
    },
    OwnersRow {
        event: b"A1 SEARCH \"/option/~/\" MAKECONTEXT NOTIFY \"v\" RETURN (\"option.value\") EQUAL \"k\" \"i;octet\" \"1\"",
        held: false,
        dropped: false,
    },
    OwnersRow {
        event: b"A1 STORE (\"/option/~/font\" \"k\" \"1\")",
        held: true,
        dropped: true,
    },
    // Here the notice alone has it that is of the hit.
    OwnersRow {
        event: b"A1 STORE (\"/option/~/font\" \"k\" \"2\")",
        held: true,
        dropped: true,
    },
    OwnersRow {
        event: b"drain",
        held: true,
        dropped: false,
    },
];

/// What is sent at two seats of joe's; the reply to the second is printed after the third is answered.
const LATE: [(u8, &[u8]); 3] = [
    (
        0,
        b"A1 STORE (\"/option/~/font\" \"option.value\" \"mono\")",
    ),
    (0, b"A2 SEARCH \"/option/~/\" RETURN (\"option.value\") ALL"),
    (
        1,
        b"B1 STORE (\"/option/~/font\" \"option.value\" \"serif\")",
    ),
];

const PRINTED: &[u8] =
    b"A2 ENTRY \"font\" \"mono\"\r\nA2 MODTIME \"19700101000000000000\"\r\nA2 OK \"SEARCH done\"\r\n";

// What the clock shows.
fn zero() -> Moment {
    Moment::new(0).unwrap_or(Moment::first())
}

// Whether the stored value has other owners than the store, if it is `mono`.
fn is_shared(state: &State) -> Option<bool> {
    let record = state.tree().find(b"/option/user/joe/", b"font")?;
    let Some(Cell::Single(value)) = record.cells.find(b"option.value") else {
        return None;
    };
    let octets: &Bytes = value.shared();
    if octets.as_slice() == b"mono".as_slice() {
        Some(!octets.is_unique())
    } else {
        None
    }
}

// Whether a row holds.
fn has_owners<L: Ledger>(
    alloc: Global,
    state: &mut State,
    row: &OwnersRow,
    steps: &mut Steps<L>,
) -> Result<bool, Fault> {
    let event = event_of(alloc, row.event)?;
    let ready = state.ready(seat(0), &event, zero(), steps)?;
    let reply = state.apply(ready);
    let call = SharedCall::new(
        alloc,
        Call {
            event,
            moment: zero(),
            reply,
        },
    )?;
    let held = is_shared(state) == Some(row.held);
    drop(call);
    Ok(held && is_shared(state) == Some(row.dropped))
}

// Whether each row holds.
fn have_owners<L: Ledger>(
    alloc: Global,
    state: &mut State,
    steps: &mut Steps<L>,
) -> Result<bool, Fault> {
    let _hello = state.step(seat(0), enter(alloc)?, zero(), steps)?;
    for row in &OWNERS {
        if !has_owners(alloc, state, row, steps)? {
            return Ok(false);
        }
    }
    Ok(true)
}

// What is answered to a line of a seat.
fn answer<L: Ledger>(
    alloc: Global,
    state: &mut State,
    sent: (u8, &[u8]),
    steps: &mut Steps<L>,
) -> Result<Reply, Fault>
    requires { sent.0 < 64 }
{
    let event = event_of(alloc, sent.1)?;
    state.step(seat(sent.0), event, zero(), steps)
}

// Stores what a line of a seat says, whatever is answered.
fn store<L: Ledger>(
    alloc: Global,
    state: &mut State,
    sent: (u8, &[u8]),
    steps: &mut Steps<L>,
) -> Result<(), Fault>
    requires { sent.0 < 64 }
{
    let _stored = answer(alloc, state, sent, steps)?;
    Ok(())
}

// Users enter at the first two seats.
fn enter_both<L: Ledger>(
    alloc: Global,
    state: &mut State,
    steps: &mut Steps<L>,
) -> Result<(), Fault> {
    for number in 0..2u8 {
        let _hello = state.step(seat(number), enter(alloc)?, zero(), steps)?;
    }
    Ok(())
}

// What is printed of a reply.
fn print_reply(alloc: Global, reply: &Reply) -> Result<Vec<u8>, Fault> {
    let mut out = Vec::new(alloc);
    render_said(Some(b"A2"), &reply.said, &mut out)?;
    Ok(out)
}

// What the late reply prints: it is printed once its value was stored anew.
fn print_late<L: Ledger>(
    alloc: Global,
    state: &mut State,
    steps: &mut Steps<L>,
) -> Result<Vec<u8>, Fault> {
    let [first, second, third] = LATE;
    enter_both(alloc, state, steps)?;
    store(alloc, state, first, steps)?;
    let late = answer(alloc, state, second, steps)?;
    match store(alloc, state, third, steps) {
        Ok(()) => print_reply(alloc, &late),
        Err(fault) => Err(fault),
    }
}

fn are_right<L: Ledger>(alloc: Global, blank: Blank) -> bool
    requires name { blank.name ≡ L.name }
    requires parts { blank.parts ≡ L.parts }
    requires some { 0 < L.parts }
{
    let mut steps = Steps::<L>::new(blank);
    let mut state = empty(alloc);
    matches!(have_owners(alloc, &mut state, &mut steps), Ok(true))
}

fn is_old<L: Ledger>(alloc: Global, blank: Blank) -> bool
    requires name { blank.name ≡ L.name }
    requires parts { blank.parts ≡ L.parts }
    requires some { 0 < L.parts }
{
    let mut steps = Steps::<L>::new(blank);
    let mut state = empty(alloc);
    match print_late(alloc, &mut state, &mut steps) {
        Ok(out) => out.as_slice() == PRINTED,
        Err(_) => false,
    }
}

// Who gets a value of the store has it by its count, until it is dropped.
#[test]
fn counts_owners(rt: HostRuntime) {
    assert!(rt; are_right::<Brand>(rt.alloc(), Blank::new(1)));
}

// A reply that is printed late prints what was found.
#[test]
fn prints_the_old_value(rt: HostRuntime) {
    assert!(rt; is_old::<Brand>(rt.alloc(), Blank::new(1)));
}
