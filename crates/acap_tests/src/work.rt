//! Tests of how many touched entries an event makes the machine look at for contexts.
ghost use Rattle.std.specs.Prelude.{◌≡◌, ◌<◌};

use crate::machine::{command_of, empty, enter, seat};
use acap_commands::{Event, Fault};
use acap_entries::{Memory, Moment, Steps};
use acap_machine::State;
use std::alloc::Global;
use std::marker::Brand;
use std::sync::ledger::{Blank, Ledger};

// How many touched entries are looked at for each of these: a context on a dataset that inherits ten entries;
// then two on a dataset of 1,000 entries, and one on another. The removal of an entry that never was touches nothing, but the
// dataset that it would be in comes to be.
const EVENTS: &str =
    r#"0 A1 STORE ("/option/~/b/0" "k" "1") ("/option/~/b/1" "k" "1") ("/option/~/b/2" "k" "1") ("/option/~/b/3" "k" "1") ("/option/~/b/4" "k" "1") ("/option/~/b/5" "k" "1") ("/option/~/b/6" "k" "1") ("/option/~/b/7" "k" "1") ("/option/~/b/8" "k" "1") ("/option/~/b/9" "k" "1")
0 A1 STORE ("/option/~/h/" "dataset.inherit" "/option/~/b/") ("/option/~/h/own" "k" "1")
0 A1 SEARCH "/option/~/h/" MAKECONTEXT ENUMERATE NOTIFY "v" RETURN ("k") ALL
1 A1 STORE ("/option/~/b/5" "k" "2")
12 A1 SETACL ("/option/~/b/") "ann" "r"
0 A1 FREECONTEXT "v"
0 A1 STORE ("/option/~/b/6" "k" "2")
0 A1 SEARCH "/option/~/d/" MAKECONTEXT ENUMERATE NOTIFY "v" RETURN ("k") SORT ("k" "i;octet") ALL
0 A1 SEARCH "/option/~/d/" MAKECONTEXT NOTIFY "w" RETURN ("*") ALL
0 A1 SEARCH "/option/~/" MAKECONTEXT NOTIFY "other" RETURN ("*") ALL
2 A1 STORE ("/option/~/d/500" "k" "2")
4 A1 STORE ("/option/~/d/5" "k" "0") ("/option/~/d/600" "entry" NIL)
0 A1 STORE ("/option/~/d/never" "entry" DEFAULT)
0 A1 UPDATECONTEXT "v" "w"
1 A1 STORE ("/option/~/other" "k" "1")
0 A1 STORE ("/option/~/never" "entry" DEFAULT)
1 A1 STORE ("/option/~/n/never" "entry" DEFAULT)
0 A1 STORE ("/option/~/n/never" "entry" DEFAULT)
0 drain"#;

/// The event of a text: `drain`, or a command's line.
pub(crate) fn event_of(alloc: Global, text: &[u8]) -> Result<Event, Fault> {
    if text == b"drain".as_slice() {
        return Ok(Event::Drain);
    }
    match command_of(alloc, text) {
        Ok(command) => Ok(Event::Command(command)),
        Err(_) => Err(Fault::Memory),
    }
}

// A STORE of an entry whose name is a number.
fn store_of(alloc: Global, number: usize) -> Result<Vec<u8>, Memory> {
    let mut text = Vec::new(alloc);
    text.extend_from_slice(b"A1 STORE (\"/option/~/d/")?;
    text.extend_from_slice(number.to_string(alloc)?.as_bytes())?;
    text.extend_from_slice(b"\" \"k\" \"1\")")?;
    Ok(text)
}

// Performs the event of a text at joe's seat: reports how many touched entries are looked at.
fn perform<L: Ledger>(
    alloc: Global,
    state: &mut State,
    text: &[u8],
    steps: &mut Steps<L>,
) -> Result<u64, Fault> {
    let event = event_of(alloc, text)?;
    let _reply = state.step(seat(0), event, Moment::first(), steps)?;
    Ok(state.work())
}

// Joe enters, and stores an entry for each number below 1,000.
fn fill<L: Ledger>(alloc: Global, state: &mut State, steps: &mut Steps<L>) -> Result<(), Fault> {
    let _hello = state.step(seat(0), enter(alloc)?, Moment::first(), steps)?;
    for number in 0..1_000usize {
        let text = store_of(alloc, number)?;
        let _count = perform(alloc, state, text.as_slice(), steps)?;
    }
    Ok(())
}

// Whether a number is printed so.
fn is_printed(alloc: Global, number: u64, text: &str) -> bool {
    match number.to_string(alloc) {
        Ok(digits) => digits.as_str() == text,
        Err(_) => false,
    }
}

// Whether the number of entries that a line's event looks at is right.
fn is_right<L: Ledger>(alloc: Global, state: &mut State, line: &str, steps: &mut Steps<L>) -> bool {
    let Some((count, text)) = line.split_once(' ') else {
        return false;
    };
    match perform(alloc, state, text.as_bytes(), steps) {
        Ok(number) => is_printed(alloc, number, count),
        Err(_) => false,
    }
}

// Whether that is so of each line.
fn are_right<L: Ledger>(alloc: Global, state: &mut State, steps: &mut Steps<L>) -> bool {
    for line in EVENTS.split('\n') {
        if !is_right(alloc, state, line, steps) {
            return false;
        }
    }
    true
}

fn is_filled_and_right<L: Ledger>(alloc: Global, blank: Blank) -> bool
    requires name { blank.name ≡ L.name }
    requires parts { blank.parts ≡ L.parts }
    requires some { 0 < L.parts }
{
    let mut steps = Steps::<L>::new(blank);
    let mut state = empty(alloc);
    match fill(alloc, &mut state, &mut steps) {
        Ok(()) => are_right(alloc, &mut state, &mut steps),
        Err(_) => false,
    }
}

// What is looked at for a change is what it touches, however much there is.
#[test]
fn looks_at_what_is_touched(rt: HostRuntime) {
    assert!(rt; is_filled_and_right::<Brand>(rt.alloc(), Blank::new(1)));
}
