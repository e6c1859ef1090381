//! Stories, and what the client of a context holds at the end of each.
ghost use Rattle.std.specs.Prelude.{◌≡◌, ◌<◌};

use acap_entries::{
    Cell, ContextName, Item, Items, Label, Memory, Moment, Octets, Row, Seat, Sequence, Steps,
    UserName, Value,
};
use acap_examples::{Action, Occasion, Step, Story, StoryFault, shows};
use acap_rights::Realm;
use std::alloc::Global;
use std::marker::Brand;
use std::sync::ledger::{Blank, Ledger};

/// Who opens a session at which seat, and what is then sent at which.
type Lines = &'static [(u8, &'static [u8])];

/// Rows of one value each.
type Pairs = &'static [(&'static [u8], &'static [u8])];

/// Who opens a session at which seat, and what is then sent at which, to the UPDATECONTEXT of the context of
/// that name.
struct Tale {
    users: Lines,
    lines: Lines,
    seat: u8,
    name: &'static [u8],
}

/// One user, whose context has a SORT.
const SORTED: Tale = Tale {
    users: &[(0, b"joe")],
    lines: &[
        (
            0,
            b"A1 STORE (\"/option/~/a\" \"option.value\" \"1\") (\"/option/~/b\" \"option.value\" \"2\") (\"/option/~/c\" \"option.value\" \"3\")",
        ),
        (
            0,
            b"A2 SEARCH \"/option/~/\" MAKECONTEXT ENUMERATE NOTIFY \"v\" RETURN (\"option.value\") SORT (\"option.value\" \"i;ascii-numeric\") ALL",
        ),
        (0, b"A3 STORE (\"/option/~/a\" \"option.value\" \"9\")"),
        (0, b"A4 UPDATECONTEXT \"v\""),
    ],
    seat: 0,
    name: b"v",
};

/// A user who is given a right while he looks.
const RIGHTS: Tale = Tale {
    users: &[(0, b"a"), (1, b"b")],
    lines: &[
        (
            0,
            b"A1 STORE (\"/option/~/e\" \"option.value\" \"s\") (\"/option/~/f\" \"option.value\" \"t\")",
        ),
        (
            1,
            b"B1 STORE (\"/option/~/\" \"dataset.inherit\" \"/option/user/a/\") (\"/option/~/e\" \"option.k\" \"1\")",
        ),
        (
            1,
            b"B2 SEARCH \"/option/~/\" MAKECONTEXT ENUMERATE NOTIFY \"c\" RETURN (\"option.value\") NOT EQUAL \"entry\" \"i;octet\" \"\"",
        ),
        (0, b"A2 SETACL (\"/option/~/\") \"b\" \"r\""),
        (1, b"B3 UPDATECONTEXT \"c\""),
    ],
    seat: 1,
    name: b"c",
};

/// Entries that come, go and change in one STORE, and beside their context another, whose list isn't sent.
const MIXED_LINES: Lines = &[
    (
        0,
        b"A1 STORE (\"/option/~/b\" \"option.value\" \"2\") (\"/option/~/d\" \"option.value\" \"4\") (\"/option/~/f\" \"option.value\" \"6\")",
    ),
    (
        0,
        b"A2 SEARCH \"/option/~/\" MAKECONTEXT ENUMERATE NOTIFY \"v\" RETURN (\"option.value\") ALL",
    ),
    (
        0,
        b"A3 SEARCH \"/option/~/\" MAKECONTEXT NOTIFY \"n\" EQUAL \"option.value\" \"i;octet\" \"none\"",
    ),
    (
        0,
        b"A4 STORE (\"/option/~/b\" \"entry\" NIL) (\"/option/~/a\" \"option.value\" \"1\") (\"/option/~/f\" \"option.value\" \"9\")",
    ),
    (0, b"A5 UPDATECONTEXT \"v\" \"n\""),
];

const MIXED: Tale = Tale {
    users: &[(0, b"joe")],
    lines: MIXED_LINES,
    seat: 0,
    name: b"v",
};

const UNTOLD: Tale = Tale {
    users: &[(0, b"joe")],
    lines: MIXED_LINES,
    seat: 0,
    name: b"n",
};

/// The same with a context without positions.
const UNPLACED: Tale = Tale {
    users: &[(0, b"joe")],
    lines: &[
        (
            0,
            b"A1 STORE (\"/option/~/b\" \"option.value\" \"2\") (\"/option/~/d\" \"option.value\" \"4\") (\"/option/~/f\" \"option.value\" \"6\")",
        ),
        (
            0,
            b"A2 SEARCH \"/option/~/\" MAKECONTEXT NOTIFY \"v\" RETURN (\"option.value\") ALL",
        ),
        (
            0,
            b"A4 STORE (\"/option/~/b\" \"entry\" NIL) (\"/option/~/a\" \"option.value\" \"1\") (\"/option/~/f\" \"option.value\" \"9\")",
        ),
        (0, b"A5 UPDATECONTEXT \"v\""),
    ],
    seat: 0,
    name: b"v",
};

// The seat with that number; one over 63 is 63.
fn seat(number: u8) -> Seat {
    Seat::new(number.min(63)).unwrap()
}

// A step at a seat, where the clock shows the first moment.
fn step(number: u8, action: Action) -> Step {
    let occasion = Occasion {
        seat: seat(number),
        clock: Moment::first(),
        nonce: 0,
    };
    Step { occasion, action }
}

// A line as it is sent.
fn send(alloc: Global, line: &[u8]) -> Result<Action, Memory> {
    let mut octets = Vec::new(alloc);
    octets.extend_from_slice(line)?;
    octets.extend_from_slice(b"\r\n")?;
    Ok(Action::Piece(Octets::from_vec(octets)))
}

// All users open their sessions; then each line is sent, with a turn after it.
fn steps_of(alloc: Global, users: Lines, lines: Lines) -> Result<Vec<Step>, StoryFault> {
    let mut steps = Vec::new(alloc);
    for (number, name) in users {
        let user = UserName::read(alloc, *name).map_err(|_| StoryFault::Memory)?;
        let open = step(*number, Action::Open(user));
        steps.push(open).map_err(|_| StoryFault::Memory)?;
    }
    for (number, line) in lines {
        let piece = step(*number, send(alloc, *line)?);
        steps.push(piece).map_err(|_| StoryFault::Memory)?;
        let turn = step(*number, Action::Turn);
        steps.push(turn).map_err(|_| StoryFault::Memory)?;
    }
    Ok(steps)
}

// A story whose last step is the last turn.
fn story(alloc: Global, tale: &Tale) -> Result<Story, StoryFault> {
    let mut steps = steps_of(alloc, tale.users, tale.lines)?;
    let last = steps.pop().ok_or(StoryFault::Untold)?;
    Ok(Story {
        realm: Realm::new(Vec::new(alloc), Vec::new(alloc)),
        host: Octets::from_slice(alloc, b"localhost")?,
        steps,
        last,
        seat: seat(tale.seat),
        name: ContextName::read(alloc, tale.name).map_err(|_| StoryFault::Memory)?,
    })
}

fn rows_of(alloc: Global, told: Pairs) -> Result<Sequence<Row>, Memory> {
    let mut rows = Sequence::new(alloc);
    for (name, value) in told {
        let text = Value::from_slice(alloc, *value)?;
        let items = Items::one(alloc, Item::One(Cell::Single(text)))?;
        let name = Label::from_slice(alloc, *name)?;
        rows.push(Row { name, items })?;
    }
    Ok(rows)
}

// Whether the client of the context of that seat and name holds these rows at the end.
fn holds<L: Ledger>(
    alloc: Global,
    blank: Blank,
    tale: &Tale,
    told: Pairs,
) -> Result<bool, StoryFault>
    requires name { blank.name ≡ L.name }
    requires parts { blank.parts ≡ L.parts }
    requires some { 0 < L.parts }
{
    let mut steps = Steps::<L>::new(blank);
    let rows = rows_of(alloc, told)?;
    let story = story(alloc, tale)?;
    shows(alloc, story, rows.as_slice(), &mut steps)
}

/// Stories, what a client is said to hold at the end of each, and whether that is so.
type TaleRow = (&'static Tale, Pairs, Result<bool, StoryFault>);

const ROWS: [TaleRow; 9] = [
    (
        &SORTED,
        &[(b"b", b"2"), (b"c", b"3"), (b"a", b"9")],
        Ok(true),
    ),
    (
        &SORTED,
        &[(b"a", b"9"), (b"b", b"2"), (b"c", b"3")],
        Ok(false),
    ),
    (&RIGHTS, &[(b"e", b"s"), (b"f", b"t")], Ok(true)),
    (&RIGHTS, &[(b"e", b"s")], Ok(false)),
    (
        &MIXED,
        &[(b"a", b"1"), (b"d", b"4"), (b"f", b"9")],
        Ok(true),
    ),
    (
        &MIXED,
        &[(b"a", b"1"), (b"d", b"4"), (b"f", b"6")],
        Ok(false),
    ),
    (&UNTOLD, &[], Err(StoryFault::Unbegun)),
    (
        &UNPLACED,
        &[(b"d", b"4"), (b"f", b"9"), (b"a", b"1")],
        Ok(true),
    ),
    (
        &UNPLACED,
        &[(b"d", b"4"), (b"f", b"6"), (b"a", b"1")],
        Ok(false),
    ),
];

#[test]
fn clients_hold_what_stories_say(rt: HostRuntime) {
    for (tale, told, wanted) in ROWS {
        assert_eq!(rt;
            holds::<Brand>(rt.alloc(), Blank::new(1), tale, told),
            wanted
        );
    }
}
