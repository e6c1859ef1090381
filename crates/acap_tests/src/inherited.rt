//! Tests of what the entries of a dataset inherit, and of whether a key wants one of them, apart from a
//! search: no program asks for that.
ghost use Rattle.std.specs.Prelude.{◌≡◌, ◌<◌};

use crate::dice::join;
use crate::machine::search_of;
use crate::world::World;
use crate::wrong::{Wrong, trouble_in};
use acap_commands::Key;
use acap_entries::{Dataset, EntryName, Steps, UserName, Value};
use acap_inherit::{Found, Lent, Resolved, chain, resolve};
use acap_machine::State;
use acap_search::{DatasetView, matches};
use std::alloc::Global;
use std::marker::Brand;
use std::sync::ledger::{Blank, Ledger};

/// What is sent at a seat of joe's.
static SENT: [&[u8]; 2] = [
    b"T STORE (\"/option/~/b/font\" \"option.value\" \"mono\" \"k\" (\"value\" (\"1\" \"2\")))",
    b"T STORE (\"/option/~/h/\" \"dataset.inherit\" \"/option/user/joe/b/\") (\"/option/~/h/size\" \"option.value\" \"9\")",
];

/// The dataset that inherits, and the one that it inherits from.
const CHAIN: [&[u8]; 2] = [b"/option/user/joe/h/", b"/option/user/joe/b/"];

/// A value: the dataset of the chain where it lies, and its strings.
type Wanted = Option<(usize, &'static [&'static [u8]])>;

/// An attribute of an entry of the dataset that inherits, what it resolves to, and what where nothing is
/// inherited.
static FOUND: [(&[u8], &[u8], Wanted, Wanted); 9] = [
    (b"font", b"option.value", Some((1, &[b"mono"])), None),
    (b"font", b"k", Some((1, &[b"1", b"2"])), None),
    (b"font", b"entry", Some((1, &[b"font"])), None),
    (b"font", b"dataset.inherit", None, None),
    (
        b"size",
        b"option.value",
        Some((0, &[b"9"])),
        Some((0, &[b"9"])),
    ),
    (
        b"size",
        b"entry",
        Some((0, &[b"size"])),
        Some((0, &[b"size"])),
    ),
    (b"size", b"k", None, None),
    (b"color", b"entry", None, None),
    (
        b"",
        b"dataset.inherit",
        Some((0, &[b"/option/user/joe/b/"])),
        Some((0, &[b"/option/user/joe/b/"])),
    ),
];

/// A key, an entry of the dataset that inherits, its position, and whether the key wants it for joe, and for
/// ann, who sees nothing.
struct MatchRow {
    key: &'static [u8],
    name: &'static [u8],
    place: Option<u32>,
    joes: bool,
    anns: bool,
}

static MATCHED: [MatchRow; 9] = [
    MatchRow {
        key: b"ALL",
        name: b"font",
        place: None,
        joes: true,
        anns: true,
    },
    MatchRow {
        key: b"EQUAL \"option.value\" \"i;octet\" \"mono\"",
        name: b"font",
        place: None,
        joes: true,
        anns: false,
    },
    MatchRow {
        key: b"EQUAL \"option.value\" \"i;octet\" \"mono\"",
        name: b"size",
        place: None,
        joes: false,
        anns: false,
    },
    MatchRow {
        key: b"NOT EQUAL \"option.value\" \"i;octet\" \"mono\"",
        name: b"size",
        place: None,
        joes: true,
        anns: true,
    },
    MatchRow {
        key: b"PREFIX \"k\" \"i;octet\" \"2\"",
        name: b"font",
        place: None,
        joes: true,
        anns: false,
    },
    MatchRow {
        key: b"AND EQUAL \"k\" \"i;octet\" NIL SUBSTRING \"entry\" \"i;octet\" \"iz\"",
        name: b"size",
        place: None,
        joes: true,
        anns: false,
    },
    MatchRow {
        key: b"RANGE 2 3 \"19700101000000\"",
        name: b"font",
        place: Some(2),
        joes: true,
        anns: true,
    },
    MatchRow {
        key: b"RANGE 2 3 \"19700101000000\"",
        name: b"font",
        place: Some(4),
        joes: false,
        anns: false,
    },
    MatchRow {
        key: b"RANGE 2 3 \"19700101000000\"",
        name: b"font",
        place: None,
        joes: false,
        anns: false,
    },
];

// Whether that is the one string.
fn is_one(strings: &[&[u8]], text: &[u8]) -> bool {
    match strings {
        [string] => *string == text,
        _ => false,
    }
}

// Whether these are the strings of a list.
fn are_all(strings: &[&[u8]], texts: &[Value]) -> bool {
    let same = |pair: (&Value, &&[u8])| pair.0.as_slice() == *pair.1;
    texts.len() == strings.len() && texts.iter().zip(strings).all(same)
}

// Whether these are the strings of a value.
fn has_strings(value: &Lent<'_>, strings: &[&[u8]]) -> bool {
    match value {
        Lent::Name(text) => is_one(strings, text),
        Lent::Single(text) => is_one(strings, text.as_slice()),
        Lent::Multi(texts) => are_all(strings, texts.as_slice()),
        Lent::Stamp(digits) => is_one(strings, digits.as_slice()),
    }
}

// Whether that is what an attribute was to resolve to.
fn is_found(found: Found<'_>, wanted: Wanted) -> bool {
    match (found, wanted) {
        (Found::Nil, None) => true,
        (Found::At { dataset, value }, Some((place, strings))) => {
            let there = match CHAIN.get(place) {
                Some(name) => *name == dataset,
                None => false,
            };
            there && has_strings(&value, strings)
        }
        _ => false,
    }
}

// Whether each attribute resolves to what it should, by both calls, along the chain that is there.
fn are_found(alloc: Global, state: &State) -> Result<bool, Wrong> {
    let heir = Dataset::from_slice(alloc, CHAIN[0])?;
    let tree = state.tree();
    let index = Resolved::new(alloc);
    for (name, attribute, wanted, own) in &FOUND {
        let found = resolve(tree, &heir, *name, *attribute);
        let again = index.get(tree, &heir, false, *name, *attribute);
        let alone = index.get(tree, &heir, true, *name, *attribute);
        if !(is_found(found, *wanted) && is_found(again, *wanted) && is_found(alone, *own)) {
            return Ok(false);
        }
    }
    Ok(chain(tree, &heir).names() == CHAIN.as_slice())
}

// Who looks, and at which entry of which dataset.
#[derive(Drop)]
struct Look {
    user: UserName,
    dataset: Dataset,
    name: EntryName,
}

// Whether a key wants the entry.
fn wants<'a, L: Ledger>(
    state: &'a State,
    look: &'a Look,
    key: &Key,
    place: Option<u32>,
    steps: &mut Steps<L>,
) -> bool {
    let tree = state.tree();
    let by = DatasetView {
        records: tree,
        realm: state.realm(),
        user: &look.user,
        dataset: &look.dataset,
        chain: chain(tree, &look.dataset),
    };
    matches(&by, &look.name, key, place, steps)
}

// Whether the key of a row wants its entry for a user.
fn is_wanted<L: Ledger>(
    alloc: Global,
    state: &State,
    user: &[u8],
    row: &MatchRow,
    steps: &mut Steps<L>,
) -> Result<bool, Wrong> {
    let look = Look {
        user: UserName::read(alloc, user)?,
        dataset: Dataset::from_slice(alloc, CHAIN[0])?,
        name: EntryName::read(alloc, row.name)?,
    };
    let line = join(alloc, &[b"T SEARCH \"/option/~/h/\" ", row.key])?;
    let search = search_of(alloc, line.as_slice())?;
    Ok(wants(state, &look, &search.get().key, row.place, steps))
}

// Whether each key wants what it should.
fn are_wanted<L: Ledger>(
    alloc: Global,
    state: &State,
    steps: &mut Steps<L>,
) -> Result<bool, Wrong> {
    for row in &MATCHED {
        let joes = is_wanted(alloc, state, b"joe", row, steps)?;
        let anns = is_wanted(alloc, state, b"ann", row, steps)?;
        if joes != row.joes || anns != row.anns {
            return Ok(false);
        }
    }
    Ok(true)
}

// Whether all rows hold over a machine to which these lines were sent.
fn are_right<L: Ledger>(alloc: Global, steps: &mut Steps<L>) -> Result<bool, Wrong> {
    let world = World::filled(alloc, &SENT, steps)?;
    let state = world.state();
    Ok(are_found(alloc, state)? && are_wanted(alloc, state, steps)?)
}

fn trouble<L: Ledger>(alloc: Global, blank: Blank) -> Option<Wrong>
    requires name { blank.name ≡ L.name }
    requires parts { blank.parts ≡ L.parts }
    requires some { 0 < L.parts }
{
    let mut steps = Steps::<L>::new(blank);
    trouble_in(are_right(alloc, &mut steps))
}

#[test]
fn inherits_entries(rt: HostRuntime) {
    assert_eq!(rt; trouble::<Brand>(rt.alloc(), Blank::new(1)), None);
}
