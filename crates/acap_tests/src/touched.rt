//! Tests of the list of all paths that a change touches: a program asks for those of one dataset.
ghost use Rattle.std.specs.Prelude.{◌≡◌, ◌<◌, OnOk};
ghost use Rattle.acap_inherit.specs.Index.{IsIndexOf};

use crate::world::World;
use crate::wrong::{Wrong, trouble_in};
use acap_entries::{
    Boxed, Change, Copying, Dataset, EntryName, Memory, Path, Paths, Record, RecordEdit, Steps,
    Tree, Writes,
};
use acap_inherit::Resolved;
use std::alloc::Global;
use std::marker::Brand;
use std::sync::ledger::{Blank, Ledger};

/// What is sent at a seat of joe's: the dataset `h` inherits from `b`.
static SENT: [&[u8]; 3] = [
    b"T STORE (\"/option/~/b/font\" \"option.value\" \"mono\")",
    b"T STORE (\"/option/~/h/\" \"dataset.inherit\" \"/option/user/joe/b/\")",
    b"T STORE (\"/option/~/h/size\" \"option.value\" \"9\")",
];

const HOME: &[u8] = b"/option/user/joe/";

const BASE: &[u8] = b"/option/user/joe/b/";

const HEIR: &[u8] = b"/option/user/joe/h/";

const MISSING: &[u8] = b"/option/user/joe/z/";

/// A dataset, and the name of an entry in it.
type Place = (&'static [u8], &'static [u8]);

/// Where a record without `dataset.inherit` is put, or one is removed, and the paths that this touches.
struct TouchRow {
    at: Place,
    puts: bool,
    touched: &'static [Place],
}

static TOUCHED: [TouchRow; 9] = [
    TouchRow {
        at: (BASE, b"font"),
        puts: true,
        touched: &[(BASE, b"font"), (HEIR, b"font")],
    },
    TouchRow {
        at: (BASE, b"size"),
        puts: true,
        touched: &[(BASE, b"size"), (HEIR, b"size")],
    },
    TouchRow {
        at: (HEIR, b"font"),
        puts: true,
        touched: &[(HEIR, b"font")],
    },
    TouchRow {
        at: (BASE, b"font"),
        puts: false,
        touched: &[(BASE, b"font"), (HEIR, b"font")],
    },
    TouchRow {
        at: (BASE, b"size"),
        puts: false,
        touched: &[],
    },
    TouchRow {
        at: (BASE, b""),
        puts: true,
        touched: &[
            (BASE, b""),
            (BASE, b"font"),
            (HEIR, b""),
            (HEIR, b"font"),
            (HEIR, b"size"),
        ],
    },
    TouchRow {
        at: (HEIR, b""),
        puts: true,
        touched: &[(HEIR, b""), (HEIR, b"font"), (HEIR, b"size")],
    },
    TouchRow {
        at: (MISSING, b"font"),
        puts: true,
        touched: &[],
    },
    TouchRow {
        at: (HOME, b"b"),
        puts: false,
        touched: &[(HOME, b"b")],
    },
];

// The path of a place.
fn path_of(alloc: Global, place: Place) -> Result<Path, Wrong> {
    Ok(Path {
        dataset: Dataset::from_slice(alloc, place.0)?,
        name: EntryName::read(alloc, place.1)?,
    })
}

// What puts an equal record.
fn put(alloc: Global, record: &Record) -> Result<RecordEdit, Memory> {
    Ok(RecordEdit::Put(Boxed::new(alloc, record.copy()?)?))
}

// The change that makes a tree's records in an empty one.
fn making(alloc: Global, tree: &Tree) -> Result<Change, Memory> {
    let mut writes = Writes::new(alloc);
    for (path, record) in tree.entries() {
        writes.set(path.copy()?, put(alloc, record)?)?;
    }
    Ok(Change {
        writes,
        moment: tree.last(),
        deleted: Paths::new(alloc),
    })
}

// The change of a row.
fn change_of(alloc: Global, tree: &Tree, row: &TouchRow) -> Result<Change, Wrong> {
    let edit = match tree.find(BASE, b"font") {
        Some(record) if row.puts => put(alloc, record)?,
        _ => RecordEdit::Remove,
    };
    let mut writes = Writes::new(alloc);
    writes.set(path_of(alloc, row.at)?, edit)?;
    Ok(Change {
        writes,
        moment: tree.last(),
        deleted: Paths::new(alloc),
    })
}

// Makes a change in a tree, and in the index of its heirs.
fn commit(tree: &mut Tree, index: &mut Resolved, change: Change) -> Result<(), Memory>
    requires { IsIndexOf tree.old.store.records index.old.0 }
    ensures { OnOk result (IsIndexOf tree.new.store.records index.new.0) }
{
    let prepared = index.prepare(tree, &change)?;
    index.reserve(&prepared)?;
    tree.reserve(&change)?;
    tree.commit(change);
    index.commit(prepared);
    Ok(())
}

// Whether that is the path of a place.
fn is_path(path: &Path, place: &Place) -> bool {
    path.dataset.as_slice() == place.0 && path.name.as_slice() == place.1
}

// Whether these are the paths of some places, in their order.
fn are_paths(paths: &Paths, places: &[Place]) -> bool {
    paths.len() == places.len()
        && paths
            .as_slice()
            .iter()
            .zip(places)
            .all(|(path, place)| is_path(path, place))
}

// Whether each change touches what it should.
fn are_touched(alloc: Global, tree: &Tree, index: &Resolved) -> Result<bool, Wrong>
    requires { IsIndexOf tree.now.store.records index.now.0 }
{
    for row in &TOUCHED {
        let change = change_of(alloc, tree, row)?;
        if !are_paths(&index.touched(tree, &change)?, row.touched) {
            return Ok(false);
        }
    }
    Ok(true)
}

// Whether all rows hold over the store that a change makes of none.
fn are_touched_after(alloc: Global, change: Change) -> Result<bool, Wrong> {
    let mut tree = Tree::new(alloc);
    let mut index = Resolved::new(alloc);
    commit(&mut tree, &mut index, change)?;
    are_touched(alloc, &tree, &index)
}

// Whether all rows hold over a store that these lines made.
fn are_right<L: Ledger>(alloc: Global, steps: &mut Steps<L>) -> Result<bool, Wrong> {
    let world = World::filled(alloc, &SENT, steps)?;
    let change = making(alloc, world.state().tree())?;
    are_touched_after(alloc, change)
}

fn trouble<L: Ledger>(alloc: Global, blank: Blank) -> Option<Wrong>
    requires name { blank.name ≡ L.name }
    requires parts { blank.parts ≡ L.parts }
    requires some { 0 < L.parts }
{
    let mut steps = Steps::<L>::new(blank);
    trouble_in(are_right(alloc, &mut steps))
}

#[test]
fn touches_paths(rt: HostRuntime) {
    assert_eq!(rt; trouble::<Brand>(rt.alloc(), Blank::new(1)), None);
}
