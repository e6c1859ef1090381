//! A test of contexts that are opened, asked for their notices and drained by the calls that no program makes.

use crate::machine::seat;
use acap_commands::{Key, MakeContext, Test, Tolds};
use acap_entries::{
    ContextName, Copying, Dataset, Memory, Moment, NameFault, Sequence, Shared, UserName,
};
use acap_notices::{Batch, Ending};
use acap_search::{Hits, SearchSpec};
use acap_views::{ViewRefusal, Views};
use std::alloc::Global;

/// Whether the context `v` of the first seat has NOTIFY; at which seat an UPDATECONTEXT comes, and for which
/// names; and why it is refused, if it is. Else all that is sent is the last moment, for each name.
struct UpdateRow {
    notify: bool,
    seat: u8,
    names: &'static [&'static [u8]],
    refusal: Option<ViewRefusal>,
}

static ROWS: [UpdateRow; 6] = [
    UpdateRow {
        notify: true,
        seat: 0,
        names: &[b"v"],
        refusal: None,
    },
    UpdateRow {
        notify: true,
        seat: 0,
        names: &[b"v", b"v"],
        refusal: None,
    },
    UpdateRow {
        notify: true,
        seat: 0,
        names: &[],
        refusal: None,
    },
    UpdateRow {
        notify: true,
        seat: 0,
        names: &[b"v", b"none"],
        refusal: Some(ViewRefusal::NoContext),
    },
    UpdateRow {
        notify: true,
        seat: 1,
        names: &[b"v"],
        refusal: Some(ViewRefusal::NoContext),
    },
    UpdateRow {
        notify: false,
        seat: 0,
        names: &[b"v"],
        refusal: Some(ViewRefusal::NotNotify),
    },
];

// A name that isn't read fails as memory does: the rows have none.
fn read<T>(name: Result<T, NameFault>) -> Result<T, Memory> {
    name.map_err(|_| Memory)
}

// A search for all entries of a dataset.
fn sought(alloc: Global) -> Result<SearchSpec, Memory> {
    Ok(SearchSpec {
        dataset: read(Dataset::from_slice(alloc, b"/option/user/joe/"))?,
        depth: None,
        no_inherit: false,
        key: Key::one(Test::All),
        sort: None,
        returns: None,
    })
}

// Joe has the first seat, and the context of a search there that found nothing.
fn opened(alloc: Global, notify: bool) -> Result<Views, ViewRefusal> {
    let make = MakeContext {
        enumerate: true,
        notify,
        name: read(ContextName::read(alloc, b"v"))?,
    };
    let (joe, sought) = (read(UserName::read(alloc, b"joe"))?, sought(alloc)?);
    let (mut views, first) = (Views::new(alloc), seat(0));
    views.reserve_seat()?;
    views.take_seat(first, joe);
    views.open(first, make, sought, Hits::new(alloc), Moment::first())?;
    Ok(views)
}

// These names.
fn names_of(alloc: Global, texts: &[&[u8]]) -> Result<Vec<ContextName>, Memory> {
    let mut names = Vec::new(alloc);
    for text in texts {
        names.push(read(ContextName::read(alloc, *text))?)?;
    }
    Ok(names)
}

// What is sent: the last moment, for each name.
fn moments(alloc: Global, names: &[ContextName], last: Moment) -> Result<Tolds, Memory> {
    let mut batches = Sequence::new(alloc);
    for name in names {
        batches.push(Batch {
            context: name.copy()?,
            notices: Shared::none(),
            ending: Some(Ending::Upto(last)),
        })?;
    }
    Tolds::new(batches)
}

// Whether a row holds, and nothing is sent by a drain then.
fn is_told(alloc: Global, row: &UpdateRow) -> Result<bool, ViewRefusal> {
    let mut views = opened(alloc, row.notify)?;
    let names = names_of(alloc, row.names)?;
    let last = Moment::new(7).unwrap_or(Moment::first());
    let right = match views.update(seat(row.seat.min(63)), names.as_slice(), last) {
        Ok(tolds) => row.refusal.is_none() && tolds == moments(alloc, names.as_slice(), last)?,
        Err(refusal) => row.refusal == Some(refusal),
    };
    Ok(right && views.drain(seat(row.seat.min(63)))?.is_empty())
}

#[test]
fn tells_of_contexts(rt: HostRuntime) {
    for row in &ROWS {
        assert!(rt; is_told(rt.alloc(), row) == Ok(true));
    }
}
