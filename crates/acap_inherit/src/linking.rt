//! The links that a change removes and adds, and the edits of the index.
ghost use Rattle.std.specs.Prelude.{◌≡◌, ◌≤◌, length, IfOk};
ghost use Rattle.acap_inherit.specs.Index as rule;
ghost use Rattle.acap_inherit.specs.Leaving.{links_in};

use crate::chains::base_of;
use crate::link::Link;
use acap_entries::{Boxed, Change, Copying, Dataset, Label, Memory, Ranked, Records, Whole};
use std::alloc::Global;

// A pair in a box.
fn box_link(alloc: Global, base: &[u8], heir: &Dataset) -> Result<Boxed<Link>, Memory>
    ensures { IfOk result (λ made. made ≡ record { base = base.now; heir = heir.now }) }
{
    let base = Label::from_slice(alloc, base)?;
    let heir = heir.copy()?;
    Boxed::new(alloc, Link { base, heir })
}

/// The pairs of the datasets whose management entries a change writes, as a store has them. Fails only for want of
/// memory.
pub(crate) fn links_written<R: Records>(
    records: &R,
    change: &Change,
) -> Result<Vec<Boxed<Link>>, Memory>
    ensures { IfOk result (λ links. links.items ≡ links_in change.now (R.store records.now)) }
{
    let alloc = change.deleted.allocator();
    let mut links = Vec::new(alloc);
    for (path, _) in change.writes.entries() {
        if path.name.as_slice().is_empty()
            && let Some(base) = base_of(records, path.dataset.as_slice())
        {
            links.push(box_link(alloc, base, &path.dataset)?)?;
        }
    }
    Ok(links)
}

/// Takes pairs out. Takes no memory.
pub(crate) fn take_all(links: &mut Ranked<Boxed<Link>>, mut taken: Vec<Boxed<Link>>)
    ensures links { links.new.0 ≡ rule.without_all taken.items links.old.0 }
    ensures room { links.old.1 ≤ links.new.1 }
{
    while let Some(link) = taken.pop() {
        let _ = links.take(&Whole { key: &link });
    }
}

/// Puts pairs in, in the room that there is. Takes no memory.
pub(crate) fn put_all(links: &mut Ranked<Boxed<Link>>, mut put: Vec<Boxed<Link>>)
    requires { length put.items ≤ links.old.1 }
    ensures { links.new.0 ≡ rule.with_all put.items links.old.0 }
{
    while let Some(link) = put.pop() {
        links.put(link);
    }
}
