//! The first entry that a change writes, before and after it: most changes write no other.
ghost use Rattle.std.specs.Prelude.{◌≡◌};
ghost use Rattle.std.specs.Option.{ForSome};
ghost use Rattle.acap_entries.specs.Leaving.{records_before, records_ahead};
ghost use Rattle.acap_views.specs.FirstWrites.{IsOfBoth};

use acap_entries::{After, Dataset, Path, Record, Records};

/// The entry that a change writes first, with the records that it has before the change and afterwards, if it has
/// one. Each context that looks at the entry asks for them.
#[derive(Clone, Copy)]
pub(crate) struct FirstWritten<'a> {
    pub(crate) path: &'a Path,
    pub(crate) before: Option<&'a Record>,
    pub(crate) after: Option<&'a Record>,
}

/// The entry that a change writes first, if it writes one. Takes no memory.
pub(crate) fn first_written<'a>(after: &'a After<'a>) -> Option<FirstWritten<'a>>
    ensures { ForSome result (IsOfBoth (records_before after.now) (records_ahead after.now)) }
{
    let (path, _) = after.writes.entries().first()?;
    let dataset = path.dataset.as_slice();
    let name = path.name.as_slice();
    Some(FirstWritten {
        path,
        before: after.tree.find(dataset, name),
        after: after.find(dataset, name),
    })
}

/// Whether it lies in a dataset. Either answer is right: rights that aren't made are looked up.
pub(crate) fn lies_in(first: Option<FirstWritten<'_>>, dataset: &Dataset) -> bool {
    match first {
        Some(written) => written.path.dataset == *dataset,
        None => false,
    }
}
