//! A planned change, with the entry that it writes first, and that entry's dataset, looked up once.
ghost use Rattle.std.specs.Prelude.{◌≡◌};

use crate::first_written::{FirstWritten, first_written};
use crate::planned_change::PlannedChange;
use crate::with_record::WithRecord;
use acap_entries::After;
use std::marker::Model;

/// A change that is about to be committed, with what is at hand of the entry that it writes first, and of the
/// dataset of that one. It is made where a context may look at a touched entry.
#[derive(Drop)]
pub(crate) struct ChangeView<'l, 's, 'r> {
    pub(crate) ahead: &'l PlannedChange<'s, 'r>,
    pub(crate) first: Option<FirstWritten<'s>>,
    pub(crate) beside: WithRecord<'s, After<'s>>,
}

impl<'l, 's, 'r> Model for ChangeView<'l, 's, 'r> {
    ghost use Rattle.acap_views.specs.PlannedChanges.{Planned, planned_code, IsLookout};

    ghost Value = { Planned };

    ghost coded = { planned_code };

    ghost view = { λ l. l.ahead.now };

    ghost invariant = { λ l. IsLookout l.ahead.now l.first l.beside };
}

// A dataset that a change writes, if there is one. Any is right: it only saves look-ups.
fn written_dataset<'a>(first: Option<FirstWritten<'a>>) -> &'a [u8] {
    match first {
        Some(written) => written.path.dataset.as_slice(),
        None => b"/",
    }
}

impl<'l, 's, 'r> ChangeView<'l, 's, 'r> {
    /// That of a change. Takes no memory.
    pub(crate) fn of(ahead: &'l PlannedChange<'s, 'r>) -> ChangeView<'l, 's, 'r>
        ensures { result ≡ ahead.now }
    {
        let first = first_written(ahead.after);
        let beside = WithRecord::of(ahead.after, written_dataset(first));
        ChangeView {
            ahead,
            first,
            beside,
        }
    }
}
