//! `Delta`: what a change does to all contexts, made before it is committed.

use crate::entry_update::EntryUpdate;
use acap_entries::Sequence;
use std::alloc::Global;
use std::marker::Model;

/// What becomes of touched entries that a context looks at, as far as it is due.
pub(crate) type Shifts = Sequence<EntryUpdate>;

/// The same for each context of a seat, in the order of their names.
pub(crate) type SeatUpdates = Sequence<Shifts>;

/// What a change of the store comes to for the contexts of all seats, made before it is committed so that it can be done afterwards
/// without memory (RFC 2244 sections 3.3 and 6.5).
#[derive(Drop)]
pub struct Delta {
    pub(crate) seats: Sequence<SeatUpdates>,
    pub(crate) work: u64,
}

impl Model for Delta {
    ghost use Rattle.acap_views.specs.Preparing.{Prepared, prepared_code};

    ghost Value = { Prepared };

    ghost coded = { prepared_code };

    ghost view = { λ d. record { seats = d.seats; work = d.work } };
}

impl Delta {
    ghost use Rattle.std.specs.Prelude.{◌≡◌, []};

    /// What a change comes to that no context follows. Takes no memory.
    pub(crate) fn nothing(alloc: Global) -> Delta
        ensures seats { result.seats ≡ [] }
        ensures work { result.work ≡ 0 }
    {
        Delta {
            seats: Sequence::new(alloc),
            work: 0,
        }
    }

    /// How many entries were looked at for it: at most the touched ones in the scopes of live contexts, each once for each context.
    pub fn work(&self) -> u64
        ensures { result ≡ self.now.work }
    {
        self.work
    }
}
