//! What a change does to one entry of a live context: where it stood, and what is found now.

use acap_entries::{Label, Path, Row};
use acap_search::{BoxedHit, SortPlaces};
use std::marker::Model;

/// What is sent of an entry that a change touches, made ready for its notice.
#[derive(Drop)]
pub(crate) enum EntryOutcome {
    /// The search finds it no longer, or never did: the name under which it was sent.
    Gone(Label),
    /// The search finds it: where it stands now, and what is sent of it.
    Here(BoxedHit, Row),
}

/// What a change does to one entry of a live context: where it stood if it was found, and what is found now (RFC 2244 section 6.5).
/// All that takes memory has been made.
#[derive(Drop)]
pub(crate) struct EntryUpdate {
    pub(crate) places: SortPlaces,
    pub(crate) path: Path,
    pub(crate) news: EntryOutcome,
}

impl Model for EntryUpdate {
    ghost use Rattle.acap_views.specs.EntryOutcomes.{name_in, come_in, IsTold};
    ghost use Rattle.acap_views.specs.EntryUpdates.{EntryUpdate as Seen, standing, shift_code};

    ghost Value = { Seen };

    ghost coded = { shift_code };

    ghost view = { λ s. record {
      name = name_in s.news;
      old = standing s.path s.places;
      come = come_in s.news;
    } };

    ghost invariant = { λ s. IsTold s.news };
}
