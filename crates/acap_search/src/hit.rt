//! A match that owns its path, its SORT terms and its row, as contexts keep it.
ghost use Rattle.std.specs.Prelude.{◌≡◌, ◌↔◌, IsTrue};

use crate::sort_term::SortPlaces;
use acap_entries::{Copying, Memory, Path, Row, Sequence};
use std::marker::Model;

/// An entry that a search found: where it is, where it stands for SORT, and what is printed of it (RFC 2244 section 6.4.1). It is
/// made by a search alone, or copied.
#[derive(Clone, Drop)]
pub struct Hit {
    pub(crate) path: Path,
    pub(crate) places: SortPlaces,
    pub(crate) row: Row,
}

/// What a search found, in order.
pub type Hits = Sequence<Hit>;

impl Model for Hit {
    ghost use Rattle.acap_search.specs.Matches.{Match, match_code};

    ghost Value = { Match };

    ghost coded = { match_code };

    ghost view = { λ h. record { path = h.path; places = h.places; row = h.row } };
}

// Whether two paths are equal.
fn is_same_path(path: &Path, other: &Path) -> bool
    ensures { IsTrue result ↔ (path.now ≡ other.now) }
{
    *path == *other
}

// Whether the places for each item are equal.
fn is_same_places(places: &SortPlaces, other: &SortPlaces) -> bool
    ensures { IsTrue result ↔ (places.now ≡ other.now) }
{
    *places == *other
}

impl Hit {
    /// Whether two of them are equal. Takes no memory.
    pub fn equals(&self, other: &Hit) -> bool
        ensures { IsTrue result ↔ (self.now ≡ other.now) }
    {
        is_same_path(&self.path, &other.path)
            && is_same_places(&self.places, &other.places)
            && self.row.equals(&other.row)
    }

    /// Where the entry is.
    pub fn path(&self) -> &Path
        ensures { result.now ≡ self.now.path }
    {
        &self.path
    }

    /// What is printed of it.
    pub fn row(&self) -> &Row
        ensures { result.now ≡ self.now.row }
    {
        &self.row
    }
}

impl Copying for Hit {
    fn copy(&self) -> Result<Hit, Memory> {
        self.clone()
    }
}
