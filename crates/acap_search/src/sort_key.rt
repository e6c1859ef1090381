//! The SORT terms of a match: one in place, or a list.
ghost use Rattle.std.specs.Prelude.{◌≡◌, IfOk};
ghost use Rattle.acap_search.specs.PathRefs.{places_on};

use crate::sort_term::{SortPlaces, SortTerm};
use acap_entries::Memory;
use std::alloc::Global;
use std::slice;

/// Where what is found stands for each item of SORT.
#[derive(Drop)]
pub(crate) enum SortKey {
    /// For its only item: that takes no memory of its own.
    Only(SortTerm),
    /// For each.
    Each(SortPlaces),
}

impl SortKey {
    /// The places.
    pub(crate) fn as_slice(&self) -> &[SortTerm]
        ensures { result.now ≡ places_on self.now }
    {
        match self {
            SortKey::Only(place) => slice::from_ref(place),
            SortKey::Each(places) => places.as_slice(),
        }
    }

    /// The places, in memory of their own. Fails only for want of memory.
    pub(crate) fn into_places(self, alloc: Global) -> Result<SortPlaces, Memory>
        ensures { IfOk result (λ places. places ≡ places_on self) }
    {
        match self {
            SortKey::Only(place) => Ok(SortPlaces::from_vec(Vec::from_array(alloc, [place])?)),
            SortKey::Each(places) => Ok(places),
        }
    }
}
