//! Hits in boxes of their own, and their order by SORT and name: what the list of a live context is made of.
ghost use Rattle.std.specs.Prelude.{◌≡◌, [], IfOk};
ghost use Rattle.std.specs.Cmp.{partial_equiv_from_equiv, partial_order_from_total};
ghost use Rattle.std.specs.Ordering.{as_partial_cmp, eq_by_cmp};
ghost use Rattle.std.proofs.Common.{refl};
ghost use Rattle.std.proofs.lemmas.Cmp.{eq_by_cmp_equiv};
ghost use Rattle.acap_search.specs.Totals.{match_total};
ghost use Rattle.acap_search.specs.Matches.{match_cmp, standing_cmp};

use crate::hit::Hit;
use crate::ordering::places_order;
use crate::sort_term::SortPlaces;
use acap_entries::{Boxed, Copying, Memory, Path, Probe};
use std::alloc::Global;
use std::cmp::Ordering;
use std::marker::Model;

/// A hit in memory of its own. Ordered by where it stands for SORT, and then by its full path in octets (RFC 2244 section 6.4.1),
/// so that those which differ in what is printed of them alone tie.
#[derive(Clone, Drop)]
pub struct BoxedHit {
    hit: Boxed<Hit>,
}

impl Model for BoxedHit {
    ghost use Rattle.acap_search.specs.Matches.{Match, match_code};

    ghost Value = { Match };

    ghost coded = { match_code };

    ghost view = { λ p. p.hit };
}

// How two places and paths compare: by the places, and then by the full paths in octets.
fn order(places: &SortPlaces, path: &Path, other: &Hit) -> Ordering
    ensures { result ≡ standing_cmp places.now path.now other.now }
{
    match places_order(places.as_slice(), other.places.as_slice()) {
        Ordering::Equal => path.cmp_full(&other.path),
        unequal => unequal,
    }
}

impl BoxedHit {
    /// A hit, in a box. Fails only for want of memory.
    pub fn new(alloc: Global, hit: Hit) -> Result<BoxedHit, Memory>
        ensures { IfOk result (λ made. made ≡ hit) }
    {
        let hit = Boxed::new(alloc, hit)?;
        Ok(BoxedHit { hit })
    }

    /// The hit.
    pub fn hit(&self) -> &Hit
        ensures { result.now ≡ self.now }
    {
        self.hit.get()
    }

    /// The hit, out of its box. Takes no memory.
    pub fn into_hit(self) -> Hit
        ensures { result ≡ self }
    {
        self.hit.into_value()
    }
}

impl PartialEq for BoxedHit {
    ghost eq = { eq_by_cmp match_cmp };

    ghost laws = { partial_equiv_from_equiv (eq_by_cmp_equiv match_total) };

    fn eq(&self, other: &BoxedHit) -> bool {
        self.cmp(other).is_eq()
    }
}

impl Eq for BoxedHit {
    ghost laws = { eq_by_cmp_equiv match_total };
}

impl PartialOrd for BoxedHit {
    ghost partial_cmp = { as_partial_cmp match_cmp };

    ghost laws = { partial_order_from_total match_total };

    fn partial_cmp(&self, other: &BoxedHit) -> Option<Ordering> {
        Some(self.cmp(other))
    }
}

impl Ord for BoxedHit {
    ghost cmp = { match_cmp };

    ghost total = { match_total };

    ghost matches_partial_cmp = { λ a b. refl };

    ghost matches_eq = { λ a b. refl };

    fn cmp(&self, other: &BoxedHit) -> Ordering {
        let hit = self.hit.get();
        order(&hit.places, &hit.path, other.hit.get())
    }
}

impl Copying for BoxedHit {
    fn copy(&self) -> Result<BoxedHit, Memory> {
        self.clone()
    }
}

/// Where a hit would stand: by its places and its path, which are borrowed.
#[derive(Drop)]
pub struct HitKey<'a> {
    /// Where it stands for SORT.
    pub places: &'a SortPlaces,
    /// Where it is.
    pub path: &'a Path,
}

impl<'a> Probe<BoxedHit> for HitKey<'a> {
    ghost key = { λ p.
        record { path = p.path.now; places = p.places.now; row = record { name = []; items = [] } } };

    fn compare(&self, known: &BoxedHit) -> Ordering {
        order(self.places, self.path, known.hit.get())
    }
}
