//! Paths compared as one string of octets.
ghost use Rattle.std.specs.Prelude.{Some, refl};
ghost use Rattle.std.specs.Cmp.{eq_by_cmp_equiv, partial_equiv_from_equiv, po};
ghost use Rattle.std.specs.Ordering.{eq_by_cmp};
ghost use Rattle.acap_inherit.specs.Touched.{by_octets, octets_total};

use acap_entries::Path;
use std::cmp::Ordering;
use std::marker::Model;

/// A path, ordered by its dataset and its name as one string of octets.
#[derive(Drop)]
pub(crate) struct FullPath {
    pub(crate) path: Path,
}

impl Model for FullPath {
    ghost use Rattle.acap_entries.specs.declared.path.Path.{Path};

    ghost Value = { Path };

    ghost view = { λ f. f.path };
}

impl PartialEq for FullPath {
    ghost eq = { eq_by_cmp by_octets };

    ghost laws = { partial_equiv_from_equiv (eq_by_cmp_equiv octets_total) };

    fn eq(&self, other: &FullPath) -> bool {
        self.cmp(other).is_eq()
    }
}

impl Eq for FullPath {
    ghost laws = { eq_by_cmp_equiv octets_total };
}

impl PartialOrd for FullPath {
    ghost partial_cmp = { λ x y. Some (by_octets x y) };

    ghost laws = { po octets_total (λ x y. refl) };

    fn partial_cmp(&self, other: &FullPath) -> Option<Ordering> {
        Some(self.cmp(other))
    }
}

impl Ord for FullPath {
    ghost cmp = { by_octets };

    ghost total = { octets_total };

    ghost matches_partial_cmp = { λ x y. refl };

    ghost matches_eq = { λ x y. refl };

    fn cmp(&self, other: &FullPath) -> Ordering {
        match self.path.cmp_full(&other.path) {
            Ordering::Equal => self.path.dataset.cmp(&other.path.dataset),
            unequal => unequal,
        }
    }
}
