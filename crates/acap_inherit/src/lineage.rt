//! `Lineage`: a chain as a list of names.
ghost use Rattle.std.specs.Prelude.{◌≡◌, ◌≤◌, ◌<◌, length, map};

use arrayvec::ArrayVec;
use std::marker::Model;

/// The chain of a dataset, from itself on: one to eight names, which lie where they are stored (RFC 2244 section 5.2).
#[derive(Drop)]
pub struct Lineage<'a> {
    pub(crate) names: ArrayVec<&'a [u8], 8>,
}

impl<'a> Model for Lineage<'a> {
    ghost use Rattle.std.specs.Prelude.{ℕ, ◌<◌, List, map, length};

    ghost Value = { List (List ℕ) };

    ghost view = { λ c. map (λ name. name.now) c.names.items };

    ghost invariant = { λ c. 0 < length c.names.items };
}

impl<'a> Lineage<'a> {
    /// The names in the order of the chain, the dataset's own first.
    pub fn names(&self) -> &[&'a [u8]]
        ensures names { map (λ name. name.now) result.now ≡ self.now }
        ensures some { 0 < length result.now }
        ensures few { length result.now ≤ 8 }
    {
        self.names.as_slice()
    }

    /// The same chain, at the side of this one. Takes no memory.
    pub fn again(&self) -> Lineage<'_>
        ensures { result ≡ self.now }
    {
        let mut names = ArrayVec::new();
        for name in self.names() {
            names.push(*name);
        }
        Lineage { names }
    }
}
