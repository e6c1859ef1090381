//! `Prepared`: the edits that a change makes in the index.

use crate::link::Link;
use acap_entries::Boxed;
use std::marker::Model;

/// Pairs to be taken out of the index and pairs to be put in: seen as these two lists.
#[derive(Drop)]
pub struct Prepared {
    pub(crate) taken: Vec<Boxed<Link>>,
    pub(crate) put: Vec<Boxed<Link>>,
}

impl Model for Prepared {
    ghost use Rattle.std.specs.Prelude.{List};
    ghost use Rattle.acap_inherit.specs.declared.link.Link.{Link};

    ghost Value = { List Link × List Link };

    ghost view = { λ p. (p.taken.items, p.put.items) };
}
