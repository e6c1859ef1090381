//! `Site`: what a book and its passes share in contracts: the ledger of their calls, and the first machine.
use std::marker::Brand;
use std::sync::ledger::Ledger;

/// What a book and its passes have in common: the ledger in which their calls are counted, and the machine with which the history of its
/// first epoch begins. A pass of another site has another type.
pub trait Site: Ledger {
    ghost use Rattle.acap_machine.specs.Machine.{Machine};

    ghost base: { Machine };
}

impl Site for Brand {
    ghost use Rattle.acap_locked.specs.Shelf.{no_machine};

    ghost base = { no_machine };
}
