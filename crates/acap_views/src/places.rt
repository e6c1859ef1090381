//! Which names of contexts are taken at a seat, and whether there is a place for one more.
ghost use Rattle.std.specs.Prelude.{◌≡◌};
ghost use Rattle.std.specs.FinMap as table;
ghost use Rattle.acap_views.specs.Keeping.{seats_in};
ghost use Rattle.acap_views.specs.Opening as rule;
ghost use Rattle.acap_views.specs.Seats.{contexts_at};

use crate::opening;
use crate::views::Views;
use acap_entries::{ContextName, Seat, Whole, lookup};

/// Whether there is a context of this name at a seat, freed or not (RFC 2244 section 3.3). Takes no memory.
pub fn has_context(views: &Views, seat: Seat, name: &ContextName) -> bool
    ensures { result ≡ table.contains_key (contexts_at (seats_in views.now) seat) name.now }
{
    match lookup(views.contexts(seat), &Whole { key: name }) {
        Some(_) => true,
        None => false,
    }
}

/// Whether a seat has as many contexts as it may, and none of this name that would make way (RFC 2244 section 6.4.1). Takes no memory.
pub fn is_full(views: &Views, seat: Seat, name: &ContextName) -> bool
    ensures { result ≡ rule.is_full (contexts_at (seats_in views.now) seat) name.now }
{
    opening::is_full(views.contexts(seat), name)
}
