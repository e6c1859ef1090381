//! Whether any context at any seat is live.
ghost use Rattle.std.specs.Prelude.{◌≡◌};
ghost use Rattle.std.specs.List.{list_any};
ghost use Rattle.acap_views.specs.Keeping.{contexts_in, seats_in};
ghost use Rattle.acap_views.specs.Listing.{live_entry, live_seat};
ghost use Rattle.acap_views.specs.Work as rule;

use crate::open_context::OpenContext;
use crate::seat_contexts::SeatContexts;
use crate::views::Views;
use acap_entries::{ContextName, Seat};

// Whether one of a session's contexts does.
fn any_live(contexts: &[(ContextName, OpenContext)]) -> bool
    ensures { result ≡ list_any live_entry contexts.now }
{
    contexts.iter().any(|entry| entry.1.is_live())
}

// The same of who sits at a seat.
fn live_at(sitting: &SeatContexts) -> bool
    ensures { result ≡ rule.any_live (contexts_in sitting.now.contexts) }
{
    any_live(sitting.contexts())
}

// The same of all seats.
fn live_seats(seats: &[(Seat, SeatContexts)]) -> bool
    ensures { result ≡ list_any live_seat seats.now }
{
    seats.iter().any(|entry| live_at(&entry.1))
}

impl Views {
    /// Whether any context of any session follows the store. Takes no memory.
    pub(crate) fn has_live(&self) -> bool
        ensures { result ≡ rule.has_live (seats_in self.now) }
    {
        live_seats(&self.seats)
    }
}
