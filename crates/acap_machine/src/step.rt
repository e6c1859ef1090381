//! `Step`: one event at a seat, at a moment.

use acap_commands::Event;
use acap_entries::{Moment, Seat};

/// One event at a seat, and the moment that the clock shows: what definitions of runs are lists of.
#[derive(Drop)]
pub struct Step {
    /// The seat.
    pub seat: Seat,
    /// The event.
    pub event: Event,
    /// The moment.
    pub clock: Moment,
}
