//! `Occasion`: the seat, the moment and the nonce of a step; and what a turn came to.

ghost use Rattle.std.specs.Prelude.{◌≡◌};
ghost use Rattle.acap_session.specs.World.{went_on};

use acap_entries::{Moment, Seat};

/// Where and when a session makes a step: its seat, what the clock shows, and the nonce that a challenge is made with
/// (RFC 2195 section 2).
#[derive(Clone, Copy)]
pub struct Occasion {
    /// The seat.
    pub seat: Seat,
    /// What the clock shows.
    pub clock: Moment,
    /// The nonce of a challenge.
    pub nonce: u64,
}

/// What a turn of a session came to.
#[derive(Clone, Copy, PartialEq, Eq)]
pub(crate) enum Turn {
    /// Nothing is next.
    More,
    /// Something was said.
    Said,
    /// Something was said, and the session is over.
    Closed,
}

impl Turn {
    /// Whether it came to anything, so that another may.
    pub(crate) fn went_on(self) -> bool
        ensures { result ≡ went_on self }
    {
        match self {
            Turn::More => false,
            Turn::Said => true,
            Turn::Closed => true,
        }
    }
}
