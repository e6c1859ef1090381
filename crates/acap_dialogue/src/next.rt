//! `Next` and `Heard`: what a session does next, with the octets that it says or without them.

use acap_commands::Event;
use acap_entries::Octets;

/// What a session does next.
#[derive(Drop)]
pub enum Next {
    /// Nothing: more octets, or the answer to an event, are awaited, or the session is closed.
    More,
    /// These octets are to be written.
    Say(Octets),
    /// This event is to be performed, and its answer to be given to the session.
    Ask(Event),
    /// These octets are to be written, and then the session is closed.
    Close(Octets),
}

/// What comes of what a session hears, where the octets that it says go to a vector that is lent.
#[derive(Drop)]
pub enum Heard {
    /// Nothing is next.
    More,
    /// Something was said.
    Said,
    /// This event is to be performed.
    Asks(Event),
    /// Something was said, and the session is over.
    Closes,
}
