//! The stages of a session, from its greeting to its end.

use acap_entries::{Octets, UserName};

/// What a session is about to do.
#[derive(Drop)]
pub enum Stage {
    /// It has said nothing yet.
    Opening,
    /// Its user has asked to enter.
    Entering,
    /// It hears what comes next.
    Ready,
    /// A command with this tag awaits the machine's answer.
    Asked(Option<Octets>),
    /// An AUTHENTICATE with this tag was sent this challenge, and the next line answers it (RFC 2244 section 6.3.1).
    Challenged(Option<Octets>, Octets),
    /// An AUTHENTICATE with this tag was answered by this user, who has asked to enter.
    LoggingIn(Option<Octets>, UserName),
    /// What is pending for its user has been asked for.
    Draining,
    /// It is over.
    Closed,
}
