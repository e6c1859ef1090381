//! Who listens to a client, and when.

use acap_entries::{Moment, Octets, UserName};
use std::alloc::Global;
use std::marker::Model;

/// Who listens to a client, and when: all that a line is heard by, beside the line.
#[derive(Drop)]
pub(crate) struct Listener<'a> {
    /// Where memory is taken from.
    pub(crate) alloc: Global,
    /// The name of the host, which a challenge names (RFC 2195 section 2).
    pub(crate) host: &'a Octets,
    /// The session's user, if it has one.
    pub(crate) user: &'a Option<UserName>,
    /// The nonce of a challenge.
    pub(crate) nonce: u64,
    /// What the clock shows.
    pub(crate) clock: Moment,
}

impl<'a> Model for Listener<'a> {
    ghost use Rattle.acap_dialogue.specs.Listening.{Listening};

    ghost Value = { Listening };

    ghost view = { λ l. record { host = l.host.now; user = l.user.now; nonce = l.nonce; clock = l.clock } };
}
