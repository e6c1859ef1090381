//! `Conn`: what a connection gives to its session: the wire, the source and the user.
use acap_entries::{Octets, UserName};
use acap_login::Users;

/// What a session is given by its connection: a wire to its client, whose session it is from the start, if it
/// is anybody's, and a source of moments and nonces.
#[derive(Drop)]
pub struct Conn<W, S> {
    /// Octets from the client and to it.
    pub wire: W,
    /// Who is logged in from the start.
    pub user: Option<UserName>,
    /// Moments and nonces.
    pub source: S,
}

/// Whom a session is between: who may log in, at which host, and whose session it is from the start, if it is
/// anybody's. They stay.
#[derive(Drop)]
pub struct SessionParams<'u> {
    /// Who may log in.
    pub users: &'u Users,
    /// The name of the host.
    pub host: Octets,
    /// Whose session it was from the start.
    pub user: Option<UserName>,
}
