//! `ScriptLine`: what a line of a script says.

use crate::seat_line::SeatLine;
use acap_entries::{Moment, Octets, Seat, UserName};

/// A line of a script.
#[derive(Drop)]
pub enum ScriptLine {
    /// Nothing, or a remark.
    Pass,
    /// Who may log in, and the secret.
    User(UserName, Octets),
    /// An administrator.
    Admin(UserName),
    /// A group, and who is in it.
    Group(UserName, UserName),
    /// The name of the host.
    Host(Octets),
    /// What the clock shows from here on.
    Clock(Moment),
    /// The nonce of challenges from here on.
    Nonce(u64),
    /// Something is done at a seat.
    At(Seat, SeatLine),
}
