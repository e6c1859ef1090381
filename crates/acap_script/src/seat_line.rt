//! `SeatLine`: a line of a script that is about one seat.

use acap_entries::{Octets, UserName};

/// What a line of a script does at a seat.
#[derive(Drop)]
pub enum SeatLine {
    /// A session opens, of nobody yet.
    Open,
    /// A session of a user opens.
    Enter(UserName),
    /// The client sends a line, and the session makes all turns that it can make.
    Send(Octets),
    /// The client sends octets, and the session makes all turns that it can make.
    Raw(Octets),
    /// Octets come from the client, and the session makes no turn.
    Piece(Octets),
    /// The session makes a turn.
    Turn,
    /// The session is asked for what is pending.
    Drain,
    /// The session ends.
    Leave,
}
