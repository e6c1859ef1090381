//! `Heard` and `ReadFault`: what a reader answers, and what may be wrong with the server's octets.

use crate::response::Response;
use thiserror::Error;

/// What is wrong with what a server sent.
#[derive(Clone, Copy, Debug, PartialEq, Eq, Error)]
pub enum ReadFault {
    /// A line that says nothing of what a server may say. The lines after it are read.
    #[error("a line that no server sends")]
    Unknown,
    /// No line of a server begins with the octets that follow the last line: nothing is read after it.
    #[error("octets that begin no line")]
    Astray,
    /// The line that follows is longer than the limit: nothing is read after it.
    #[error("a line over the limit")]
    TooLong,
}

/// What comes next in the octets of a server.
#[derive(Drop)]
pub enum Heard {
    /// No line is whole yet.
    More,
    /// A whole line, which says something.
    Line(Response),
    /// A fault. After any but `Unknown` nothing is read: it is answered ever after.
    Fault(ReadFault),
}
