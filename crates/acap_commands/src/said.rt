//! `Said`: what the server says to a client; `SearchReply`: what a SEARCH prints.

use crate::command::Verb;
use crate::lists::Rows;
use crate::refusal::Refusal;
use acap_entries::{Copying, Memory, Moment, Octets, Value, Values};
use acap_notices::Tolds;

/// What a SEARCH prints: its rows, the store's last moment where a RETURN asked for rows, and how many entries matched
/// where not all of them are printed (RFC 2244 section 6.4.1).
#[derive(Clone, PartialEq, Eq, Drop)]
pub struct SearchReply {
    /// The rows, each printed as an ENTRY.
    pub rows: Rows,
    /// The moment printed as a MODTIME after them, if one is.
    pub last: Option<Moment>,
    /// How many entries matched, where LIMIT kept some of them from being printed.
    pub total: Option<u32>,
}

impl Copying for SearchReply {
    fn copy(&self) -> Result<SearchReply, Memory> {
        self.clone()
    }
}

/// What is said to a client (RFC 2244 section 6.2).
#[derive(Clone, PartialEq, Eq, Drop)]
pub enum Said {
    /// The greeting that begins a session.
    Greeting,
    /// Nothing: the session has left.
    Left,
    /// What was pending of a session's contexts is sent, under no tag (section 6.5).
    Drained(Tolds),
    /// An UPDATECONTEXT is done, and this was sent before it (section 6.5).
    Updated(Tolds),
    /// The command with this verb is done.
    Done(Verb),
    /// A SEARCH is done, and this is printed.
    Searched(SearchReply),
    /// A DELETEDSINCE is done, and the entries with these names were deleted (section 6.6.2).
    Deleted(Values),
    /// A MYRIGHTS is done, and the user has these rights (section 6.7).
    Rights(Value),
    /// A LISTRIGHTS is done: what the identifier always has, and then each other right apart (section 6.7).
    RightsList(Values),
    /// A login goes on with this challenge (section 6.3.1; RFC 2195 section 2).
    Challenge(Octets),
    /// A LOGOUT is done, and the session is closed.
    GoodBye,
    /// The command, or the connection, is refused.
    Refused(Refusal),
}

impl Copying for Said {
    fn copy(&self) -> Result<Said, Memory> {
        self.clone()
    }
}
