//! What comes of a scan, of one stage of it, and of a call for the next command.

use crate::lexed::Lexed;

/// What a scan finds next in a stream.
#[derive(Drop)]
pub(crate) enum Due {
    /// A continuation that has not been sent.
    Plus,
    /// Nothing yet.
    More,
    /// An item, and how many octets it takes.
    Item(Lexed, usize),
}

/// What comes of a stage of a command.
#[derive(Drop)]
pub(crate) enum StageOutcome {
    /// Nothing yet.
    Waits,
    /// An item, and how many octets it takes.
    Ends(Lexed, usize),
    /// The next stage.
    Goes,
}

/// What came of asking for a command.
#[derive(Clone, Copy, PartialEq, Eq)]
pub(crate) enum Answered {
    /// It isn't whole.
    NotYet,
    /// Its item was answered.
    Whole,
    /// A fatal fault was answered.
    Closed,
}
