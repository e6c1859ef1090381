//! What comes of one octet, and of all octets that have come.

/// What the next octet of a line comes to.
#[derive(Clone, Copy, PartialEq, Eq)]
pub(crate) enum Step {
    /// The line goes on.
    Goes,
    /// The line is whole.
    Ends,
    /// No line of a server begins so.
    Lost,
    /// A literal is announced with which the line is longer than the limit.
    TooLong,
}

/// What the octets after those that were heard come to.
#[derive(Clone, Copy, PartialEq, Eq)]
pub(crate) enum Due {
    /// The line isn't whole yet: how many of its octets were heard.
    More(u32),
    /// The line is whole: how many octets it has.
    Ends(u32),
    /// No line of a server begins so.
    Lost,
    /// The line is longer than the limit.
    TooLong,
}
