//! `Kind`: the kinds of token; and the place of a token in its command.

/// What a token is (RFC 2244, section 2.2).
#[derive(Clone, Copy, PartialEq, Eq)]
pub enum Kind {
    /// The tag, which is the first token of a command. An answer has none.
    Tag,
    /// A word: a verb, a modifier, a number.
    Word,
    /// A quoted string.
    Quoted,
    /// A literal.
    Literal,
    /// `(`
    Open,
    /// `)`
    Close,
}

/// Where a token lies: its value in the text of values, and its own octets in the command.
#[derive(Clone, Copy)]
pub(crate) struct TokenPlace {
    pub(crate) kind: Kind,
    pub(crate) value_start: u32,
    pub(crate) value_end: u32,
    pub(crate) start: u32,
    pub(crate) end: u32,
}
