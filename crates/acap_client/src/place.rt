//! Where the last octet left off in a line: in a word, in a string, in a literal, at its end.

/// Where the last octet left the reader of a line. The octets so far of a word, a string or a mark stand beside it.
#[derive(Clone, Copy, PartialEq, Eq)]
pub(crate) enum Place {
    /// Between two lines.
    Between,
    /// After a space, where a datum begins.
    Fresh,
    /// After `(`, where a datum begins or `)` follows.
    Opened,
    /// After a datum.
    Ended,
    /// In a word.
    InWord,
    /// Between quotes.
    InQuotes,
    /// Between quotes, after a backslash.
    Escaping,
    /// In the mark of a literal, after `{` and some digits.
    Marking,
    /// After `}`, with the number of octets that the literal has.
    Marked(u32),
    /// After the CR that follows it.
    Opening(u32),
    /// In a literal: how many octets are to come after the next one.
    Taking(u32),
    /// After the CR that ends a line.
    Returned,
}
