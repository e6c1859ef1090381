//! `Form`: octets are printed escaped, or as they are.

/// How octets are printed.
#[derive(Clone, Copy, PartialEq, Eq)]
pub enum Form {
    /// Those that aren't printable ASCII, and the backslash, as `\x` and two hex digits.
    Escaped,
    /// As they are.
    Raw,
}
