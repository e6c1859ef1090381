//! What is found where a token begins, and where a part ends.

/// The octets that a literal mark announces (RFC 2244, section 2.6.3).
#[derive(Clone, Copy, PartialEq, Eq)]
pub(crate) struct Announced {
    /// How many octets follow the CR LF.
    pub(crate) count: u32,
    /// Whether the client waits for a line that bids it go on, as it does where the mark has no `+`.
    pub(crate) waits: bool,
}

/// What was found where a token of a part begins.
#[derive(Drop)]
pub(crate) enum Coming<'a> {
    /// The mark of a literal, which begins at that place of the command.
    Mark(usize, Announced),
    /// A token, with what is left after it.
    Rest(&'a [u8]),
}

/// The end of the part that begins a text.
#[derive(Clone, Copy, PartialEq, Eq)]
pub(crate) enum PartEnd {
    /// Its CR LF begins there.
    At(usize),
    /// It has none within the limit.
    Never,
    /// It has none yet.
    NotYet,
}
