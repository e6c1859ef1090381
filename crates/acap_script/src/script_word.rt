//! The first words of script lines.

/// The words with which the lines of a script begin.
#[derive(Clone, Copy, PartialEq, Eq)]
pub(crate) enum ScriptWord {
    /// `user`.
    User,
    /// `admin`.
    Admin,
    /// `group`.
    Group,
    /// `host`.
    Host,
    /// `clock`.
    Clock,
    /// `nonce`.
    Nonce,
    /// `open`.
    Open,
    /// `enter`.
    Enter,
    /// `send`.
    Send,
    /// `raw`.
    Raw,
    /// `piece`.
    Piece,
    /// `turn`.
    Turn,
    /// `drain`.
    Drain,
    /// `leave`.
    Leave,
}
