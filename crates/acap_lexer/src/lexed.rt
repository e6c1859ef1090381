//! `Lexed`: a command, a continuation that is due, or a fault; `Mode`: what a line is read as.

use crate::fault::LexFault;
use crate::tokens::Tokens;
use std::marker::Model;

/// What a lexer is asked for. It stays the same within one command, or that is read again from its beginning.
#[derive(Clone, Copy, PartialEq, Eq)]
pub enum Mode {
    /// A command, which begins with its tag (RFC 2244, section 2.2).
    Command,
    /// A line of a login exchange, which has no tag (RFC 2244, section 6.3.1).
    Answer,
}

/// The tag of a command, 1 to 32 octets, as it is written before the answers (RFC 2244, section 2.2).
#[derive(Drop)]
pub struct Tag {
    octets: Vec<u8>,
}

impl Model for Tag {
    ghost use Rattle.std.specs.Prelude.{List, ℕ};

    ghost Value = { List ℕ };

    ghost view = { λ t. t.octets.items };
}

impl Tag {
    ghost use Rattle.std.specs.Prelude.{◌≡◌};

    pub(crate) fn new(octets: Vec<u8>) -> Tag
        ensures { result ≡ octets.items }
    {
        Tag { octets }
    }

    /// The octets of the tag.
    pub fn as_slice(&self) -> &[u8]
        ensures { result.now ≡ self.now }
    {
        &self.octets
    }
}

/// What comes next in a stream of octets.
#[derive(Drop)]
pub enum Lexed {
    /// No further answer stands in the octets so far.
    More,
    /// A literal waits for `+ "Ready"` to be sent (RFC 2244, section 2.6.3). It is asked for once for each.
    Plus,
    /// A whole command, or a whole answer line.
    Line(Tokens),
    /// A command with a fault, of which the rest of the line is skipped, and its tag where it has one.
    Bad(LexFault, Option<Tag>),
    /// A fault after which nothing is read: it is answered ever after.
    Fatal(LexFault),
}
