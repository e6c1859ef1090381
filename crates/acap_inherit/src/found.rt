//! `Found`: what an attribute resolves to.
use crate::lent::Lent;

/// What an attribute of an entry resolves to (RFC 2244 section 5.1).
#[derive(Clone, Copy)]
pub enum Found<'a> {
    /// NIL, which lies nowhere.
    Nil,
    /// A value.
    At {
        /// The dataset where it lies.
        dataset: &'a [u8],
        /// The value.
        value: Lent<'a>,
    },
}

impl<'a> Found<'a> {
    ghost use Rattle.std.specs.Prelude.{◌≡◌, is_none};
    ghost use Rattle.acap_inherit.specs.Values.{found_of};

    /// Whether it is NIL.
    pub fn is_nil(&self) -> bool
        ensures { result ≡ is_none (found_of self.now) }
    {
        matches!(self, Found::Nil)
    }
}
