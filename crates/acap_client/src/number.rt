//! `Number`: a number in a line of the server, of any length.

ghost use Rattle.std.specs.Prelude.{◌≡◌, ◌<◌, ◌≤◌, IfSome, IfNone};
ghost use Rattle.acap_client.specs.Arguments.{value_in};
ghost use Rattle.acap_client.specs.Placing.{index_within};

use crate::counting::value_within;

/// A number in a line from the server: its decimal digits, one at least, however many (RFC 2244 section 8).
#[derive(Clone, Copy)]
pub struct Number<'a> {
    pub(crate) digits: &'a [u8],
}

impl<'a> Number<'a> {
    /// The number, if it is at most this.
    pub fn at_most(&self, most: u32) -> Option<u32>
        ensures some { IfSome result (λ n. (n ≡ value_in self.now) × (n ≤ most)) }
        ensures none { IfNone result (most < value_in self.now) }
    {
        let number = value_within(self.digits, most as usize)?;
        Some(number as u32)
    }

    /// The index of the row at this position, which is counted from 1, if there are that many rows.
    pub(crate) fn index_within(&self, len: usize) -> Option<usize>
        ensures { result ≡ index_within (value_in self.now) len }
    {
        match value_within(self.digits, len) {
            None | Some(0) => None,
            Some(position) => Some(position - 1),
        }
    }
}
