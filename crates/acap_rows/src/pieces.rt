//! A reader that gives octets in pieces of chosen sizes.

use std::fmt::{self, Display, Formatter};
use std::io::{self, Read};

/// The sizes of the pieces that octets are cut into: the most octets of the first, and of each of the others.
#[derive(Clone, Copy)]
pub(crate) struct PieceSizes {
    pub(crate) first: usize,
    pub(crate) size: usize,
}

impl PieceSizes {
    /// All at once.
    pub(crate) const WHOLE: PieceSizes = PieceSizes {
        first: 1_000_000,
        size: 1_000_000,
    };

    /// Octet by octet.
    pub(crate) const SINGLE: PieceSizes = PieceSizes { first: 1, size: 1 };
}

impl Display for PieceSizes {
    fn fmt<W: fmt::Write>(&self, f: &mut Formatter<W>) -> fmt::Result {
        write!(
            f,
            "in pieces of {} and then {} octets",
            self.first, self.size
        )
    }
}

/// A reader of octets, cut into such pieces.
#[derive(Drop)]
pub(crate) struct Pieces<'a> {
    pub(crate) left: &'a [u8],
    pub(crate) sizes: PieceSizes,
}

impl<'a> Read for Pieces<'a> {
    fn read(&mut self, buf: &mut [u8]) -> io::Result<usize> {
        let count = self.sizes.first.min(self.left.len()).min(buf.len());
        let (front, back) = self.left.split_at(count);
        buf[..count].copy_from_slice(front);
        self.left = back;
        self.sizes.first = self.sizes.size;
        Ok(count)
    }
}
