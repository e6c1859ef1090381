//! `Lent`: a value that is borrowed from the store, or the stamp of a moment.
use acap_entries::{Value, Values};

/// A value that is not NIL, as it is lent: nothing is copied.
#[derive(Clone, Copy)]
pub enum Lent<'a> {
    /// One string: the entry's name.
    Name(&'a [u8]),
    /// One string of the store.
    Single(&'a Value),
    /// A list of strings of the store.
    Multi(&'a Values),
    /// One string: the stamp of a moment.
    Stamp([u8; 20]),
}
