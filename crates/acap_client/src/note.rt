//! A notice of a context, as a line says it.

use crate::data::Data;
use crate::number::Number;

/// A notice of a context, as its line says it (RFC 2244 section 6.5).
#[derive(Clone, Copy)]
pub(crate) enum Note<'a> {
    /// An entry has come in: its position, its name and its data.
    AddTo(Number<'a>, &'a [u8], Data<'a>),
    /// An entry has gone: its name and its position.
    RemoveFrom(&'a [u8], Number<'a>),
    /// An entry has changed: its old position, its new one, its name and its data.
    Change(Number<'a>, Number<'a>, &'a [u8], Data<'a>),
}
