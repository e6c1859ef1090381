//! `Line`: what a line of the server says.

use crate::data::Data;
use crate::number::Number;

/// How a command ended.
#[derive(Clone, Copy, PartialEq, Eq)]
pub enum Ending {
    /// OK
    Done,
    /// NO
    Failed,
    /// BAD
    Wrong,
}

/// What a line from the server says. Some stand under the tag of a command: `None` where a `*` stands in its place.
#[derive(Clone, Copy)]
pub enum Line<'a> {
    /// What the server is and offers (RFC 2244 section 6.1.1).
    Greeting(Data<'a>),
    /// The client may go on: a challenge or `Ready` (RFC 2244 sections 2.5 and 6.3.1).
    GoOn(&'a [u8]),
    /// An entry that a search finds: the tag, its name and its data (RFC 2244 section 6.4.2).
    Entry(Option<&'a [u8]>, &'a [u8], Data<'a>),
    /// The moment of a search: the tag and the stamp (RFC 2244 section 6.4.3).
    Moment(Option<&'a [u8]>, &'a [u8]),
    /// An entry has come into a context: the context, the entry, its position and its data (RFC 2244 section 6.5.3).
    AddTo(&'a [u8], &'a [u8], Number<'a>, Data<'a>),
    /// An entry has gone from a context: the context, the entry and its position (RFC 2244 section 6.5.4).
    RemoveFrom(&'a [u8], &'a [u8], Number<'a>),
    /// An entry of a context has changed: the context, the entry, its old position, its new one and its data (RFC 2244
    /// section 6.5.5).
    Change(&'a [u8], &'a [u8], Number<'a>, Number<'a>, Data<'a>),
    /// All changes of a context up to a stamp were sent: the context and the stamp (RFC 2244 section 6.5.6).
    UpTo(&'a [u8], &'a [u8]),
    /// A text for people (RFC 2244 section 6.2.9).
    Alert(&'a [u8]),
    /// An entry was deleted: the tag and its name (RFC 2244 section 6.6.3).
    Deleted(Option<&'a [u8]>, &'a [u8]),
    /// The rights that the client has: the tag and the rights (RFC 2244 section 6.7.4).
    Rights(Option<&'a [u8]>, &'a [u8]),
    /// The rights that may be granted: the tag and the rights, which are strings (RFC 2244 section 6.7.6).
    RightsList(Option<&'a [u8]>, Data<'a>),
    /// The end of a command: the tag, how it ended, the data of its code and a text (RFC 2244 sections 3.6 and 6.2.5 to
    /// 6.2.7).
    Completion(Option<&'a [u8]>, Ending, Option<Data<'a>>, &'a [u8]),
    /// The end of the session: the data of its code and a text (RFC 2244 section 6.2.8).
    Bye(Option<Data<'a>>, &'a [u8]),
}
