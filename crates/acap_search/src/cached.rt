//! Records and rights that were looked up already, for the entries of one dataset.

use acap_entries::Record;
use acap_rights::SharedRights;

/// What is at hand of an entry whose dataset inherits nothing: its record, and the rights that it shares with the others.
#[derive(Clone, Copy)]
pub(crate) struct OwnRecord<'a> {
    /// Its record.
    pub(crate) entry: &'a Record,
    /// The user's rights on each attribute that the record has no list for.
    pub(crate) shared: &'a SharedRights,
}

/// The rights that a user has in a dataset and in its base, on each attribute for which an entry's record there has no
/// list (RFC 2244 section 3.5).
#[derive(Clone, Copy)]
pub(crate) struct ChainRights<'a> {
    /// Those in the dataset that is looked through.
    pub(crate) own: &'a SharedRights,
    /// The dataset that most is inherited from.
    pub(crate) base: &'a [u8],
    /// Those in that one.
    pub(crate) inherited: &'a SharedRights,
}
