//! `Write`: the commands that write; and the entries that they stand for.

use acap_commands::{Entries, ObjectName};
use acap_entries::{Boxed, Label};

/// A command that writes, as sent: `~` stands (RFC 2244 sections 6.6.1 and 6.7).
#[derive(Drop)]
pub enum Write {
    /// STORE: the entries are stored, all or none.
    Store(Entries),
    /// SETACL: the identifier gets these rights on the object.
    SetAcl(Boxed<ObjectName>, Boxed<Label>, Boxed<Label>),
    /// DELETEACL: the identifier is taken off the object's list, or the whole list is removed.
    DeleteAcl(Boxed<ObjectName>, Option<Boxed<Label>>),
}

/// What a command stores, `~` being replaced.
#[derive(Drop)]
pub(crate) struct ResolvedWrite {
    /// The entries.
    pub(crate) entries: Entries,
    /// Whether the list of a dataset is to go as a whole, which DELETEACL may not do (RFC 2244 section 6.7).
    pub(crate) drops_dataset_list: bool,
}
