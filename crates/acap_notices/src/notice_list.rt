//! Where the notices of a queue lie: with one owner, or with several.

use crate::notice::Notice;
use acap_entries::Shared;

/// Where the notices of a queue lie: in a list of its own, or in one that a reply may hold too.
#[derive(Drop)]
pub(crate) enum NoticeList {
    /// A list to which notices can be added.
    Own(Vec<Notice>),
    /// A list that stays as it is.
    Shared(Shared<Notice>),
}
