//! Names for the lists that commands and replies are made of.

use crate::returns::{Metadata, ReturnItem};
use crate::search_modifiers::SortItem;
use crate::store::{StoreEntry, StoreItem};
use acap_entries::{ContextName, Row, Sequence, Shared};

/// The entries of a STORE, in the order sent (RFC 2244 section 6.6.1).
pub type Entries = Sequence<StoreEntry>;

/// What a STORE gives to one entry, in the order sent (RFC 2244 section 6.6.1).
pub type StoreItems = Sequence<StoreItem>;

/// The items of a RETURN, in the order sent; one may be repeated (RFC 2244 section 6.4.1).
pub type Returns = Sequence<ReturnItem>;

/// What is printed of each attribute of an item of RETURN, in the order sent (RFC 2244 section 6.4.1).
pub type MetadataList = Sequence<Metadata>;

/// The items of a SORT, the first deciding first (RFC 2244 section 6.4.1).
pub type SortItems = Sequence<SortItem>;

/// The contexts of an UPDATECONTEXT, in the order sent; one may be repeated (RFC 2244 section 6.5).
pub type ContextNames = Sequence<ContextName>;

/// The rows that a SEARCH found, in the order in which they are printed (RFC 2244 section 6.4.1). Those who hold the
/// reply hold them together.
pub type Rows = Shared<Row>;
