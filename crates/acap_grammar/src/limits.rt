//! The limits of a command: levels of a key, and items of each list.

/// How many levels the key of a SEARCH may have.
pub(crate) const KEY_LEVELS: u32 = 32;

/// How many items RETURN may have.
pub(crate) const RETURN_ITEMS: u32 = 256;

/// How many metadata an item of RETURN may name.
pub(crate) const METADATA_ITEMS: u32 = 32;

/// How many items SORT may have.
pub(crate) const SORT_ITEMS: u32 = 16;

/// How many entries a STORE may have.
pub(crate) const STORE_ENTRIES: u32 = 256;

/// How many attributes an entry of a STORE may have.
pub(crate) const STORE_ITEMS: u32 = 256;

/// How many contexts UPDATECONTEXT may name.
pub(crate) const CONTEXT_NAMES: u32 = 200;
