//! What the entries of a dataset inherit from other datasets (RFC 2244 sections 5.1 and 5.2).
#![tactic(auto)]

mod chains;
mod entry_names;
mod found;
mod full_path;
mod heirs;
mod laws;
mod lent;
mod lineage;
mod link;
mod linking;
mod merging;
mod prepared;
mod range;
mod reach;
mod reached;
mod resolved;
mod resolving;
mod touching;
mod written;

pub use chains::{chain, chain_unless};
pub use entry_names::{EntryNames, names_on};
pub use found::Found;
pub use laws::{
    base_law, chain_examples, chain_law, first_dataset_law, first_law, moment_examples, moment_law,
    names_law, nothing_law, over_base_examples, reading_law, repeat_law, touched_examples,
    touched_paths_law, unread_law,
};
pub use lent::Lent;
pub use lineage::Lineage;
pub use link::Link;
pub use prepared::Prepared;
pub use reach::Reach;
pub use resolved::Resolved;
pub use resolving::{entry_exists, lookup, modtime, resolve};
