//! Notices of a live search, the queue in which they wait, and what a client that applies them holds (RFC 2244 sections 3.3 and 6.5).
#![tactic(auto)]

mod batch;
mod held;
mod held_fault;
mod laws;
mod listed;
mod mapped;
mod notice;
mod notice_list;
mod places;
mod queue;
mod queue_fault;
mod told;
mod told_iter;
mod told_ref;
mod tolds;

pub use batch::{Batch, Ending};
pub use held::Held;
pub use held_fault::HeldFault;
pub use laws::{
    change_law, joined_law, misfit_examples, once_law, places_law, row_examples, same_rows_law,
};
pub use notice::Notice;
pub use places::is_each_once;
pub use queue::{NOTICES_PENDING, Queue};
pub use queue_fault::QueueFault;
pub use told::Told;
pub use told_iter::ToldIter;
pub use told_ref::ToldRef;
pub use tolds::Tolds;
