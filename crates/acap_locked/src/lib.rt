//! One machine for many threads (RFC 2244 section 2): a book behind a lock, with the history of its calls, and a pass for each seat whose
//! own record of its calls can be compared with that history.
#![tactic(auto)]

mod book;
mod call;
mod close_fault;
mod closing;
mod history_entry;
mod item;
pub mod laws;
mod locking;
mod pass;
mod performing;
mod recorded;
mod report;
mod retiring;
mod rings;
mod room;
mod served;
mod shared_call;
mod site;

pub use book::Book;
pub use call::{Answer, Call};
pub use close_fault::CloseFault;
pub use history_entry::{History, HistoryEntry};
pub use item::{Item, ItemList, PassContents, PassContentsList};
pub use pass::Pass;
pub use report::{Counts, Report};
pub use served::Served;
pub use shared_call::SharedCall;
pub use site::Site;
