//! What a session that runs stands on: a wire, a desk that answers its events, a source of moments and
//! nonces, and a bell. What each of them has done is reported as plain data. Here are the four traits,
//! devices in memory, which report all, and the session over such four as a future.
#![tactic(auto)]

mod advance;
mod bell;
mod conn;
mod count;
mod desk;
mod desk_record;
mod desk_steps;
pub mod laws;
mod mem_bell;
mod mem_desk;
mod mem_source;
mod mem_wire;
mod pass_desk;
mod plan;
mod progress;
mod running;
mod source;
mod task;
mod unsent;
mod wire;
mod wire_steps;

pub use bell::{Bell, Ring, Ringer};
pub use conn::{Conn, SessionParams};
pub use count::count_up;
pub use desk::Desk;
pub use desk_record::DeskRecord;
pub use mem_bell::{BellAnswer, MemBell};
pub use mem_desk::MemDesk;
pub use mem_source::MemSource;
pub use mem_wire::{MemWire, WireAnswer};
pub use pass_desk::{PassDesk, SeatLease};
pub use plan::Plan;
pub use progress::{SessionProgress, Step};
pub use running::Running;
pub use source::Source;
pub use task::{Over, SessionTask, TaskEnd};
pub use unsent::Unsent;
pub use wire::{Wire, WireFault};
