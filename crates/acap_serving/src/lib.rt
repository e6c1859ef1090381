//! Sessions over TCP, on several threads (RFC 2244 section 2): a thread that accepts, and workers, each with a runtime of its own.
#![tactic(auto)]

mod accept;
mod bells;
mod client;
mod collect;
mod deal;
mod drain_stream;
mod ended;
mod fault;
mod flag_bell;
mod handles;
mod host_source;
mod lent_session;
mod listen;
mod seat_pool;
mod seats;
mod server;
mod sessions;
mod setup;
mod start;
mod start_wire;
mod tcp_wire;
mod wire_faults;
mod worker_sessions;
mod workers;

pub use accept::AcceptTask;
pub use bells::Bells;
pub use fault::ServeFault;
pub use flag_bell::{FlagBell, SharedBell};
pub use handles::{Handles, Sockets};
pub use host_source::HostSource;
pub use listen::{open, serve, serve_at};
pub use sessions::{Done, NotRun, Ran, RunFault, run_sessions};
pub use setup::Setup;
pub use tcp_wire::TcpWire;
