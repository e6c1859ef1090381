//! Calls of the program: what their words ask for, what they do, and with which status and line they end.
#![tactic(auto)]

mod call;
mod calls;
mod fault;
mod faults;
mod running;

pub use fault::Fault;
pub use running::run_call;
