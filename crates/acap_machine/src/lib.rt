//! The dataset machine: a store, and sessions that use it by commands and look at it through contexts (RFC 2244 sections 2, 3 and
//! 6).
#![tactic(auto)]

mod answering;
mod applying;
mod effect;
pub mod laws;
mod ready;
mod readying;
mod refusing;
mod searching;
pub mod state;
pub mod step;
mod writing;

pub use acap_commands::{Event, Fault};
pub use ready::Ready;
pub use state::State;
pub use step::Step;
