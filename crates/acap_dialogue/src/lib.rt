//! One session between a client and the machine: octets to events, and the machine's answers to octets (RFC 2244 section 2).
#![tactic(auto)]

mod answering;
mod hearing;
mod laws;
mod listener;
mod logging;
mod next;
mod session;
mod stage;

pub use laws::{
    answer_examples, hearing_examples, login_examples, next_examples, quiet_law, run_examples,
    seated_law,
};
pub use next::{Heard, Next};
pub use session::Session;
pub use stage::Stage;
