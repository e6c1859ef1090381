//! Sessions: a client's octets, what is said to them, and the events that they ask of the machine (RFC 2244 section 2).
#![tactic(auto)]

mod input;
pub mod laws;
mod occasion;
mod output;
mod pipe;
mod pipe_fault;
mod script;
mod script_acting;
mod script_doing;
mod script_fault;
mod script_hearing;
mod script_output;
mod script_run;
mod seat_session;
mod setup;
mod turns;
mod world;
mod world_fault;

pub use acap_dialogue::{Next, Session, Stage};
pub use input::{Input, ReadFailed};
pub use occasion::Occasion;
pub use output::{Output, WriteFailed, send_all};
pub use pipe::run_pipe;
pub use pipe_fault::PipeFault;
pub use script_fault::ScriptFault;
pub use script_run::run_script;
pub use world::World;
pub use world_fault::WorldFault;
