//! The lines of a script, which says what several clients send to one server, and when (a format of this project).
#![tactic(auto)]

mod laws;
mod line_fault;
mod numbers;
mod reading;
mod script_line;
mod script_word;
mod seat_line;

pub use laws::line_examples;
pub use line_fault::LineFault;
pub use reading::read_line;
pub use script_line::ScriptLine;
pub use seat_line::SeatLine;
