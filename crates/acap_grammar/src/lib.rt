//! Commands from tokens, and replies to octets (RFC 2244 sections 2.2, 6 and 8).
#![tactic(auto)]

mod arguments;
mod codes;
mod command_fault;
mod cursor;
mod data;
mod gathered;
mod grammar_fault;
mod keys;
mod laws;
mod limits;
mod notices;
mod parsing;
mod reading_laws;
mod refusing;
mod rendering;
mod searching;
mod several;
mod storing;
mod strings;
mod words;

pub use command_fault::CommandFault;
pub use grammar_fault::GrammarFault;
pub use laws::{
    command_examples, fault_examples, first_fault, limit_examples, line_examples, line_faults,
    names_law, places_law, reply_examples, sendable_law, spelled_commands, spelled_texts,
    text_examples, told_examples,
};
pub use parsing::{is_noop, parse};
pub use reading_laws::{apart_law, hearing_law, printed_law, readable_law, reading_examples};
pub use refusing::lexical_refusal;
pub use rendering::{render, render_said};
