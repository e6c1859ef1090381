//! The octets of a session, which come in pieces, as commands and their tokens (RFC 2244, section 2), and strings
//! as they are printed.
#![tactic(auto)]

mod advance;
mod draft;
mod ends;
mod fault;
mod found;
mod kind;
mod laws;
mod lexed;
mod lexer;
mod marks;
mod octets;
mod outcomes;
mod part;
mod pieces;
mod print;
mod reading;
mod scan;
mod stages;
mod strings;
mod tokens;

pub use fault::{LexFault, Memory};
pub use kind::Kind;
pub use laws::{
    examples, goes_by_stages, held_examples, keeps_items, keeps_waits, leaves_room, limit_examples,
    octet_examples, printed_examples, reads_parts, reads_quoted, reads_spellings, takes_octets,
};
pub use lexed::{Lexed, Mode, Tag};
pub use lexer::{Lexer, compact};
pub use marks::count_of;
pub use pieces::answers;
pub use print::print_string;
pub use tokens::Tokens;
