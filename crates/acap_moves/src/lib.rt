//! What is sent where a live search goes from one list to another, and the client that follows (RFC 2244 sections 3.3 and 6.5).
#![tactic(auto)]

mod laws;

pub use laws::{
    following_law, mixed_law, move_examples, moves_law, notice_list_law, pending_law, undo_law,
};
