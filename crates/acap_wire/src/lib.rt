//! What a client reads from the wire is what a search would find: laws of the octets of a session and of the client that
//! follows them (RFC 2244 sections 2.2, 3.3 and 6.5). There is no code but these.
#![tactic(auto)]

mod laws;

pub use laws::{ahead_law, follower_law, wire_examples, world_follower_law};
