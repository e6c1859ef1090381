//! The comparators of ACAP (RFC 2244, section 3.4): how a comparator is named, and how it orders,
//! equates and searches strings of octets. Nothing here takes memory.
#![tactic(auto)]

mod casemap;
mod comparator;
mod laws;
mod numbers;
mod octets;

pub use comparator::{Collation, Comparator, Direction};
pub use laws::{equality_law, example_law, order_law, reverse_law};
pub use numbers::{leading_digits, significant};
