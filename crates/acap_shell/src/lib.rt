//! What the words of `acapc` stand for, as commands of the protocol (RFC 2244), and how what is answered is printed. It has no handle.
#![tactic(auto)]

mod both;
mod dumping;
mod escapes;
mod form;
mod laws;
mod lines;
mod literals;
mod objects;
mod rows;
mod searches;
mod stores;
mod streams;
mod watching;

pub use dumping::{dump, follow_all, is_inheritance, stores_of};
pub use escapes::print_octets;
pub use form::Form;
pub use laws::{plain_law, read_back_law};
pub use lines::{followed_line, line_of};
pub use literals::{full_path, item_line};
pub use objects::{access_list, grant, my_rights, revoke, revoke_all};
pub use rows::{print_attributes, print_name, print_rights, print_value};
pub use searches::{find, get, list};
pub use stores::{set, unset};
pub use streams::{print_stream, sent_lines};
pub use watching::{print_change, print_row, watch};
