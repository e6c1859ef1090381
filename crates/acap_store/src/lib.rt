//! What a command that writes does to a store (RFC 2244 sections 6.6 and 6.7): the change that STORE, SETACL and DELETEACL
//! make or why they are refused, and what DELETEDSINCE prints.
#![tactic(auto)]

mod conditions;
mod deleting;
mod ending;
mod invalid;
mod item_tests;
mod known;
mod laws;
mod limits;
mod meaning;
mod missing;
mod objects;
mod permission;
mod planning;
mod records;
mod refusing;
mod subject;
mod write;
mod write_env;
mod writing;

pub use acap_commands::Refusal;
pub use deleting::deleted_since;
pub use laws::{
    change_examples, dataset_law, housed_law, item_examples, kept_law, later_law, limit_examples,
    meaning_examples, order_law, path_law, permission_examples, room_law, root_law, sound_law,
    stage_law, steps_law, telling_law, writing_examples,
};
pub use objects::{lent_object, object_for};
pub use planning::plan;
pub use write::Write;
