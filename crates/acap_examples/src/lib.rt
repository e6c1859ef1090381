//! Stories of sessions, run step by step: what the client of a context holds when it was sent all, and that all premises of what is
//! proved of such clients are met (RFC 2244 sections 3.3 and 6.5).
#![tactic(auto)]

mod client;
mod following;
mod showing;
mod story;
mod story_fault;

pub use acap_session::Occasion;
pub use showing::{show, shows};
pub use story::{Action, Step, Story};
pub use story_fault::StoryFault;
