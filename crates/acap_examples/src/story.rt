//! `Story`: the steps of several sessions.

use acap_entries::{ContextName, Octets, Seat, UserName};
use acap_rights::Realm;
use acap_session::Occasion;

/// What is done in a step of a story.
#[derive(Drop)]
pub enum Action {
    /// A session of that user opens, and makes its first turn.
    Open(UserName),
    /// Octets of its client come to a session.
    Piece(Octets),
    /// A session makes a turn.
    Turn,
}

/// A step of a story: where and when, and what is done. No event is refused memory in it.
#[derive(Drop)]
pub struct Step {
    /// Where and when.
    pub occasion: Occasion,
    /// What is done.
    pub action: Action,
}

/// A story of sessions over a new machine, into which nobody logs in by a secret, and the context whose client is followed: one of the
/// session at that seat, with that name. In the last step that client is sent all.
#[derive(Drop)]
pub struct Story {
    /// Who is who.
    pub realm: Realm,
    /// The name of the host.
    pub host: Octets,
    /// All steps but the last.
    pub steps: Vec<Step>,
    /// The last step.
    pub last: Step,
    /// The seat of the context's session.
    pub seat: Seat,
    /// The context's name.
    pub name: ContextName,
}
