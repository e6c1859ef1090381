//! `SessionProgress`: the steps that a session has made.
ghost use Rattle.std.specs.Prelude.{◌≡◌, ◌<◌, ◌≤◌, ◌+◌, ◌++◌, ◌∷◌, [], OnOk, vec_len, vec_capacity};
ghost use Rattle.acap_task.specs.Progress.{progress, no_progress};

use crate::unsent::Unsent;
use acap_commands::Fault;
use acap_dialogue::Session;
use acap_entries::{Memory, Moment};
use std::alloc::Global;

/// A step of a session (RFC 2244 section 2), as its task keeps it: what came, or when it was made, and why
/// the event that it asked, and the Leave after it, were not performed. Takes at most 32 octets of memory.
#[derive(Clone, Copy)]
pub enum Step {
    /// This many octets came.
    Piece(usize),
    /// A turn that came to something: when, with which nonce, and the faults of its event and of the Leave
    /// after it.
    Turn(Moment, u64, Option<Fault>, Option<Fault>),
    /// What is pending was asked for: when, and the faults of its event and of the Leave after it.
    Drain(Moment, Option<Fault>, Option<Fault>),
    /// The session's end: when, and the fault of its Leave.
    Leave(Moment, Option<Fault>),
}

/// How far a session has come: the session, its steps, what it said that isn't written yet, whether memory
/// was refused, and whether its user's Enter stands.
#[derive(Drop)]
pub struct SessionProgress {
    /// The session.
    pub session: Session,
    /// Its steps, in their order.
    pub steps: Vec<Step>,
    /// What it said that isn't written yet.
    pub unsent: Unsent,
    /// Whether memory was refused, so that nothing more can be done but to write what it said, and to leave.
    pub lost: bool,
    /// Whether its user has entered, and not left.
    pub seated: bool,
}

impl SessionProgress {
    /// A session of which nothing has been done. Takes no memory.
    pub(crate) fn new(alloc: Global, session: Session, lost: bool) -> SessionProgress
        ensures { progress result ≡ no_progress session lost }
    {
        SessionProgress {
            session,
            steps: Vec::new(alloc),
            unsent: Unsent::new(alloc),
            lost,
            seated: false,
        }
    }
}

/// Room for a step, and for a Leave after it. Fails only for want of memory.
pub(crate) fn make_room(steps: &mut Vec<Step>) -> Result<(), Memory>
    ensures same { steps.new.items ≡ steps.old.items }
    ensures least { vec_capacity steps.old ≤ vec_capacity steps.new }
    ensures room { OnOk result (vec_len steps.new + 2 ≤ vec_capacity steps.new) }
{
    steps.reserve(2)?;
    Ok(())
}

/// A step is written down in room for it.
pub(crate) fn write_down(steps: &mut Vec<Step>, step: Step)
    requires { vec_len steps.old < vec_capacity steps.old }
    ensures written { steps.new.items ≡ steps.old.items ++ step ∷ [] }
    ensures least { vec_capacity steps.old ≤ vec_capacity steps.new }
{
    steps.push(step).unwrap();
}
