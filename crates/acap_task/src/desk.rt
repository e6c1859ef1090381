//! `Desk`: what answers the events of a session.
ghost use Rattle.std.specs.Prelude.{◌≡◌, ℕ};

use acap_commands::{Event, Fault};
use acap_entries::Moment;
use acap_locked::Answer;

/// What answers the events of a session (RFC 2244 section 2).
pub trait Desk: Drop {
    ghost use Rattle.acap_task.specs.Told.{DeskTold, after_call};

    // What the desk reports of its past.
    ghost told: { Self → DeskTold };

    // The number of the seat at which it calls, the same from call to call; 0 where it has none.
    ghost seat: { Self → ℕ } = { λ _. 0 };

    /// Performs one event, when the clock shows that moment.
    fn call(&mut self, event: Event, moment: Moment) -> Result<Answer, Fault>
        ensures told { told self.new ≡ after_call (told self.old) event moment result }
        ensures seat { seat self.new ≡ seat self.old };
}
