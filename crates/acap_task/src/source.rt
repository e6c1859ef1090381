//! `Source`: gives moments and nonces.
ghost use Rattle.std.specs.Prelude.{◌≡◌};

use acap_entries::Moment;

/// What gives the moments of events, and the nonces of challenges (RFC 2195 section 2).
pub trait Source: Drop {
    ghost use Rattle.acap_task.specs.Told.{SourceTold, gives_moment, gives_nonce};

    // What the source reports of its past.
    ghost told: { Self → SourceTold };

    /// What the clock shows.
    fn moment(&mut self) -> Moment
        ensures told { told self.new ≡ gives_moment (told self.old) result };

    /// A nonce for one challenge.
    fn nonce(&mut self) -> u64
        ensures told { told self.new ≡ gives_nonce (told self.old) result };
}
