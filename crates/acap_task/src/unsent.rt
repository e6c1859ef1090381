//! `Unsent`: octets that a session said and that aren't written yet.
ghost use Rattle.std.specs.Prelude.{◌≡◌, ◌≤◌, ◌+◌, [], IfOk, OnErr, length, drop, true};
ghost use Rattle.acap_dialogue.specs.Session.{after_answer, is_asked, session_next};
ghost use Rattle.acap_task.specs.Hearing.{AwaitsBy, GoesOn, HearsAll};

use acap_commands::{Fault, Reply};
use acap_dialogue::{Heard, Session};
use acap_entries::{Memory, Moment};
use acap_login::Users;
use std::alloc::Global;
use std::marker::Model;

// How many octets of room are kept for what is said next.
const UNSENT_ROOM: usize = 65_536;

/// Octets that a session said and that wait to be written: contracts see them as a list.
#[derive(Drop)]
pub struct Unsent {
    alloc: Global,
    octets: Vec<u8>,
    from: usize,
}

impl Model for Unsent {
    ghost use Rattle.std.specs.Prelude.{◌≤◌, ℕ, List, drop, length};

    ghost Value = { List ℕ };

    ghost view = { λ o. drop o.from o.octets.items };

    ghost invariant = { λ o. o.from ≤ length o.octets.items };
}

impl Unsent {
    /// Nothing waits to be written. Takes no memory.
    pub(crate) fn new(alloc: Global) -> Unsent
        ensures { result ≡ [] }
    {
        Unsent {
            alloc,
            octets: Vec::new(alloc),
            from: 0,
        }
    }

    /// The octets.
    pub fn as_slice(&self) -> &[u8]
        ensures { result.now ≡ self.now }
    {
        &self.octets[self.from..]
    }

    // Drops octets that were all written.
    fn clear(&mut self)
        ensures { self.new ≡ [] }
    {
        if self.octets.capacity() > UNSENT_ROOM {
            self.octets = Vec::new(self.alloc);
        } else {
            self.octets.clear();
        }
        self.from = 0;
    }

    /// Drops the first of them, which were written.
    pub(crate) fn remove(&mut self, n: usize)
        requires { n ≤ length self.old }
        ensures { self.new ≡ drop n self.old }
    {
        self.from += n;
        if self.from == self.octets.len() {
            self.clear();
        }
    }

    /// What is next for a session; what it says waits to be written.
    pub(crate) fn hear(
        &mut self,
        session: &mut Session,
        users: &Users,
        nonce: u64,
        clock: Moment,
    ) -> Result<Heard, Memory>
        ensures heard { HearsAll (session_next users.now nonce clock session.old) result session.new
            self.old self.new }
        ensures asked { IfOk result (λ heard. AwaitsBy heard session.new) }
    {
        session.hear(users, nonce, clock, &mut self.octets)
    }

    /// What a session says to an answer waits to be written. Where memory is refused the answer doesn't close
    /// the session.
    pub(crate) fn reply(
        &mut self,
        session: &mut Session,
        outcome: Result<Reply, Fault>,
    ) -> Result<Heard, Memory>
        requires { is_asked session.old.stage ≡ true }
        ensures heard { HearsAll (after_answer session.old outcome) result session.new self.old self.new }
        ensures open { OnErr result (GoesOn (after_answer session.old outcome)) }
    {
        session.reply(outcome, &mut self.octets)
    }
}
