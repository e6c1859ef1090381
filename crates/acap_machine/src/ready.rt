//! `Ready`: an event that was made ready, with its reply.

use crate::effect::Effect;
use acap_commands::{Reply, Said};
use acap_entries::Seat;
use std::marker::Model;

/// An event that was made ready: its reply, and all that is yet to be put in place, for which there is room (RFC 2244 section 6).
#[derive(Drop)]
pub struct Ready {
    pub(crate) seat: Seat,
    pub(crate) effect: Effect,
    pub(crate) reply: Reply,
    pub(crate) work: u64,
}

impl Model for Ready {
    ghost use Rattle.acap_machine.specs.Readied.{Pending, pending_code};

    ghost Value = { Pending };

    ghost coded = { pending_code };

    ghost view = { λ r. record { seat = r.seat; effect = r.effect; reply = r.reply; work = r.work } };
}

impl Ready {
    ghost use Rattle.std.specs.Prelude.{◌≡◌};
    ghost use Rattle.acap_machine.specs.Readied.{pending_of};
    ghost use Rattle.acap_machine.specs.Stepping.{plain};
    ghost use Rattle.acap_machine.specs.declared.effect.Effect.TheVariants as effects;

    // What is said, and what is yet to be put in place; no touched entry was looked at for it.
    pub(crate) fn new(seat: Seat, effect: Effect, words: Said) -> Ready
        ensures { result ≡ pending_of seat effect (plain words) 0 }
    {
        Ready {
            seat,
            effect,
            reply: Reply::new(words),
            work: 0,
        }
    }

    // What is said, where nothing is yet to be put in place.
    pub(crate) fn saying(seat: Seat, words: Said) -> Ready
        ensures { result ≡ pending_of seat effects.Nothing (plain words) 0 }
    {
        Ready::new(seat, Effect::Nothing, words)
    }

    /// What is answered once it is put in place.
    pub fn reply(&self) -> &Reply
        ensures { result.now ≡ self.now.reply }
    {
        &self.reply
    }
}
