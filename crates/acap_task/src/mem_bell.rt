//! `MemBell`: a bell for tests, which rings as its plan says.
ghost use Rattle.std.specs.Prelude.{◌≡◌, Some};
ghost use Rattle.acap_task.specs.Told.{after_ring, new_bell};
ghost use Rattle.futures.specs.Poll.{OnPending};
ghost use Rattle.futures.specs.Task.{Covers, Keeps};
ghost use Rattle.acap_task.specs.Plans.{next_of, rest_of, said_by};

use crate::bell::{Bell, Ring};
use crate::count::count_up;
use crate::plan::Plan;
use futures::task::{Context, Poll};
use std::marker::Model;

/// What a bell in memory answers at one poll.
#[derive(Clone, Copy, Debug, PartialEq, Eq)]
pub enum BellAnswer {
    /// It rings.
    Rings,
    /// It is not ready.
    Waits,
    /// It says that it has ended.
    Ends,
}

/// A bell that does what its plan says, and reports all: contracts see it as what it reports, beside its
/// plan.
#[derive(Drop)]
pub struct MemBell {
    plan: Plan<BellAnswer>,
    rings: u64,
    ended: bool,
    waits: u64,
}

impl Model for MemBell {
    ghost use Rattle.std.specs.Prelude.{List, Some};
    ghost use Rattle.acap_task.specs.Told.{BellTold};
    ghost use Rattle.acap_task.specs.declared.mem_bell.BellAnswer.{BellAnswer};

    ghost Value = { BellTold × (List BellAnswer × BellAnswer) };

    ghost view = { λ b. (record { rings = Some b.rings; ended = b.ended; waits = b.waits }, b.plan) };
}

impl MemBell {
    /// A bell with that plan. Takes no memory.
    pub fn new(plan: Plan<BellAnswer>) -> MemBell
        ensures { result ≡ (new_bell, plan) }
    {
        MemBell {
            plan,
            rings: 0,
            ended: false,
            waits: 0,
        }
    }

    /// How often it rang, up to the last number.
    pub fn rings(&self) -> u64
        ensures { self.now.0.rings ≡ Some result }
    {
        self.rings
    }
}

impl Bell for MemBell {
    ghost told = { λ b. b.0 };

    fn poll_ring(&mut self, cx: &mut Context<'_>) -> Poll<Ring>
        ensures told { self.new.0 ≡ after_ring self.old.0 result }
        ensures registered { OnPending result (Covers cx.new (λ _. ⊥)) }
        ensures kept { Keeps cx.old cx.new }
        ensures said { result ≡ said_by (next_of self.old.1) }
        ensures plan { self.new.1 ≡ rest_of self.old.1 }
    {
        match self.plan.next() {
            BellAnswer::Rings => {
                self.rings = count_up(self.rings);
                Poll::Ready(Ring::Rung)
            }
            BellAnswer::Waits => {
                self.waits = count_up(self.waits);
                cx.yield_now()
            }
            BellAnswer::Ends => {
                self.ended = true;
                Poll::Ready(Ring::End)
            }
        }
    }
}
