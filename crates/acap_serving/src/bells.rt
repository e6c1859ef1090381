//! `Bells`: wakes the sessions of seats at which notices wait.

use crate::flag_bell::SharedBell;
use acap_entries::{Memory, Seat};
use acap_locked::{Pass, Site};
use acap_task::{PassDesk, Ringer};
use std::alloc::Global;
use std::sync::Arc;

/// Rings the bells of seats from any thread, and takes no memory. No clause says that a ring is heard.
#[derive(Drop)]
pub struct Bells {
    bells: Vec<(Seat, Arc<SharedBell, Global>)>,
}

// Whether a seat is among these, each of which is a bit, the lowest for the first.
fn has_seat(seats: u64, seat: Seat) -> bool {
    (seats >> seat.number()) & 1 == 1
}

impl Bells {
    ghost use Rattle.std.specs.Prelude.{◌≡◌, IfOk, length, vec_len};

    /// A bell for the seat of each pass, and in the same order that of each seat's sessions. Fails only for want of memory.
    pub fn new<S: Site>(
        alloc: Global,
        passes: &[Pass<S>],
    ) -> Result<(Bells, Vec<Arc<SharedBell, Global>>), Memory>
        ensures { IfOk result (λ made. vec_len made.1 ≡ length passes.now) }
    {
        let mut bells = Vec::with_capacity(alloc, passes.len())?;
        let mut heard = Vec::with_capacity(alloc, passes.len())?;
        for pass in passes {
            let bell = SharedBell::new(alloc)?;
            bells.push((pass.seat(), Arc::try_clone(&bell)?))?;
            heard.push(bell)?;
        }
        Ok((Bells { bells }, heard))
    }
}

/// The desk of a session whose seat's bell is among these.
pub(crate) type DeskOf<'a, R, S, L> = PassDesk<'a, S, L, R, Bells>;

impl Ringer for Bells {
    fn ring(&self, seats: u64) {
        if seats == 0 {
            return;
        }
        for (seat, bell) in &self.bells {
            if has_seat(seats, *seat) {
                bell.ring();
            }
        }
    }
}
