//! Does one step of a story, and keeps what the followed client holds.
ghost use Rattle.std.specs.Prelude.{IfOk};
ghost use Rattle.acap_examples.specs.Followed.{HasGone};
ghost use Rattle.acap_examples.specs.Stories.{as_step};
ghost use Rattle.acap_session.specs.Live.{step_on};
ghost use Rattle.acap_session.specs.World as actions;

use crate::client::{hold_after, updates};
use crate::story::{Action, Step};
use crate::story_fault::StoryFault;
use acap_entries::{ContextName, Seat, Steps};
use acap_notices::Held;
use acap_session::{Occasion, World};
use std::alloc::Global;
use std::sync::ledger::Ledger;

// Makes a turn, and gives the same as a step.
fn turn<L: Ledger>(
    alloc: Global,
    world: &mut World,
    held: Option<Held>,
    seat: Seat,
    name: &ContextName,
    occasion: Occasion,
    steps: &mut Steps<L>,
) -> Result<(bool, Option<Held>), StoryFault>
    ensures { IfOk result (λ gone.
        HasGone seat name.now (step_on occasion actions.Turn) gone.0 world.old held world.new gone.1) }
{
    let told = world.report_turn(occasion, steps)?;
    let is_own = occasion.seat == seat;
    if !is_own {
        return Ok((false, held));
    }
    match told {
        Some((event, said)) => {
            let tells = updates(name, &event, &said);
            let after = hold_after(alloc, held, name, &event, said)?;
            Ok((tells, after))
        }
        None => Ok((false, held)),
    }
}

/// Makes a step, and gives whether an UPDATECONTEXT of the context ends in it, and what the client of the
/// context holds then.
pub(crate) fn follow<L: Ledger>(
    alloc: Global,
    world: &mut World,
    held: Option<Held>,
    seat: Seat,
    name: &ContextName,
    step: Step,
    steps: &mut Steps<L>,
) -> Result<(bool, Option<Held>), StoryFault>
    ensures { IfOk result (λ gone.
        HasGone seat name.now (as_step step) gone.0 world.old held world.new gone.1) }
{
    let Step { occasion, action } = step;
    match action {
        Action::Open(user) => {
            user.form_law();
            world.open(occasion.seat, Some(user), occasion.clock, steps)?;
            Ok((false, held))
        }
        Action::Piece(octets) => {
            world.piece(occasion.seat, octets.as_slice())?;
            Ok((false, held))
        }
        Action::Turn => turn(alloc, world, held, seat, name, occasion, steps),
    }
}
