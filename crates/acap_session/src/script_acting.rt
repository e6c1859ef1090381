//! Does a script line that is about one seat.

ghost use Rattle.acap_session.specs.Script.{Listens, MayAct, MayOpen};
ghost use Rattle.acap_script.specs.declared.seat_line.SeatLine.TheVariants as act;

use crate::occasion::Occasion;
use crate::script_hearing::hear;
use crate::world::World;
use acap_entries::{Octets, Steps, UserName};
use acap_script::{LineFault, SeatLine};
use std::sync::ledger::Ledger;

// A session opens, of that user if there is one.
fn open<L: Ledger>(
    world: &mut World,
    at: &Occasion,
    user: Option<UserName>,
    steps: &mut Steps<L>,
) -> Result<(), LineFault>
    ensures { MayOpen user at.now world.old world.new result }
{
    world.open(at.seat, user, at.clock, steps)?;
    Ok(())
}

// The client sends a line.
fn send<L: Ledger>(
    world: &mut World,
    at: &Occasion,
    text: Octets,
    steps: &mut Steps<L>,
) -> Result<(), LineFault>
    requires { Listens at.now.seat world.old }
    ensures { MayAct (act.Send text) at.now world.old world.new result }
{
    let mut sent = text.into_vec();
    let Ok(()) = sent.extend_from_slice(b"\r\n") else {
        return Err(LineFault::Memory);
    };
    hear(world, at, &sent, steps)
}

// Octets come from the client.
fn push(world: &mut World, at: &Occasion, octets: &[u8]) -> Result<(), LineFault>
    ensures { MayAct (act.Piece octets.now) at.now world.old world.new result }
{
    world.piece(at.seat, octets)?;
    Ok(())
}

// The session makes a turn.
fn turn<L: Ledger>(world: &mut World, at: &Occasion, steps: &mut Steps<L>) -> Result<(), LineFault>
    ensures { MayAct act.Turn at.now world.old world.new result }
{
    world.turn(at.seat, at.nonce, at.clock, steps)?;
    Ok(())
}

// The session is asked for what is pending.
fn drain<L: Ledger>(world: &mut World, at: &Occasion, steps: &mut Steps<L>) -> Result<(), LineFault>
    ensures { MayAct act.Drain at.now world.old world.new result }
{
    world.drain(at.seat, at.clock, steps)?;
    Ok(())
}

// The session ends.
fn leave<L: Ledger>(world: &mut World, at: &Occasion, steps: &mut Steps<L>) -> Result<(), LineFault>
    ensures { MayAct act.Leave at.now world.old world.new result }
{
    world.leave(at.seat, at.clock, steps)?;
    Ok(())
}

/// Does that at a seat. `Wrong` where a session opens and one is open there, or where none is open for all else.
pub(crate) fn do_at<L: Ledger>(
    world: &mut World,
    at: &Occasion,
    line: SeatLine,
    steps: &mut Steps<L>,
) -> Result<(), LineFault>
    requires { Listens at.now.seat world.old }
    ensures { MayAct line at.now world.old world.new result }
{
    match line {
        SeatLine::Open => open(world, at, None, steps),
        SeatLine::Enter(user) => open(world, at, Some(user), steps),
        SeatLine::Send(text) => send(world, at, text, steps),
        SeatLine::Raw(octets) => hear(world, at, octets.as_slice(), steps),
        SeatLine::Piece(octets) => push(world, at, octets.as_slice()),
        SeatLine::Turn => turn(world, at, steps),
        SeatLine::Drain => drain(world, at, steps),
        SeatLine::Leave => leave(world, at, steps),
    }
}
