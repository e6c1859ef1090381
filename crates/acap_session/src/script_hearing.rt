//! Gives a seat's session what its client sends, and makes all its turns.

ghost use Rattle.std.specs.Prelude.{◌≡◌, ◌≤◌, length, is_some, IfOk, OnOk};
ghost use Rattle.acap_script.specs.declared.seat_line.SeatLine.TheVariants as act;
ghost use Rattle.acap_session.specs.Script.{HasSettled, HasTurned, Listens, MayAct, MayOffer, TakesSome};
ghost use Rattle.acap_session.specs.World.{open_at};

use crate::occasion::Occasion;
use crate::world::World;
use crate::world_fault::WorldFault;
use acap_entries::{Memory, Steps};
use acap_script::LineFault;
use std::sync::ledger::Ledger;

// Makes a turn, and says whether it came to anything. No turn is made where the session is closed.
fn turn<L: Ledger>(world: &mut World, at: &Occasion, steps: &mut Steps<L>) -> Result<bool, Memory>
    ensures { IfOk result (λ goes. HasTurned at.now goes world.old world.new) }
{
    match world.turn(at.seat, at.nonce, at.clock, steps) {
        Ok(goes) => Ok(goes),
        Err(WorldFault::NoSeat) => Ok(false),
        Err(_) => Err(Memory),
    }
}

// Makes all turns that can be made.
fn settle<L: Ledger>(world: &mut World, at: &Occasion, steps: &mut Steps<L>) -> Result<(), Memory>
    ensures { OnOk result (HasSettled at.now world.old world.new) }
{
    loop {
        if !turn(world, at, steps)? {
            return Ok(());
        }
    }
}

// Offers octets, of which as many are taken as there is room for, and makes all turns that can be made. Says how many
// were taken.
fn offer<L: Ledger>(
    world: &mut World,
    at: &Occasion,
    octets: &[u8],
    steps: &mut Steps<L>,
) -> Result<usize, LineFault>
    ensures offered { MayOffer octets.now at.now world.old world.new result }
    ensures some { IfOk result (TakesSome at.now.seat octets.now world.old) }
    ensures within { IfOk result (λ taken. taken ≤ length octets.now) }
{
    let taken = world.piece(at.seat, octets)?;
    settle(world, at, steps)?;
    Ok(taken)
}

fn is_open(world: &World, at: &Occasion) -> bool
    ensures { result ≡ is_some (open_at world.now at.now.seat) }
{
    world.is_open(at.seat)
}

/// Gives a seat's session octets, and makes all turns that can be made, until all is taken or the session is closed.
pub(crate) fn hear<L: Ledger>(
    world: &mut World,
    at: &Occasion,
    octets: &[u8],
    steps: &mut Steps<L>,
) -> Result<(), LineFault>
    requires { Listens at.now.seat world.old }
    ensures { MayAct (act.Raw octets.now) at.now world.old world.new result }
{
    let taken = offer(world, at, octets, steps)?;
    let (_, behind) = octets.split_at(taken);
    let mut rest = behind;
    'offers: while !rest.is_empty() {
        if !is_open(world, at) {
            return Ok(());
        }
        let taken = offer(world, at, rest, steps)?;
        let (_, behind) = rest.split_at(taken);
        rest = behind;
    }
    Ok(())
}
