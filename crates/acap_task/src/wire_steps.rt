//! What a running session does with its wire and its bell.
ghost use Rattle.std.specs.Prelude.{◌≡◌, ◌≤◌, ◌<◌, length};
ghost use Rattle.futures.specs.Poll.{OnPending};
ghost use Rattle.futures.specs.Task.{IsArmed, Keeps};
ghost use Rattle.acap_dialogue.specs.Telling.{room_in};
ghost use Rattle.acap_task.specs.Progress.{HasRoom, HasRoomToLeave, progress};
ghost use Rattle.acap_task.specs.Told.{after_ring};
ghost use Rattle.acap_task.specs.Turns.{Reads, Rings, Takes, Writes};
ghost use Rattle.acap_task.specs.Waiting.{IfSilent};

use crate::bell::{Bell, Ring};
use crate::desk::Desk;
use crate::desk_steps::drain;
use crate::progress::{SessionProgress, Step, write_down};
use crate::source::Source;
use crate::wire::{Wire, WireFault};
use futures::ready;
use futures::task::{Context, Poll};

/// Writes some of what waits to be written.
pub(crate) fn write<W: Wire>(
    wire: &mut W,
    cx: &mut Context<'_>,
    state: &mut SessionProgress,
) -> Poll<Result<usize, WireFault>>
    requires room { HasRoomToLeave state.old }
    requires some { 0 < length state.old.unsent }
    ensures written { Writes (W.told wire.old) (progress state.old) result (W.told wire.new)
        (progress state.new) }
    ensures room { HasRoomToLeave state.new }
    ensures armed { OnPending result (IsArmed cx.new) }
    ensures kept { Keeps cx.old cx.new }
{
    let outcome = ready!(wire.poll_write(cx, state.unsent.as_slice()));
    if let Ok(n) = outcome {
        state.unsent.remove(n);
    }
    Poll::Ready(outcome)
}

// Gives the session octets that it has room for.
fn take(state: &mut SessionProgress, octets: &[u8])
    requires fits { length octets.now ≤ room_in state.old.session }
    requires room { HasRoom state.old }
    ensures takes { Takes octets.now (progress state.old) (progress state.new) }
    ensures room { HasRoomToLeave state.new }
{
    match state.session.push(octets) {
        Ok(n) => write_down(&mut state.steps, Step::Piece(n)),
        Err(_) => state.lost = true,
    }
}

/// Reads octets into a buffer, no more than the session has room for, and gives them to it.
pub(crate) fn read<W: Wire>(
    wire: &mut W,
    cx: &mut Context<'_>,
    state: &mut SessionProgress,
    buffer: &mut [u8],
) -> Poll<Result<usize, WireFault>>
    requires room { HasRoom state.old }
    requires lent { (0 < room_in state.old.session) × (0 < length buffer.old) }
    ensures reads { Reads (W.told wire.old) (progress state.old) result (W.told wire.new)
        (progress state.new) }
    ensures room { HasRoomToLeave state.new }
    ensures armed { OnPending result (IsArmed cx.new) }
    ensures kept { Keeps cx.old cx.new }
{
    let room = state.session.room().min(buffer.len());
    let outcome = ready!(wire.poll_read(cx, &mut buffer[..room]));
    match outcome {
        Ok(n) if n > 0 => take(state, &buffer[..n]),
        _ => {}
    }
    Poll::Ready(outcome)
}

/// Looks at the bell, and asks for what is pending where it rang.
pub(crate) fn ring<B: Bell, D: Desk, S: Source>(
    bell: &mut B,
    cx: &mut Context<'_>,
    state: &mut SessionProgress,
    desk: &mut D,
    source: &mut S,
) -> Poll<Ring>
    requires { HasRoom state.old }
    ensures bell { B.told bell.new ≡ after_ring (B.told bell.old) result }
    ensures rings { Rings result (progress state.old) (D.told desk.old) (S.told source.old)
        (progress state.new) (D.told desk.new) (S.told source.new) }
    ensures seat { D.seat desk.new ≡ D.seat desk.old }
    ensures room { HasRoomToLeave state.new }
    ensures silent { IfSilent result (HasRoom state.new) }
    ensures armed { OnPending result (IsArmed cx.new) }
    ensures kept { Keeps cx.old cx.new }
{
    let answer = ready!(bell.poll_ring(cx));
    if answer == Ring::Rung {
        drain(state, desk, source);
    }
    Poll::Ready(answer)
}
