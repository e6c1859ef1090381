//! Which seats are rung after a call.
ghost use Rattle.std.specs.Prelude.{◌≡◌};
ghost use Rattle.acap_locked.specs.Rings.{flags_left, rings_of};

use acap_commands::Event;
use acap_entries::Seat;

/// The flags after an event of a seat, before any seat is rung (RFC 2244 section 6.5).
pub(crate) fn flags_after(seat: Seat, event: &Event, flags: u64) -> u64
    ensures { result ≡ flags_left seat event.now flags }
{
    match event {
        Event::Command(_) => flags,
        _ => flags & (u64::MAX ^ (1 << seat.number())),
    }
}

/// The seats that wait and have no flag.
pub(crate) fn seats_to_ring(waiting: u64, flags: u64) -> u64
    ensures { result ≡ rings_of waiting flags }
{
    waiting & (u64::MAX ^ flags)
}
