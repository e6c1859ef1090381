//! One turn: a session hears, asks the machine, and says the reply.

ghost use Rattle.std.specs.Prelude.{◌≡◌, false, true, IfOk, IsOk, OnOk};
ghost use Rattle.acap_dialogue.specs.Session.{is_asked};
ghost use Rattle.acap_session.specs.Live.{AsksReported, Reports, told_with};
ghost use Rattle.acap_session.specs.Turning.{Asks, Drains, Replies, Turns};
ghost use Rattle.acap_session.specs.Turning.{is_refused, left_at, left_by, turn_from};

use crate::occasion::{Occasion, Turn};
use acap_commands::{Event, Fault, Reply, Said};
use acap_dialogue::{Heard, Session};
use acap_entries::{Copying, Memory, Steps};
use acap_login::Users;
use acap_machine::State;
use std::sync::ledger::Ledger;

/// A session that has its seat leaves it. Takes no memory.
pub(crate) fn leave<L: Ledger>(
    state: &mut State,
    occasion: Occasion,
    has_seat: bool,
    steps: &mut Steps<L>,
)
    ensures { state.new.machine ≡ left_by has_seat occasion state.old.machine }
{
    if has_seat {
        let _ = state.step(occasion.seat, Event::Leave, occasion.clock, steps);
    }
}

// What a turn came to.
fn turn_from(heard: &Heard) -> Turn
    ensures { result ≡ turn_from heard.now }
{
    match heard {
        Heard::More => Turn::More,
        Heard::Said => Turn::Said,
        Heard::Asks(_) => Turn::More,
        Heard::Closes => Turn::Closed,
    }
}

// A session that is over leaves its seat.
fn finish<L: Ledger>(
    state: &mut State,
    occasion: Occasion,
    has_seat: bool,
    heard: &Heard,
    steps: &mut Steps<L>,
) -> Turn
    ensures turn { result ≡ turn_from heard.now }
    ensures machine { state.new.machine ≡ left_at heard.now has_seat occasion state.old.machine }
{
    let turn = turn_from(heard);
    if turn == Turn::Closed {
        leave(state, occasion, has_seat, steps);
    }
    turn
}

// What a session says to its machine's answer is added, and where it is over it leaves its seat.
fn conclude<L: Ledger>(
    session: &mut Session,
    state: &mut State,
    occasion: Occasion,
    outcome: Result<Reply, Fault>,
    out: &mut Vec<u8>,
    steps: &mut Steps<L>,
) -> Result<Turn, Memory>
    requires { is_asked session.old.stage ≡ true }
    ensures { Replies occasion outcome state.old session.old out.old state.new session.new out.new result }
{
    let has_seat = session.has_seat() | outcome.is_ok();
    match session.reply(outcome, out) {
        Ok(heard) => Ok(finish(state, occasion, has_seat, &heard, steps)),
        Err(Memory) => {
            leave(state, occasion, has_seat, steps);
            Err(Memory)
        }
    }
}

// The event that a session asked is performed, and what it says to the answer is added.
fn perform<L: Ledger>(
    session: &mut Session,
    state: &mut State,
    occasion: Occasion,
    event: Event,
    out: &mut Vec<u8>,
    steps: &mut Steps<L>,
) -> Result<Turn, Memory>
    requires { is_asked session.old.stage ≡ true }
    ensures { Asks occasion event state.old session.old out.old state.new session.new out.new result }
{
    let outcome = state.step(occasion.seat, event, occasion.clock, steps);
    conclude(session, state, occasion, outcome, out, steps)
}

/// Makes one turn of a session, and adds what it says. Where memory is refused the session is closed, and an event that
/// it asked stands.
pub(crate) fn turn<L: Ledger>(
    session: &mut Session,
    state: &mut State,
    users: &Users,
    occasion: Occasion,
    out: &mut Vec<u8>,
    steps: &mut Steps<L>,
) -> Result<Turn, Memory>
    ensures { Turns users.now occasion state.old session.old out.old state.new session.new out.new result }
{
    let has_seat = session.has_seat();
    let Ok(heard) = session.hear(users, occasion.nonce, occasion.clock, out) else {
        leave(state, occasion, has_seat, steps);
        return Err(Memory);
    };
    match heard {
        Heard::Asks(event) => perform(session, state, occasion, event, out, steps),
        other => Ok(finish(state, occasion, has_seat, &other, steps)),
    }
}

// Whether memory was refused.
fn is_refused(outcome: &Result<Reply, Fault>) -> bool
    ensures { result ≡ is_refused outcome.now }
{
    matches!(outcome, Err(Fault::Memory))
}

// An event with what the machine says to it. `Memory` where it was refused memory, or there is none to report it.
fn report_of(
    asked: Result<Event, Memory>,
    outcome: &Result<Reply, Fault>,
) -> Result<Option<(Event, Said)>, Memory>
    ensures told { IfOk result (λ told. IfOk asked (λ event. told ≡ told_with event outcome.now)) }
    ensures asked { OnOk result (IsOk asked) }
    ensures stood { OnOk result (is_refused outcome.now ≡ false) }
{
    let event = asked?;
    match outcome {
        Ok(reply) => {
            let said = reply.said.copy()?;
            Ok(Some((event, said)))
        }
        Err(Fault::Memory) => Err(Memory),
        Err(_) => Ok(None),
    }
}

// The event that a session asked is performed, and what it says to the answer is added. Both are reported, where there is
// memory for it.
fn perform_reported<L: Ledger>(
    session: &mut Session,
    state: &mut State,
    occasion: Occasion,
    event: Event,
    out: &mut Vec<u8>,
    steps: &mut Steps<L>,
) -> Result<Option<(Event, Said)>, Memory>
    requires { is_asked session.old.stage ≡ true }
    ensures { AsksReported occasion event state.old session.old out.old
        state.new session.new out.new result }
{
    let asked = event.copy();
    let answer = state.step(occasion.seat, event, occasion.clock, steps);
    let reported = report_of(asked, &answer);
    match conclude(session, state, occasion, answer, out, steps) {
        Ok(_turn) => reported,
        Err(Memory) => Err(Memory),
    }
}

/// Makes one turn of a session, adds what it says, and gives the event that it asked with what the machine said to it.
/// Where memory is refused the turn was made and can't be reported, or the session is closed, and an event that it asked
/// stands.
pub(crate) fn report_turn<L: Ledger>(
    session: &mut Session,
    state: &mut State,
    users: &Users,
    occasion: Occasion,
    out: &mut Vec<u8>,
    steps: &mut Steps<L>,
) -> Result<Option<(Event, Said)>, Memory>
    ensures { Reports users.now occasion state.old session.old out.old
        state.new session.new out.new result }
{
    let has_seat = session.has_seat();
    let Ok(heard) = session.hear(users, occasion.nonce, occasion.clock, out) else {
        leave(state, occasion, has_seat, steps);
        return Err(Memory);
    };
    match heard {
        Heard::Asks(event) => perform_reported(session, state, occasion, event, out, steps),
        other => {
            let _turn = finish(state, occasion, has_seat, &other, steps);
            Ok(None)
        }
    }
}

/// Asks for what is pending for a session's user, if it may be asked, and adds it. Where the asking is refused memory
/// nothing was done; where what it says is, the session is closed.
pub(crate) fn drain<L: Ledger>(
    session: &mut Session,
    state: &mut State,
    occasion: Occasion,
    out: &mut Vec<u8>,
    steps: &mut Steps<L>,
) -> Result<Turn, Memory>
    ensures { Drains occasion state.old session.old out.old state.new session.new out.new result }
{
    if !session.begin_drain() {
        return Ok(Turn::More);
    }
    let outcome = state.step(occasion.seat, Event::Drain, occasion.clock, steps);
    if is_refused(&outcome) {
        session.end_drain();
        return Err(Memory);
    }
    conclude(session, state, occasion, outcome, out, steps)
}
