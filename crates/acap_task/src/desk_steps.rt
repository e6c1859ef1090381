//! What a running session asks of its desk: turns, drains and its end.
ghost use Rattle.std.specs.Prelude.{◌≡◌, IfOk, OnErr, true, false};
ghost use Rattle.acap_dialogue.specs.Session.{is_asked, after_answer};
ghost use Rattle.acap_task.specs.Hearing.{AwaitsBy};
ghost use Rattle.acap_task.specs.Progress.{HasRoom, HasRoomToLeave, progress};
ghost use Rattle.acap_task.specs.Turns as turns;
ghost use Rattle.acap_task.specs.Turns.{Acts, Drains, Idles, Leaves, LeavesAtEnd, SaysTo, Settles, Turns};

use crate::desk::Desk;
use crate::progress::{SessionProgress, Step, make_room, write_down};
use crate::source::Source;
use acap_commands::{Event, Fault, Reply};
use acap_dialogue::{Heard, Next};
use acap_entries::{Memory, Moment};
use acap_locked::Answer;
use acap_login::Users;

// Why an event was not performed, if it wasn't.
fn fault_in(outcome: &Result<Answer, Fault>) -> Option<Fault>
    ensures { result ≡ turns.fault_in outcome.now }
{
    match outcome {
        Ok(_) => None,
        Err(fault) => Some(*fault),
    }
}

// What a desk's answer says.
fn reply_in(outcome: Result<Answer, Fault>) -> Result<Reply, Fault>
    ensures { result ≡ turns.reply_in outcome }
{
    match outcome {
        Ok(answer) => Ok(answer.reply),
        Err(fault) => Err(fault),
    }
}

fn is_entering(event: &Event) -> bool
    ensures { result ≡ turns.is_entering event.now }
{
    matches!(event, Event::Enter(_))
}

// Whether the seat is taken after an answer.
fn seats(enters: bool, outcome: &Result<Answer, Fault>, seated: bool) -> bool
    ensures { result ≡ turns.seats enters outcome.now seated }
{
    match outcome {
        Ok(_) if enters => true,
        _ => seated,
    }
}

// The seat is left, if there is one.
fn leave<D: Desk>(seated: &mut bool, desk: &mut D, clock: Moment) -> Option<Fault>
    ensures left { Leaves seated.old clock (D.told desk.old) result (D.told desk.new) }
    ensures seat { D.seat desk.new ≡ D.seat desk.old }
    ensures seated { seated.new ≡ false }
{
    if !*seated {
        return None;
    }
    *seated = false;
    let outcome = desk.call(Event::Leave, clock);
    fault_in(&outcome)
}

// What the session says to an answer waits to be written, and where it closes the session the seat is left.
fn say_to<D: Desk>(
    state: &mut SessionProgress,
    desk: &mut D,
    clock: Moment,
    outcome: Result<Reply, Fault>,
) -> Option<Fault>
    requires { is_asked state.old.session.stage ≡ true }
    ensures said { SaysTo (after_answer state.old.session outcome) clock
        (progress state.old) (D.told desk.old) result (progress state.new) (D.told desk.new) }
    ensures seat { D.seat desk.new ≡ D.seat desk.old }
    ensures steps { state.new.steps ≡ state.old.steps }
{
    match state.unsent.reply(&mut state.session, outcome) {
        Ok(Heard::Closes) => leave(&mut state.seated, desk, clock),
        Ok(_) => None,
        Err(_) => {
            state.lost = true;
            None
        }
    }
}

// An event is performed, and what the session says to its answer waits to be written: why it, and the Leave
// after it, were not performed.
fn settle<D: Desk>(
    state: &mut SessionProgress,
    desk: &mut D,
    event: Event,
    clock: Moment,
) -> (Option<Fault>, Option<Fault>)
    requires { is_asked state.old.session.stage ≡ true }
    ensures settled { Settles event clock (progress state.old) (D.told desk.old) result.0 result.1
        (progress state.new) (D.told desk.new) }
    ensures seat { D.seat desk.new ≡ D.seat desk.old }
    ensures steps { state.new.steps ≡ state.old.steps }
{
    let enters = is_entering(&event);
    let outcome = desk.call(event, clock);
    let asked = fault_in(&outcome);
    state.seated = seats(enters, &outcome, state.seated);
    let left = say_to(state, desk, clock, reply_in(outcome));
    (asked, left)
}

// What is heard is done, and written down: whether it is anything.
fn act<D: Desk>(
    state: &mut SessionProgress,
    desk: &mut D,
    heard: Heard,
    clock: Moment,
    nonce: u64,
) -> bool
    requires asked { AwaitsBy heard state.old.session }
    requires room { HasRoom state.old }
    ensures acts { Acts heard clock nonce (progress state.old) (D.told desk.old) result
        (progress state.new) (D.told desk.new) }
    ensures seat { D.seat desk.new ≡ D.seat desk.old }
    ensures room { HasRoomToLeave state.new }
    ensures more { result ≡ false → HasRoom state.new }
{
    match heard {
        Heard::More => return false,
        Heard::Said => write_down(&mut state.steps, Step::Turn(clock, nonce, None, None)),
        Heard::Closes => {
            let left = leave(&mut state.seated, desk, clock);
            write_down(&mut state.steps, Step::Turn(clock, nonce, None, left));
        }
        Heard::Asks(event) => {
            let (asked, left) = settle(state, desk, event, clock);
            write_down(&mut state.steps, Step::Turn(clock, nonce, asked, left));
        }
    }
    true
}

/// One turn, with the event that it asks: whether anything was next. Fails only for want of memory, now or
/// before.
pub(crate) fn turn<D: Desk, S: Source>(
    state: &mut SessionProgress,
    users: &Users,
    desk: &mut D,
    source: &mut S,
) -> Result<bool, Memory>
    requires { HasRoomToLeave state.old }
    ensures turned { IfOk result (λ moved. Turns users.now moved (progress state.old) (D.told desk.old)
        (S.told source.old) (progress state.new) (D.told desk.new) (S.told source.new)) }
    ensures idle { OnErr result (Idles (progress state.old) (D.told desk.old) (S.told source.old)
        (progress state.new) (D.told desk.new) (S.told source.new)) }
    ensures seat { D.seat desk.new ≡ D.seat desk.old }
    ensures room { HasRoomToLeave state.new }
    ensures more { IfOk result (λ moved. moved ≡ false → HasRoom state.new) }
{
    if state.lost {
        return Err(Memory);
    }
    make_room(&mut state.steps)?;
    let clock = source.moment();
    let nonce = source.nonce();
    match state.unsent.hear(&mut state.session, users, nonce, clock) {
        Ok(heard) => Ok(act(state, desk, heard, clock, nonce)),
        Err(_) => {
            state.lost = true;
            Err(Memory)
        }
    }
}

/// Asks for what is pending, where the session may ask.
pub(crate) fn drain<D: Desk, S: Source>(state: &mut SessionProgress, desk: &mut D, source: &mut S)
    requires { HasRoom state.old }
    ensures drains { Drains (progress state.old) (D.told desk.old) (S.told source.old)
        (progress state.new) (D.told desk.new) (S.told source.new) }
    ensures seat { D.seat desk.new ≡ D.seat desk.old }
    ensures room { HasRoomToLeave state.new }
{
    let clock = source.moment();
    match state.session.drain() {
        Next::Ask(event) => {
            let (asked, left) = settle(state, desk, event, clock);
            write_down(&mut state.steps, Step::Drain(clock, asked, left));
        }
        _ => write_down(&mut state.steps, Step::Drain(clock, None, None)),
    }
}

/// The session's end: its seat is left, if it has one.
pub(crate) fn leave_at_end<D: Desk, S: Source>(
    state: &mut SessionProgress,
    desk: &mut D,
    source: &mut S,
)
    requires { HasRoomToLeave state.old }
    ensures left { LeavesAtEnd state.old.seated (progress state.old) (D.told desk.old) (S.told source.old)
        (progress state.new) (D.told desk.new) (S.told source.new) }
    ensures seat { D.seat desk.new ≡ D.seat desk.old }
    ensures room { HasRoomToLeave state.new }
{
    if !state.seated {
        return;
    }
    state.seated = false;
    state.session.close();
    let clock = source.moment();
    let outcome = desk.call(Event::Leave, clock);
    write_down(&mut state.steps, Step::Leave(clock, fault_in(&outcome)));
}
