//! Performs one event: it is made ready, written down, and put in place.
ghost use Rattle.std.specs.Prelude.{◌≡◌, IfOk, IfErr, OnErr};
ghost use Rattle.acap_locked.specs.Notes.{call_of, entry_of, item_of};
ghost use Rattle.acap_commands.specs.declared.event.Fault.TheVariants as faults;
ghost use Rattle.acap_machine.specs.Readied.{IsReadied, after_effect};
ghost use Rattle.acap_machine.specs.Stepping.{step_of, IsFault, Stepped};
ghost use Rattle.acap_views.specs.Waiting.{waiting as waiting_at};

use crate::call::Call;
use crate::recorded::{Mark, Recorded, write_down};
use crate::shared_call::SharedCall;
use acap_commands::{Event, Fault, Reply};
use acap_entries::{Copying, Memory, Moment, Steps};
use acap_machine::{Ready, State};
use std::alloc::Global;
use std::sync::ledger::Ledger;

/// What an event came to.
#[derive(Drop)]
pub(crate) struct Performed {
    /// What is answered.
    pub(crate) reply: Reply,
    /// What is left of it.
    pub(crate) written: Recorded,
    /// At which seats a drain has something to send afterwards.
    pub(crate) waiting: u64,
}

// The call, with a copy of its reply. Fails only for want of memory.
fn exchange_of(
    alloc: Global,
    event: Event,
    moment: Moment,
    reply: &Reply,
) -> Result<SharedCall, Memory>
    ensures { IfOk result (λ made. made ≡ call_of event moment reply.now) }
{
    let reply = reply.copy()?;
    SharedCall::new(
        alloc,
        Call {
            event,
            moment,
            reply,
        },
    )
}

// The call with that reply is written down. Fails only for want of memory.
fn write_call(
    alloc: Global,
    mark: Mark,
    event: Event,
    now: Moment,
    reply: &Reply,
) -> Result<Recorded, Memory>
    ensures entry { IfOk result (λ made. made.entry ≡ entry_of mark.seat (call_of event now reply.now)) }
    ensures item { IfOk result
        (λ made. made.item ≡ item_of mark.epoch mark.place (call_of event now reply.now)) }
    ensures kept { IfOk result
        (λ made. made.kept ≡ item_of mark.epoch mark.place (call_of event now reply.now)) }
{
    let exchange = exchange_of(alloc, event, now, reply)?;
    write_down(mark, exchange)
}

// What was made ready is put in place, once it is written down. Takes no memory.
fn put_in_place(state: &mut Box<State>, ready: Ready, written: Recorded) -> Performed
    requires { IsReadied ready state.old.value }
    ensures machine { state.new.value.machine
        ≡ after_effect ready.effect ready.seat state.old.value.machine }
    ensures reply { result.reply ≡ ready.reply }
    ensures written { result.written ≡ written }
    ensures waiting { result.waiting ≡ waiting_at state.new.value.machine.seats }
{
    let reply = state.apply(ready);
    Performed {
        reply,
        written,
        waiting: state.waiting(),
    }
}

// What was made ready is given up, since memory was refused: here alone, as the proof of what drops it is long.
fn give_up(_ready: Ready) -> Fault
    ensures { result ≡ faults.Memory }
{
    Fault::Memory
}

/// Performs one event of the mark's seat when the clock shows that moment. All that may be refused is done before it stands: a fault
/// leaves the machine as it was.
pub(crate) fn perform<L: Ledger>(
    alloc: Global,
    state: &mut Box<State>,
    mark: Mark,
    event: Event,
    now: Moment,
    steps: &mut Steps<L>,
) -> Result<Performed, Fault>
    ensures step { IfOk result
        (λ done. Stepped state.old.value.machine mark.seat event now done.reply state.new.value.machine) }
    ensures entry { IfOk result
        (λ done. done.written.entry ≡ entry_of mark.seat (call_of event now done.reply)) }
    ensures item { IfOk result
        (λ done. done.written.item ≡ item_of mark.epoch mark.place (call_of event now done.reply)) }
    ensures kept { IfOk result
        (λ done. done.written.kept ≡ item_of mark.epoch mark.place (call_of event now done.reply)) }
    ensures waiting { IfOk result (λ done. done.waiting ≡ waiting_at state.new.value.machine.seats) }
    ensures fault { IfErr result
        (λ fault. IsFault (step_of state.old.value.machine mark.seat event now) fault) }
    ensures err { OnErr result (state.new.value.machine ≡ state.old.value.machine) }
{
    let ready = state.ready(mark.seat, &event, now, steps)?;
    match write_call(alloc, mark, event, now, ready.reply()) {
        Ok(written) => Ok(put_in_place(state, ready, written)),
        Err(_) => Err(give_up(ready)),
    }
}
