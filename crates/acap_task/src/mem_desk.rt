//! `MemDesk`: a desk for tests, over a machine in memory.
ghost use Rattle.std.specs.Prelude.{◌≡◌, ◌++◌, ◌∷◌, [], Ok, Some, IfOk, IfErr, drop};
ghost use Rattle.acap_commands.specs.declared.event.Fault.TheVariants as fault;
ghost use Rattle.acap_locked.specs.Notes.{call_of};
ghost use Rattle.acap_task.specs.Desks.{IsFault};
ghost use Rattle.acap_task.specs.Told.{after_call, new_desk};

use crate::count::count_up;
use crate::desk::Desk;
use acap_commands::{Event, Fault};
use acap_entries::{Copying, Moment};
use acap_locked::{Answer, Call};
use std::alloc::Global;
use std::collections::VecDeque;
use std::marker::Model;

/// A desk that gives the answers of a list, whatever is asked, and reports all: contracts see it as what it
/// reports, beside the answers that are left. Once there is none, each call is a fault.
#[derive(Drop)]
pub struct MemDesk {
    answers: VecDeque<Result<Answer, Fault>>,
    calls: Vec<Call>,
    faults: u64,
}

impl Model for MemDesk {
    ghost use Rattle.std.specs.Prelude.{Some};
    ghost use Rattle.acap_task.specs.Desks.{DeskNow, desk_code};

    ghost Value = { DeskNow };

    ghost coded = { desk_code };

    ghost view = { λ d. (record { calls = Some d.calls.items; faults = d.faults }, d.answers.items) };
}

impl MemDesk {
    /// A desk with these answers. Takes no memory.
    pub fn new(alloc: Global, answers: VecDeque<Result<Answer, Fault>>) -> MemDesk
        ensures { result ≡ (new_desk, answers.items) }
    {
        MemDesk {
            answers,
            calls: Vec::new(alloc),
            faults: 0,
        }
    }

    /// The calls that it answered with replies, in their order.
    pub fn calls(&self) -> &[Call]
        ensures { self.now.0.calls ≡ Some result.now }
    {
        self.calls.as_slice()
    }
}

// Keeps a call with its reply. Fails only for want of memory.
fn keep(
    calls: &mut Vec<Call>,
    event: Event,
    moment: Moment,
    answer: Answer,
) -> Result<Answer, Fault>
    ensures ok { IfOk result (λ made. made ≡ answer) }
    ensures kept { IfOk result
        (λ made. calls.new.items ≡ calls.old.items ++ call_of event moment made.reply ∷ []) }
    ensures err { IfErr result (λ f. (f ≡ fault.Memory) × (calls.new.items ≡ calls.old.items)) }
{
    let reply = answer.reply.copy()?;
    let call = Call {
        event,
        moment,
        reply,
    };
    if calls.push(call).is_err() {
        return Err(Fault::Memory);
    }
    Ok(answer)
}

// The next answer, with the call kept.
fn answer_from(
    answers: &mut VecDeque<Result<Answer, Fault>>,
    calls: &mut Vec<Call>,
    event: Event,
    moment: Moment,
) -> Result<Answer, Fault>
    ensures ok { IfOk result (λ answer. answers.old.items ≡ Ok answer ∷ answers.new.items) }
    ensures kept { IfOk result
        (λ answer. calls.new.items ≡ calls.old.items ++ call_of event moment answer.reply ∷ []) }
    ensures err { IfErr result (λ f. IsFault answers.old.items f × (calls.new.items ≡ calls.old.items)) }
    ensures rest { answers.new.items ≡ drop 1 answers.old.items }
{
    match answers.pop_front() {
        Some(Ok(answer)) => keep(calls, event, moment, answer),
        Some(Err(fault)) => Err(fault),
        None => Err(Fault::Memory),
    }
}

impl Desk for MemDesk {
    ghost told = { λ d. d.0 };

    fn call(&mut self, event: Event, moment: Moment) -> Result<Answer, Fault>
        ensures told { self.new.0 ≡ after_call self.old.0 event moment result }
        ensures ok { IfOk result (λ answer. self.old.1 ≡ Ok answer ∷ self.new.1) }
        ensures err { IfErr result (λ f. IsFault self.old.1 f) }
        ensures rest { self.new.1 ≡ drop 1 self.old.1 }
    {
        let outcome = answer_from(&mut self.answers, &mut self.calls, event, moment);
        if outcome.is_err() {
            self.faults = count_up(self.faults);
        }
        outcome
    }
}
