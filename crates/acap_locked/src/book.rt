//! `Book`: the machine, and the history of the calls by which it came to be.
ghost use Rattle.std.specs.Prelude.{◌≡◌, ◌<◌, ◌+◌, Err, IfOk, IfErr, OnErr, OnOk, length, sum};
ghost use Rattle.acap_locked.specs.Calls.{IsCalled, IsRefused, IsServed};
ghost use Rattle.acap_locked.specs.Epochs.{Turns};
ghost use Rattle.acap_locked.specs.History.{IsLegal};
ghost use Rattle.acap_locked.specs.Passes.{calls_of, new_passes};
ghost use Rattle.acap_locked.specs.Shelf.{new_shelf};

use crate::call::Answer;
use crate::close_fault::CloseFault;
use crate::closing::{find_missing, find_unequal, gather};
use crate::history_entry::HistoryEntry;
use crate::pass::{Pass, make_passes};
use crate::performing::perform;
use crate::recorded::{Mark, Recorded};
use crate::report::Report;
use crate::retiring::{gain, make_room, retire_all, set_aside};
use crate::rings::{flags_after, seats_to_ring};
use crate::room::push_in_room;
use crate::site::Site;
use acap_commands::{Event, Fault};
use acap_entries::{Memory, Moment, Sequence, Steps};
use acap_machine::State;
use std::alloc::Global;
use std::marker::Model;
use std::sync::ledger;
use std::sync::ledger::{Blank, Ledger, Share};

/// The calls of an epoch after which a new one is begun, where there is memory for it.
const EPOCH_CALLS: u64 = 500_000;

/// The most calls that a history holds.
const HISTORY_CALLS: u64 = 1_000_000;

/// The greatest number of an epoch, and the most calls of epochs that are over.
const COUNT_LIMIT: u64 = 1 << 62;

// An equal machine in a box of its own. Fails only for want of memory.
fn copy_in_box(alloc: Global, state: &State) -> Result<Box<State>, Memory>
    ensures { IfOk result (λ made. made.value.machine ≡ state.now.machine) }
{
    let copy = state.copy()?;
    Ok(Box::new(alloc, copy)?)
}

// An event is refused, and let go here alone: the proof of what drops it at each exit is long.
fn refuse(_event: Event, fault: Fault) -> Result<Answer, Fault>
    ensures { result ≡ Err fault }
{
    Err(fault)
}

/// The machine, and how it came to be (RFC 2244 section 2): it is always what the calls of its history make of the machine with which
/// their epoch began, and all calls that were ever made are counted in one ledger.
#[derive(Drop)]
pub struct Book<S: Site, L: Ledger> {
    // In boxes, so that a book moves little.
    state: Box<State>,
    history: Vec<HistoryEntry>,
    // Calls of epochs that are over, until they are freed. No contract sees them.
    spent: Vec<HistoryEntry>,
    flags: u64,
    epoch: u64,
    base: Box<State>,
    retired: Vec<u64>,
    // The sum of `retired`.
    gone: u64,
    ledger: ledger::Book<S>,
    // Of no part, until the book is closed.
    gathered: Share<S>,
    steps: Steps<L>,
}

impl<S: Site, L: Ledger> Model for Book<S, L> {
    ghost use Rattle.std.specs.Prelude.{◌≡◌};
    ghost use Rattle.acap_locked.specs.History.{IsKept};
    ghost use Rattle.acap_locked.specs.Shelf.{Shelf, shelf_code, shelf_of};

    ghost Value = { Shelf };

    ghost coded = { shelf_code };

    ghost view = { λ b.
        shelf_of b.state.value.machine b.history.items b.flags b.epoch b.base.value.machine b.retired.items };

    ghost invariant = { λ b.
        IsKept S.base
        (shelf_of b.state.value.machine b.history.items b.flags b.epoch b.base.value.machine b.retired.items)
        b.ledger.total b.gone
        × (S.parts ≡ 64) × (b.gathered.parts ≡ 0) × (b.gathered.amount ≡ 0) };
}

impl<S: Site, L: Ledger> Book<S, L> {
    ghost use Rattle.acap_locked.specs.Closing.{IsClosed, IsCompared, IsReport, IsWhole};

    /// A book that begins with the state, and a pass for each of the 64 seats. Whatever the machine of the book counts is counted by
    /// `steps`. Fails only for want of memory.
    pub fn new(
        alloc: Global,
        blank: Blank,
        state: State,
        steps: Steps<L>,
    ) -> Result<(Book<S, L>, Vec<Pass<S>>), Memory>
        requires name { blank.name ≡ S.name }
        requires parts { blank.parts ≡ S.parts }
        requires seats { blank.parts ≡ 64 }
        requires base { state.machine ≡ S.base }
        ensures book { IfOk result (λ made. made.0 ≡ new_shelf state.machine) }
        ensures passes { IfOk result (λ made. made.1.items ≡ new_passes 64) }
    {
        let (ledger, mut share) = blank.open::<S>();
        let gathered = share.empty();
        let passes = make_passes(alloc, share)?;
        let base = copy_in_box(alloc, &state)?;
        let state = Box::new(alloc, state)?;
        let retired = vec![in alloc; 0; 64]?;
        let book = Book {
            state,
            history: Vec::new(alloc),
            spent: Vec::new(alloc),
            flags: 0,
            epoch: 0,
            base,
            retired,
            gone: 0,
            ledger,
            gathered,
            steps,
        };
        Ok((book, passes))
    }

    /// The calls of this epoch in their order, which lead from its base to the machine.
    pub fn history(&self) -> &[HistoryEntry]
        ensures entries { result.now ≡ self.now.history }
        ensures legal { IsLegal S.base self.now }
    {
        self.history.as_slice()
    }

    // Begins a new epoch, where the history is long, and if there is memory and a number for it.
    fn turn(&mut self)
        ensures { Turns self.old self.new }
    {
        let count = self.history.len() as u64;
        if count < EPOCH_CALLS
            || self.epoch >= COUNT_LIMIT
            || count > COUNT_LIMIT
            || self.gone > COUNT_LIMIT - count
        {
            return;
        }
        let Ok(base) = copy_in_box(*self.history.allocator(), &self.state) else {
            return;
        };
        retire_all(&mut self.retired, &self.history);
        self.gone += count;
        self.base = base;
        self.epoch += 1;
        set_aside(&mut self.history, &mut self.spent);
    }

    /// Performs one event at the pass's seat when the clock shows that moment: exactly one step of the machine, which becomes the last
    /// call of the history and the last item of the pass. Where the history is long, it tries to begin a new epoch first. A fault
    /// leaves the machine, the flags and the pass as they were.
    pub fn serve(&mut self, pass: &mut Pass<S>, event: Event, now: Moment) -> Result<Answer, Fault>
        ensures ok { IfOk result (λ answer. IsServed self.old pass.old event now answer self.new pass.new) }
        ensures fault { IfErr result (λ fault. IsRefused self.new pass.old.seat event now fault) }
        ensures err { OnErr result (Turns self.old self.new × (pass.new ≡ pass.old)) }
    {
        self.turn();
        self.serve_here(pass, event, now)
    }

    // The same in this epoch.
    fn serve_here(&mut self, pass: &mut Pass<S>, event: Event, now: Moment) -> Result<Answer, Fault>
        ensures ok { IfOk result (λ answer. IsCalled self.old pass.old event now answer self.new pass.new) }
        ensures fault { IfErr result (λ fault. IsRefused self.old pass.old.seat event now fault) }
        ensures err { OnErr result ((self.new ≡ self.old) × (pass.new ≡ pass.old)) }
    {
        let place = self.history.len() as u64;
        if place >= HISTORY_CALLS {
            return refuse(event, Fault::HistoryFull);
        }
        if make_room(&mut self.history, &mut self.spent).is_err()
            || make_room(&mut pass.items, &mut pass.spent).is_err()
        {
            return refuse(event, Fault::Memory);
        }
        let flags = flags_after(pass.seat, &event, self.flags);
        let alloc = *self.history.allocator();
        let mark = Mark {
            seat: pass.seat,
            epoch: self.epoch,
            place,
        };
        let done = perform(alloc, &mut self.state, mark, event, now, &mut self.steps)?;
        let Recorded { entry, item, kept } = done.written;
        self.ledger.audit(&mut pass.share);
        gain(
            &mut pass.items,
            &mut pass.spent,
            &mut pass.retired,
            &mut pass.epoch,
            self.epoch,
            item,
        );
        push_in_room(&mut self.history, entry);
        self.ledger.add(&mut pass.share, 1);
        let rings = seats_to_ring(done.waiting, flags);
        self.flags = flags | rings;
        Ok(Answer {
            epoch: self.epoch,
            place,
            reply: done.reply,
            kept: Some(kept),
            rings,
        })
    }

    // That each seat has a pass, and each pass holds its seat's calls; else the least seat for which it isn't so.
    fn compare(&self, passes: &[Pass<S>]) -> Result<(), CloseFault>
        ensures { IsCompared passes.now self.now result }
    {
        if let Some(seat) = find_missing(passes) {
            return Err(CloseFault::PassMissing(seat));
        }
        if let Some(seat) = find_unequal(passes, self.epoch, &self.history, &self.retired) {
            return Err(CloseFault::Unequal(seat));
        }
        Ok(())
    }

    // The history and the passes, which agree.
    #[tactic(auto, using(crate::proofs::Passed::here_number))]
    fn into_report(self, passes: Vec<Pass<S>>) -> Result<Report, Memory>
        requires { IsWhole passes.items self }
        ensures report { IfOk result (λ report. IsReport passes.items self report) }
        ensures number { OnOk result (length passes.items ≡ 64) }
        ensures counted { OnOk result (calls_of passes.items ≡ sum self.retired + length self.history) }
    {
        let alloc = *self.history.allocator();
        let Book {
            state: _,
            history,
            spent: _,
            flags: _,
            epoch,
            base,
            retired,
            gone: _,
            mut ledger,
            mut gathered,
            steps: _,
        } = self;
        let passes = gather(alloc, &mut ledger, &mut gathered, epoch, passes)?;
        ledger.audit(&mut gathered);
        Ok(Report {
            epoch,
            base,
            history: Sequence::from_vec(history),
            retired: Sequence::from_vec(retired),
            passes,
        })
    }

    /// Compares the passes with the history, and gives both where they agree: then there are 64 passes, one of each seat, and all calls
    /// that were ever made are those of the history and those that were counted before.
    pub fn close(self, passes: Vec<Pass<S>>) -> Result<Report, CloseFault>
        ensures closed { IsClosed passes.items self result }
        ensures legal { IsLegal S.base self }
        ensures number { OnOk result (length passes.items ≡ 64) }
        ensures counted { OnOk result (calls_of passes.items ≡ sum self.retired + length self.history) }
    {
        self.compare(&passes)?;
        match self.into_report(passes) {
            Ok(report) => Ok(report),
            Err(_) => Err(CloseFault::Memory),
        }
    }
}
