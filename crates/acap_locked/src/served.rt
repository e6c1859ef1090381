//! `Served`: a book behind a lock, which many threads call.
ghost use Rattle.std.specs.Prelude.{◌≡◌, ◌+◌, IfOk, OnErr, OnOk, length, sum};
ghost use Rattle.acap_locked.specs.Calls.{Gains};
ghost use Rattle.acap_locked.specs.Closing.{IsClosed};
ghost use Rattle.acap_locked.specs.History.{IsLegal};
ghost use Rattle.acap_locked.specs.Passes.{calls_of, new_passes};
ghost use Rattle.acap_locked.specs.Shelf.{Shelf};

use crate::book::Book;
use crate::call::Answer;
use crate::close_fault::CloseFault;
use crate::locking::lock;
use crate::pass::Pass;
use crate::report::Report;
use crate::site::Site;
use acap_commands::{Event, Fault};
use acap_entries::{Memory, Moment, Steps};
use acap_machine::State;
use std::alloc::Global;
use std::sync::ledger::{Blank, Ledger};
use std::sync::{Mutex, Wait};

/// The book behind a lock, for many threads (RFC 2244 section 2).
#[derive(Drop)]
pub struct Served<S: Site, L: Ledger> {
    book: Mutex<Book<S, L>>,
}

impl<S: Site, L: Ledger> Served<S, L> {
    /// A book that begins with the state, and a pass for each of the 64 seats. Fails only for want of memory.
    pub fn new(
        alloc: Global,
        blank: Blank,
        state: State,
        steps: Steps<L>,
    ) -> Result<(Served<S, L>, Vec<Pass<S>>), Memory>
        requires name { blank.name ≡ S.name }
        requires parts { blank.parts ≡ S.parts }
        requires seats { blank.parts ≡ 64 }
        requires base { state.machine ≡ S.base }
        ensures { IfOk result (λ made. made.1.items ≡ new_passes 64) }
    {
        let (book, passes) = Book::new(alloc, blank, state, steps)?;
        Ok((
            Served {
                book: Mutex::new(book),
            },
            passes,
        ))
    }

    /// Performs one event at the pass's seat, as `Book::serve` does. It may wait for the lock.
    pub fn call(
        &self,
        rt: &impl Wait,
        pass: &mut Pass<S>,
        event: Event,
        now: Moment,
    ) -> Result<Answer, Fault>
        ensures ok { IfOk result (λ answer. Gains pass.old event now answer pass.new) }
        ensures err { OnErr result (pass.new ≡ pass.old) }
    {
        lock(&self.book, rt).serve(pass, event, now)
    }

    /// Closes the book, as `Book::close` does: its history is legal.
    pub fn close(self, passes: Vec<Pass<S>>) -> Result<Report, CloseFault>
        ensures closed { (shelf : Shelf) × IsLegal S.base shelf × IsClosed passes.items shelf result
            × OnOk result (calls_of passes.items ≡ sum shelf.retired + length shelf.history) }
        ensures number { OnOk result (length passes.items ≡ 64) }
    {
        self.book.into_inner().close(passes)
    }
}
