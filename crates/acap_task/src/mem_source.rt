//! `MemSource`: a source for tests, which gives listed moments and nonces.
ghost use Rattle.std.specs.Prelude.{◌≡◌, ◌≤◌, IsSome};
ghost use Rattle.acap_task.specs.Plans.{next_of, rest_of};
ghost use Rattle.acap_task.specs.Told.{gives_moment, gives_nonce, new_source};

use crate::plan::Replay;
use crate::source::Source;
use acap_entries::Moment;
use std::marker::Model;
use std::sync::ledger::{Blank, Book, Ledger};

/// A source that gives the moments of a list and then one moment again and again, and nonces in the same way.
/// It reports all: contracts see it as what it reports, beside the plans of its moments and of its nonces.
#[derive(Drop)]
pub struct MemSource<L: Ledger> {
    book: Book<L>,
    moments: Replay<Moment, L>,
    nonces: Replay<u64, L>,
}

impl<L: Ledger> Model for MemSource<L> {
    ghost use Rattle.std.specs.Prelude.{ℕ, ℤ, List, Some};
    ghost use Rattle.acap_task.specs.Told.{SourceTold};

    ghost Value = { SourceTold × ((List ℤ × ℤ) × (List ℕ × ℕ)) };

    ghost view = { λ s.
        (record { moments = Some s.moments.0; nonces = Some s.nonces.0 }, (s.moments.1, s.nonces.1)) };
}

impl<L: Ledger> MemSource<L> {
    /// A source of these moments and nonces, each a list and what is given from then on. Takes no memory:
    /// what is given again and again is counted in a ledger of at least two parts.
    pub fn new(
        blank: Blank,
        moments: Vec<Moment>,
        moment: Moment,
        nonces: Vec<u64>,
        nonce: u64,
    ) -> MemSource<L>
        requires name { blank.name ≡ L.name }
        requires parts { blank.parts ≡ L.parts }
        requires two { 2 ≤ L.parts }
        ensures { result ≡ (new_source, ((moments.items, moment), (nonces.items, nonce))) }
    {
        let (book, mut share) = blank.open::<L>();
        let other = share.split_off(1, 0);
        MemSource {
            book,
            moments: Replay::new(moments, moment, other),
            nonces: Replay::new(nonces, nonce, share),
        }
    }

    /// It reports both its moments and its nonces. Does nothing.
    pub fn tells_all(&self)
        ensures { IsSome self.now.0.moments × IsSome self.now.0.nonces }
    {
        // What is seen of a source is what its parts are, and the proof looks at them here.
        let _book = &self.book;
    }
}

impl<L: Ledger> Source for MemSource<L> {
    ghost told = { λ s. s.0 };

    fn moment(&mut self) -> Moment
        ensures told { self.new.0 ≡ gives_moment self.old.0 result }
        ensures given { result ≡ next_of self.old.1.0 }
        ensures rest { self.new.1 ≡ (rest_of self.old.1.0, self.old.1.1) }
    {
        self.moments.give(&mut self.book)
    }

    fn nonce(&mut self) -> u64
        ensures told { self.new.0 ≡ gives_nonce self.old.0 result }
        ensures given { result ≡ next_of self.old.1.1 }
        ensures rest { self.new.1 ≡ (self.old.1.0, rest_of self.old.1.1) }
    {
        self.nonces.give(&mut self.book)
    }
}
