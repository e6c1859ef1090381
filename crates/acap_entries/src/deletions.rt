//! `Deletion`, and the newest deletions that a store remembers for DELETEDSINCE.
ghost use Rattle.std.specs.Prelude.{◌≡◌, ◌≤◌, [], ◌∷◌, length, IfOk, OnOk, None};
ghost use Rattle.acap_entries.specs.Deletions.{HasSlots, IsAdded, deletions_at};

use crate::moment::Moment;
use crate::path::Path;
use crate::sequence::Sequence;
use acap_ordmap::{Copying, Memory};
use std::alloc::Global;
use std::collections::VecDeque;
use std::marker::Model;

/// How many deletions are kept.
const DELETIONS_KEPT: usize = 4_096;

/// That an entry stopped existing in its dataset, and when (RFC 2244 section 6.6.2).
#[derive(Clone, PartialEq, Eq, Drop)]
pub struct Deletion {
    /// Where the entry was.
    pub path: Path,
    /// The moment of the change that deleted it.
    pub moment: Moment,
}

impl Copying for Deletion {
    fn copy(&self) -> Result<Deletion, Memory> {
        self.clone()
    }
}

/// The newest deletions of a store in their order, and the moment of the newest other one, if there is one.
#[derive(Drop)]
pub(crate) struct Deletions {
    kept: VecDeque<Deletion>,
    forgotten: Option<Moment>,
}

impl Model for Deletions {
    ghost use Rattle.std.specs.Prelude.{◌≤◌, length};
    ghost use Rattle.std.specs.VecDeque.{deque_capacity};
    ghost use Rattle.acap_entries.specs.Deletions.{Remembered, deletions_kept, remembered_code};

    ghost Value = { Remembered };

    ghost coded = { remembered_code };

    ghost view = { λ d. record {
      kept = d.kept.items;
      forgotten = d.forgotten;
      slots = deque_capacity d.kept;
    } };

    ghost invariant = { λ d. length d.kept.items ≤ deletions_kept };
}

impl Deletions {
    /// None yet. Takes no memory.
    pub(crate) fn new(alloc: Global) -> Deletions
        ensures kept { result.kept ≡ [] }
        ensures forgotten { result.forgotten ≡ None }
    {
        Deletions {
            kept: VecDeque::new(alloc),
            forgotten: None,
        }
    }

    /// Those that are kept, in their order.
    pub(crate) fn kept(&self) -> &VecDeque<Deletion>
        ensures { result.now.items ≡ self.now.kept }
    {
        &self.kept
    }

    /// The moment of the newest that is not kept.
    pub(crate) fn forgotten(&self) -> Option<Moment>
        ensures { result ≡ self.now.forgotten }
    {
        self.forgotten
    }

    /// Makes room for `more` deletions. What is kept stays, and room never shrinks, also where memory is refused.
    pub(crate) fn reserve(&mut self, more: usize) -> Result<(), Memory>
        ensures kept { self.new.kept ≡ self.old.kept }
        ensures forgotten { self.new.forgotten ≡ self.old.forgotten }
        ensures grows { self.old.slots ≤ self.new.slots }
        ensures slots { OnOk result (HasSlots more self.new) }
    {
        let free = DELETIONS_KEPT - self.kept.len();
        self.kept.reserve(more.min(free))?;
        Ok(())
    }

    // Appends one, in the room that there is, and forgets the oldest where there are too many.
    fn add(&mut self, deletion: Deletion)
        requires { HasSlots 1 self.old }
        ensures added { IsAdded (deletion ∷ []) self.old self.new }
        ensures slots { self.new.slots ≡ self.old.slots }
    {
        if self.kept.len() < DELETIONS_KEPT {
            self.kept.push_back(deletion).unwrap();
            return;
        }
        let oldest = self.kept.pop_front().unwrap();
        self.forgotten = Some(oldest.moment);
        self.kept.push_back(deletion).unwrap();
    }

    /// Appends the deletions of some paths at a moment, in the room that there is. Takes no memory.
    pub(crate) fn add_all(&mut self, paths: Sequence<Path>, moment: Moment)
        requires { HasSlots (length paths) self.old }
        ensures { IsAdded (deletions_at paths moment) self.old self.new }
    {
        // That few enough are kept, which the loop starts from, is known of an opened value.
        let _ = &self.kept;
        for path in paths.into_vec() {
            self.add(Deletion { path, moment });
        }
    }

    /// As many, and equal. Fails only for want of memory.
    pub(crate) fn copy(&self) -> Result<Deletions, Memory>
        ensures kept { IfOk result (λ made. made.kept ≡ self.now.kept) }
        ensures forgotten { IfOk result (λ made. made.forgotten ≡ self.now.forgotten) }
    {
        let mut kept = VecDeque::with_capacity(*self.kept.allocator(), self.kept.len())?;
        for at in 0..self.kept.len() {
            kept.push_back(self.kept[at].copy()?)?;
        }
        Ok(Deletions {
            kept,
            forgotten: self.forgotten,
        })
    }
}
