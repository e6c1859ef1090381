//! `Ranked`: items in their own order, which knows how many stand before a key.
ghost use Rattle.std.specs.Prelude.{◌≡◌, ◌↔◌, ◌+◌, ◌<◌, ◌≤◌, [], length, slice_get, IsOk, IfOk, IfErr, OnOk};
ghost use Rattle.std.specs.Option.{option_copied, option_map};
ghost use Rattle.acap_ordmap.specs.Ranks.{Ascending, rank_of, item_at, with_item, without_item};

use crate::copying::{Copying, Memory};
use crate::counting::{count_before, entry_at};
use crate::from_sorted::{ascend, into_leaves};
use crate::leaf_search::entry_among;
use crate::leaves::Leaves;
use crate::probe::Probe;
use crate::ranking::Ranking;
use crate::replacing::Finger;
use std::alloc::Global;
use std::marker::Model;

/// Items that strictly ascend, which contracts see as their list, and beside it the number of items more that there
/// is room for. They lie in leaves, so that an edit moves a part of one leaf and a rank adds up the sizes
/// of the leaves before it. What is large stands in a `Boxed`.
#[derive(Drop)]
pub struct Ranked<T: Ord> {
    entries: Leaves<T, ()>,
}

impl<T: Ord> Model for Ranked<T> {
    ghost use Rattle.std.specs.Prelude.{ℕ, List, map};
    ghost use Rattle.acap_ordmap.specs.Sorted.{InOrder};

    ghost Value = { List T × ℕ };

    ghost view = { λ r. (map (λ e. e.0) r.entries.0, r.entries.1) };

    ghost invariant = { λ r. InOrder T.cmp r.entries.0 };
}

// An item that has nothing beside it.
fn alone<T: Drop>(entry: Option<(T, ())>) -> Option<T>
    ensures { result ≡ option_map (λ e. e.0) entry }
{
    match entry {
        Some((item, ())) => Some(item),
        None => None,
    }
}

impl<T: Ord + Drop> Ranked<T> {
    /// None yet. Takes no memory.
    pub fn new(alloc: Global) -> Ranked<T>
        ensures { result.0 ≡ [] }
    {
        Ranked {
            entries: Leaves::new(alloc),
        }
    }

    /// Those items, at once in leaves that are filled, if each is greater than the one before it; else they are given
    /// back. Fails only for want of memory, and then the items are gone.
    pub fn from_ascending(items: Vec<T>) -> Result<Result<Ranked<T>, Vec<T>>, Memory>
        ensures order { IfOk result (λ made. IsOk made ↔ Ascending T.cmp items.items) }
        ensures value { IfOk result (λ made. IfOk made (λ ranked. ranked.0 ≡ items.items)) }
        ensures same { IfOk result (λ made. IfErr made (λ same. same.items ≡ items.items)) }
    {
        if !ascend(items.as_slice()) {
            return Ok(Err(items));
        }
        let entries = into_leaves(items)?;
        Ok(Ok(Ranked { entries }))
    }

    /// What is so of all items: each is less than those after it.
    pub fn ascends(&self)
        ensures { Ascending T.cmp self.now.0 }
    {
        let _count = self.entries.len();
    }

    /// How many items there are.
    pub fn len(&self) -> usize
        ensures { result ≡ length self.now.0 }
    {
        self.entries.len()
    }

    /// The items in their order. Takes no memory.
    pub fn iter(&self) -> Ranking<'_, T>
        ensures { result ≡ self.now.0 }
    {
        Ranking {
            front: &[],
            leaves: self.entries.as_slice(),
            left: self.entries.len(),
        }
    }

    /// The item at an index, if there is one.
    pub fn get(&self, index: usize) -> Option<&T>
        ensures { option_copied result ≡ slice_get self.now.0 index }
    {
        Some(&entry_at(self.entries.as_slice(), index)?.0)
    }

    /// How many items are less than the key that a probe stands for.
    pub fn rank<Q: Probe<T>>(&self, probe: &Q) -> usize
        ensures value { result ≡ rank_of T.cmp (Q.key probe.now) self.now.0 }
        ensures within { result ≤ length self.now.0 }
    {
        let leaves = self.entries.as_slice();
        if leaves.is_empty() {
            return 0;
        }
        count_before(leaves, probe)
    }

    /// The item that ties with the key that a probe stands for, if there is one.
    pub fn find<Q: Probe<T>>(&self, probe: &Q) -> Option<&T>
        ensures { option_copied result ≡ item_at T.cmp (Q.key probe.now) self.now.0 }
    {
        Some(&entry_among(self.entries.as_slice(), probe)?.0)
    }

    /// Makes room for `more` items. The items stay, and room never shrinks, also where memory is refused.
    pub fn reserve(&mut self, more: usize) -> Result<(), Memory>
        ensures items { self.new.0 ≡ self.old.0 }
        ensures grows { self.old.1 ≤ self.new.1 }
        ensures room { OnOk result (more ≤ self.new.1) }
    {
        self.entries.reserve(more)
    }

    /// Puts an item in its place, in the room that there is. Where one ties with it, that one stays alone. Takes no
    /// memory.
    pub fn put(&mut self, item: T)
        requires { 0 < self.old.1 }
        ensures items { self.new.0 ≡ with_item T.cmp item self.old.0 }
        ensures room { self.old.1 ≤ self.new.1 + 1 }
    {
        self.entries.put(item, ());
    }

    /// Takes the item out that ties with the key that a probe stands for, and gives it, if there is one. Takes no
    /// memory.
    pub fn take<Q: Probe<T>>(&mut self, probe: &Q) -> Option<T>
        ensures taken { result ≡ item_at T.cmp (Q.key probe.now) self.old.0 }
        ensures items { self.new.0 ≡ without_item T.cmp (Q.key probe.now) self.old.0 }
        ensures room { self.old.1 ≤ self.new.1 }
    {
        let (item, ()) = self.entries.take_out(probe)?;
        Some(item)
    }

    /// Puts an item in its place, in the room that there is, and takes out the one that ties with it, if there is one: reports how many
    /// items are less, and gives that one. It is looked for once, at the finger first, which points at its place then: in lists that
    /// are alike the same item stands at the same place. Where one ties with it no other is moved. Takes no memory.
    pub fn replace(&mut self, item: T, finger: &mut Finger) -> (usize, Option<T>)
        requires { 0 < self.old.1 }
        ensures place { result.0 ≡ rank_of T.cmp item self.old.0 }
        ensures within { result.0 < length self.new.0 }
        ensures taken { result.1 ≡ item_at T.cmp item self.old.0 }
        ensures items { self.new.0 ≡ with_item T.cmp item (without_item T.cmp item self.old.0) }
        ensures room { self.old.1 ≤ self.new.1 + 1 }
    {
        let (rank, old) = self.entries.replace(item, (), finger);
        (rank, alone(old))
    }
}

impl<T: Ord + Copying + Drop> Ranked<T> {
    /// Equal items. Fails only for want of memory.
    pub fn copy(&self) -> Result<Ranked<T>, Memory>
        ensures { IfOk result (λ made. made.0 ≡ self.now.0) }
    {
        let entries = self.entries.copy()?;
        Ok(Ranked { entries })
    }
}
