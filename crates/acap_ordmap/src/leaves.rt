//! Entries in the order of their keys, in leaves: an edit moves a part of one leaf, in whatever order edits
//! come.
ghost use Rattle.std.specs.Prelude.{◌≡◌, ◌+◌, ◌-◌, ◌/◌, ◌^◌, ◌++◌, ◌<◌, ◌≤◌, [], ◌∷◌, length, min};
ghost use Rattle.std.specs.Prelude.{vec_len, vec_capacity, OnOk, IfOk};
ghost use Rattle.acap_ordmap.specs.Sorted.{InOrder, place, put_in, without, entry_of};
ghost use Rattle.acap_ordmap.specs.Leaves.{contents, entry_count, AreFilled};
ghost use Rattle.acap_ordmap.specs.Replacing.{replaced};

use crate::copying::{Copying, Memory, copy_all};
use crate::leaf::{LEAF_CAPACITY, Leaf};
use crate::leaf_edits::{
    has_room_behind, push_last, push_leaf, put_at, put_behind, room_for, take_out_at,
};
use crate::leaf_search::leaf_of;
use crate::probe::{Probe, Whole};
use crate::replacing::{Finger, exchange_at, insert_at, seek};
use std::alloc::Global;
use std::marker::Model;

/// Entries in the order of their keys, which contracts see as their list, and beside it the number of entries
/// more that there is room for.
#[derive(Drop)]
pub struct Leaves<K, V> {
    leaves: Vec<Leaf<K, V>>,
    spare: Vec<Leaf<K, V>>,
    count: usize,
}

impl<K, V> Model for Leaves<K, V> {
    ghost use Rattle.std.specs.Prelude.{◌≡◌, ℕ, List, vec_len};
    ghost use Rattle.acap_ordmap.specs.Leaves.{contents, entry_count, weight, most_leaves};
    ghost use Rattle.acap_ordmap.specs.Leaves.{room_of, AreFilled};
    ghost use Rattle.acap_ordmap.specs.Room.{free_of};

    ghost Value = { List (K × V) × ℕ };

    ghost view = { λ l. (
      contents l.leaves.items,
      room_of (vec_len l.spare) (free_of l.leaves)
          (most_leaves l.leaves l.spare) (weight l.leaves.items) l.count,
    ) };

    ghost invariant = { λ l. AreFilled l.leaves.items × (l.count ≡ entry_count l.leaves.items) };
}

impl<K: Ord + Drop, V: Drop> Leaves<K, V> {
    /// None yet. Takes no memory.
    pub fn new(alloc: Global) -> Leaves<K, V>
        ensures { result.0 ≡ [] }
    {
        Leaves {
            leaves: Vec::new(alloc),
            spare: Vec::new(alloc),
            count: 0,
        }
    }

    /// None yet, with places for the leaves of `count` entries. Fails only for want of memory.
    pub(crate) fn with_capacity(alloc: Global, count: usize) -> Result<Leaves<K, V>, Memory>
        ensures { IfOk result (λ made. made.0 ≡ []) }
    {
        let leaves = Vec::with_capacity(alloc, count / LEAF_CAPACITY + 1)?;
        Ok(Leaves {
            leaves,
            spare: Vec::new(alloc),
            count: 0,
        })
    }

    /// How many entries there are.
    pub fn len(&self) -> usize
        ensures { result ≡ length self.now.0 }
    {
        self.count
    }

    /// The leaves in their order, each with an entry.
    pub fn as_slice(&self) -> &[Leaf<K, V>]
        ensures items { contents result.now ≡ self.now.0 }
        ensures filled { AreFilled result.now }
        ensures counted { entry_count result.now < 2 ^ 64 }
    {
        // The entries are as many as a number counts.
        let _count = self.count;
        self.leaves.as_slice()
    }

    /// Makes room for `more` entries: a spare leaf for each, but no more than there are leaves, and one
    /// for each 16 of the entries, and two. The entries stay, and room never shrinks, also where memory is
    /// refused.
    pub fn reserve(&mut self, more: usize) -> Result<(), Memory>
        ensures entries { self.new.0 ≡ self.old.0 }
        ensures grows { self.old.1 ≤ self.new.1 }
        ensures room { OnOk result (more ≤ self.new.1) }
    {
        if usize::MAX - self.count < more {
            return Err(Memory);
        }
        let wanted = leaves_for(self.leaves.len(), more);
        self.leaves.reserve(wanted)?;
        make_spare(&mut self.spare, wanted)?;
        if wanted < more {
            self.spare.reserve(self.leaves.len())?;
        }
        Ok(())
    }

    /// Sets the value of a key, in the room that there is. Takes no memory.
    pub fn put(&mut self, key: K, value: V)
        requires room { 0 < self.old.1 }
        requires sorted { InOrder K.cmp self.old.0 }
        ensures entries { self.new.0 ≡ put_in K.cmp key value self.old.0 }
        ensures room { self.old.1 ≤ self.new.1 + 1 }
    {
        match room_for(&mut self.leaves, &mut self.spare, &Whole { key: &key }) {
            Some(at) => self.count += put_at(&mut self.leaves, at, key, value),
            None => {
                let leaf = self.spare.pop().unwrap();
                put_behind(&mut self.leaves, leaf, key, value);
                self.count += 1;
            }
        }
    }

    /// Takes a key's entry out and gives it, if there is one. Takes no memory.
    pub fn take_out<Q: Probe<K>>(&mut self, probe: &Q) -> Option<(K, V)>
        requires { InOrder K.cmp self.old.0 }
        ensures taken { result ≡ entry_of K.cmp (Q.key probe.now) self.old.0 }
        ensures entries { self.new.0 ≡ without K.cmp (Q.key probe.now) self.old.0 }
        ensures room { self.old.1 ≤ self.new.1 }
    {
        if self.leaves.is_empty() {
            return None;
        }
        let at = leaf_of(self.leaves.as_slice(), probe);
        let taken = take_out_at(&mut self.leaves, &mut self.spare, at, probe)?;
        self.count -= 1;
        Some(taken)
    }

    /// Puts an entry in, in the room that there is, and takes out the one whose key ties with its key, if
    /// there is one. Answers how many entries stand before it, and the one taken out. It is looked for at the
    /// finger first, which points at its place then. Takes no memory.
    pub(crate) fn replace(
        &mut self,
        key: K,
        value: V,
        finger: &mut Finger,
    ) -> (usize, Option<(K, V)>)
        requires room { 0 < self.old.1 }
        requires sorted { InOrder K.cmp self.old.0 }
        ensures place { result.0 ≡ place K.cmp key self.old.0 }
        ensures within { result.0 < length self.new.0 }
        ensures taken { result.1 ≡ entry_of K.cmp key self.old.0 }
        ensures entries { self.new.0 ≡ replaced K.cmp key value self.old.0 }
        ensures room { self.old.1 ≤ self.new.1 + 1 }
    {
        if self.leaves.is_empty() {
            self.put(key, value);
            return (0, None);
        }
        let slot = seek(self.leaves.as_slice(), &Whole { key: &key }, *finger);
        *finger = slot.finger();
        if slot.is_there {
            let old = exchange_at(&mut self.leaves, slot, key, value);
            return (slot.rank, Some(old));
        }
        if self.leaves[slot.leaf].len() < LEAF_CAPACITY {
            insert_at(&mut self.leaves, slot, key, value);
            self.count += 1;
            return (slot.rank, None);
        }
        self.put(key, value);
        (slot.rank, None)
    }

    /// Puts an entry after all others, in a leaf that is filled first. Fails only for want of memory.
    pub(crate) fn push(&mut self, key: K, value: V) -> Result<(), Memory>
        requires { length self.old.0 < 2 ^ 64 - 1 }
        ensures { OnOk result (self.new.0 ≡ self.old.0 ++ (key, value) ∷ []) }
    {
        if has_room_behind(self.leaves.as_slice()) {
            push_last(&mut self.leaves, key, value);
        } else {
            push_leaf(&mut self.leaves, key, value)?;
        }
        self.count += 1;
        Ok(())
    }
}

// How many spare leaves make room for `more` entries, where there are `leaves` leaves.
fn leaves_for(leaves: usize, more: usize) -> usize
    ensures { result ≡ min more (leaves + more / 16 + 2) }
{
    let few = more / 16 + 2;
    if more < few || more - few < leaves {
        more
    } else {
        leaves + few
    }
}

// Makes empty leaves until there are `wanted`.
fn make_spare<K: Ord + Drop, V: Drop>(
    spare: &mut Vec<Leaf<K, V>>,
    wanted: usize,
) -> Result<(), Memory>
    ensures grows { vec_len spare.old ≤ vec_len spare.new }
    ensures capacity { vec_capacity spare.old ≤ vec_capacity spare.new }
    ensures ok { OnOk result (wanted ≤ vec_len spare.new) }
{
    let alloc = *spare.allocator();
    for _ in spare.len()..wanted {
        spare.push(Leaf::new(alloc)?)?;
    }
    Ok(())
}

impl<K: Ord + Copying + Drop, V: Copying + Drop> Leaves<K, V> {
    /// Equal entries. Fails only for want of memory.
    pub fn copy(&self) -> Result<Leaves<K, V>, Memory>
        ensures { IfOk result (λ made. made.0 ≡ self.now.0) }
    {
        let leaves = copy_all(&self.leaves)?;
        Ok(Leaves {
            leaves,
            spare: Vec::new(*self.spare.allocator()),
            count: self.count,
        })
    }
}
