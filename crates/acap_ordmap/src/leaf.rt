//! `Leaf`: up to 64 entries in the order of their keys, with room that is made once.
ghost use Rattle.std.specs.Prelude.{◌≡◌, ◌+◌, ◌-◌, ◌/◌, ◌++◌, ◌<◌, ◌≤◌, [], ◌∷◌, false, length, take, drop};
ghost use Rattle.std.specs.Prelude.{slice_index_or, slice_set, IfOk, IfSome, IfNone};
ghost use Rattle.std.specs.List.{insert};
ghost use Rattle.acap_ordmap.specs.Sorted.{is_tied, put_in, without, entry_of, InOrder};
ghost use Rattle.acap_ordmap.specs.Leaves.{leaf_capacity};

use crate::copying::{Copying, Memory};
use crate::probe::{Probe, Whole};
use crate::sorted::{place_of, put_there, take_out};
use std::alloc::Global;
use std::marker::Model;
use std::mem;

/// How many entries a leaf has room for.
pub(crate) const LEAF_CAPACITY: usize = 64;

/// A few entries, which contracts see as their list. Room for as many as may come is made with the leaf.
#[derive(Drop)]
pub struct Leaf<K, V> {
    entries: Vec<(K, V)>,
}

impl<K, V> Model for Leaf<K, V> {
    ghost use Rattle.std.specs.Prelude.{List, ◌≤◌, vec_len, vec_capacity};
    ghost use Rattle.acap_ordmap.specs.Leaves.{leaf_capacity};

    ghost Value = { List (K × V) };

    ghost view = { λ l. l.entries.items };

    ghost invariant = { λ l.
        (vec_len l.entries ≤ leaf_capacity) × (leaf_capacity ≤ vec_capacity l.entries) };
}

impl<K: Ord + Drop, V: Drop> Leaf<K, V> {
    /// None yet, with room for all that may come. Fails only for want of memory.
    pub(crate) fn new(alloc: Global) -> Result<Leaf<K, V>, Memory>
        ensures { IfOk result (λ made. made ≡ []) }
    {
        let entries = Vec::with_capacity(alloc, LEAF_CAPACITY)?;
        Ok(Leaf { entries })
    }

    /// The entries in the order of their keys.
    pub fn as_slice(&self) -> &[(K, V)]
        ensures { result.now ≡ self.now }
    {
        self.entries.as_slice()
    }

    /// The first entry.
    pub(crate) fn first(&self) -> &(K, V)
        requires { 0 < length self.now }
        ensures { result.now ≡ slice_index_or self.now 0 result.now }
    {
        &self.entries[0]
    }

    /// How many entries there are.
    pub fn len(&self) -> usize
        ensures value { result ≡ length self.now }
        ensures most { result ≤ leaf_capacity }
    {
        self.entries.len()
    }

    /// Sets the value of a key, which is there or for which there is room. Takes no memory.
    pub(crate) fn put(&mut self, key: K, value: V)
        requires room { is_tied K.cmp key self.old ≡ false → length self.old < leaf_capacity }
        requires sorted { InOrder K.cmp self.old }
        ensures value { self.new ≡ put_in K.cmp key value self.old }
        ensures grows { length self.old ≤ length self.new }
        ensures by_one { length self.new ≤ length self.old + 1 }
        ensures filled { 0 < length self.new }
    {
        let (at, tied) = place_of(self.entries.as_slice(), &Whole { key: &key });
        put_there(&mut self.entries, at, tied, key, value);
    }

    /// Puts an entry after all others. Takes no memory.
    pub(crate) fn push(&mut self, key: K, value: V)
        requires { length self.old < leaf_capacity }
        ensures { self.new ≡ self.old ++ (key, value) ∷ [] }
    {
        self.entries.push((key, value)).unwrap();
    }

    /// Takes a key's entry out and gives it, if there is one.
    pub(crate) fn take_out<Q: Probe<K>>(&mut self, probe: &Q) -> Option<(K, V)>
        requires { InOrder K.cmp self.old }
        ensures taken { result ≡ entry_of K.cmp (Q.key probe.now) self.old }
        ensures value { self.new ≡ without K.cmp (Q.key probe.now) self.old }
        ensures some { IfSome result (λ _. length self.new + 1 ≡ length self.old) }
        ensures none { IfNone result (length self.new ≡ length self.old) }
    {
        take_out(&mut self.entries, probe)
    }

    /// Puts an entry in at a place, in the room that there is. Takes no memory.
    pub(crate) fn insert(&mut self, place: usize, key: K, value: V)
        requires room { length self.old < leaf_capacity }
        requires within { place ≤ length self.old }
        ensures { self.new ≡ insert self.old place (key, value) }
    {
        self.entries.insert(place, (key, value)).unwrap();
    }

    /// Puts an entry in the place of another, and gives that one. Takes no memory.
    pub(crate) fn exchange(&mut self, place: usize, key: K, value: V) -> (K, V)
        requires { place < length self.old }
        ensures taken { result ≡ slice_index_or self.old place result }
        ensures value { self.new ≡ slice_set self.old place (key, value) }
    {
        mem::replace(&mut self.entries[place], (key, value))
    }

    /// Takes all entries out.
    pub(crate) fn clear(&mut self)
        ensures { self.new ≡ [] }
    {
        self.entries.clear();
    }

    /// Moves all but the first `kept` entries into an empty leaf. Takes no memory.
    pub(crate) fn split(&mut self, later: &mut Leaf<K, V>, kept: usize)
        requires empty { later.old ≡ [] }
        requires within { kept ≤ length self.old }
        ensures earlier { self.new ≡ take kept self.old }
        ensures later { later.new ≡ drop kept self.old }
    {
        for _ in kept..self.entries.len() {
            let entry = self.entries.pop().unwrap();
            later.entries.push(entry).unwrap();
        }
        later.entries.reverse();
    }
}

impl<K: Ord + Copying + Drop, V: Copying + Drop> Copying for Leaf<K, V> {
    fn copy(&self) -> Result<Leaf<K, V>, Memory> {
        let mut entries = Vec::with_capacity(*self.entries.allocator(), LEAF_CAPACITY)?;
        for entry in &self.entries {
            entries.push(entry.copy()?)?;
        }
        Ok(Leaf { entries })
    }
}
