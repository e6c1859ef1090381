//! Puts an entry into leaves or takes one out: a full leaf is split, an empty one laid by.
ghost use Rattle.std.specs.Prelude.{◌≡◌, ◌+◌, ◌++◌, ◌<◌, ◌≤◌, [], ◌∷◌, true, false, length, min, IsTrue};
ghost use Rattle.std.specs.Prelude.{slice_index_or, vec_len, vec_capacity, IfSome, IfNone, OnOk, OnErr};
ghost use Rattle.acap_ordmap.specs.Sorted.{InOrder, is_tied, put_in, without, entry_of};
ghost use Rattle.acap_ordmap.specs.Leaves.{contents, entry_count, split_at, weight, most_leaves};
ghost use Rattle.acap_ordmap.specs.Leaves.{last_leaf, leaf_capacity, AreFilled, IsAmong, IsBehind, EndsFull};

use crate::copying::Memory;
use crate::leaf::{LEAF_CAPACITY, Leaf};
use crate::leaf_search::{leaf_among, leaf_of};
use crate::probe::Probe;
use crate::sorted::place_of;

/// The fewest entries that stay in a full leaf that is split. Those that come before the new key stay, so that keys which ascend up
/// to others fill their leaves to more than half.
const KEPT_LEAST: usize = LEAF_CAPACITY / 2;

/// The most entries that stay there: the leaf takes 16 puts before it is split once more.
const KEPT_MOST: usize = 48;

/// Sets the value of a key in its leaf, which has room for it or has the key, and answers how many entries that adds.
pub(crate) fn put_at<K: Ord + Drop, V: Drop>(
    leaves: &mut Vec<Leaf<K, V>>,
    at: usize,
    key: K,
    value: V,
) -> usize
    requires among { IsAmong K.cmp key leaves.old.items at (at + 1) }
    requires room { is_tied K.cmp key (contents leaves.old.items) ≡ false
        → length (slice_index_or leaves.old.items at []) < leaf_capacity }
    requires filled { AreFilled leaves.old.items }
    requires sorted { InOrder K.cmp (contents leaves.old.items) }
    ensures items { contents leaves.new.items ≡ put_in K.cmp key value (contents leaves.old.items) }
    ensures filled { AreFilled leaves.new.items }
    ensures count { entry_count leaves.new.items ≡ entry_count leaves.old.items + result }
    ensures few { result ≤ 1 }
    ensures weight { weight leaves.new.items ≤ weight leaves.old.items + 1 }
    ensures len { vec_len leaves.new ≡ vec_len leaves.old }
    ensures capacity { vec_capacity leaves.old ≤ vec_capacity leaves.new }
{
    let leaf = &mut leaves[at];
    let count = leaf.len();
    leaf.put(key, value);
    leaf.len() - count
}

/// Puts an entry after all others, in a leaf of its own.
pub(crate) fn put_behind<K: Ord + Drop, V: Drop>(
    leaves: &mut Vec<Leaf<K, V>>,
    mut leaf: Leaf<K, V>,
    key: K,
    value: V,
)
    requires behind { IsBehind K.cmp key (contents leaves.old.items) }
    requires full { EndsFull leaves.old.items }
    requires room { vec_len leaves.old < vec_capacity leaves.old }
    requires filled { AreFilled leaves.old.items }
    ensures items { contents leaves.new.items ≡ put_in K.cmp key value (contents leaves.old.items) }
    ensures filled { AreFilled leaves.new.items }
    ensures count { entry_count leaves.new.items ≡ entry_count leaves.old.items + 1 }
    ensures weight { weight leaves.new.items ≤ weight leaves.old.items }
    ensures len { vec_len leaves.new ≡ vec_len leaves.old + 1 }
    ensures capacity { vec_capacity leaves.old ≤ vec_capacity leaves.new }
{
    leaf.clear();
    leaf.put(key, value);
    leaves.push(leaf).unwrap();
}

// Moves all but the first `kept` of a leaf's entries into a leaf right after it.
fn split_at<K: Ord + Drop, V: Drop>(
    leaves: &mut Vec<Leaf<K, V>>,
    mut later: Leaf<K, V>,
    at: usize,
    kept: usize,
)
    requires within { at < vec_len leaves.old }
    requires full { length (slice_index_or leaves.old.items at []) ≡ leaf_capacity }
    requires some { 16 ≤ kept }
    requires few { kept ≤ 48 }
    requires room { vec_len leaves.old < vec_capacity leaves.old }
    requires filled { AreFilled leaves.old.items }
    ensures items { leaves.new.items ≡ split_at at kept leaves.old.items }
    ensures filled { AreFilled leaves.new.items }
    ensures weight { weight leaves.new.items ≤ weight leaves.old.items }
    ensures len { vec_len leaves.new ≡ vec_len leaves.old + 1 }
    ensures capacity { vec_capacity leaves.old ≤ vec_capacity leaves.new }
{
    later.clear();
    let leaf = &mut leaves[at];
    leaf.split(&mut later, kept);
    leaves.insert(at + 1, later).unwrap();
}

// Keeps an empty leaf for later, where there is a place for it. Takes no memory.
fn lay_by<K: Ord + Drop, V: Drop>(spare: &mut Vec<Leaf<K, V>>, leaf: Leaf<K, V>)
    ensures grows { vec_len spare.old ≤ vec_len spare.new }
    ensures kept { min (vec_len spare.old + 1) (vec_capacity spare.old) ≤ vec_len spare.new }
    ensures capacity { vec_capacity spare.old ≤ vec_capacity spare.new }
{
    if spare.len() < spare.capacity() {
        spare.push(leaf).unwrap();
    }
}

/// Takes a key's entry out of its leaf and gives it, if it is there. A leaf is laid by with its last entry.
pub(crate) fn take_out_at<K: Ord + Drop, V: Drop, Q: Probe<K>>(
    leaves: &mut Vec<Leaf<K, V>>,
    spare: &mut Vec<Leaf<K, V>>,
    at: usize,
    probe: &Q,
) -> Option<(K, V)>
    requires among { IsAmong K.cmp (Q.key probe.now) leaves.old.items at (at + 1) }
    requires filled { AreFilled leaves.old.items }
    requires sorted { InOrder K.cmp (contents leaves.old.items) }
    ensures taken { result ≡ entry_of K.cmp (Q.key probe.now) (contents leaves.old.items) }
    ensures items { contents leaves.new.items ≡ without K.cmp (Q.key probe.now) (contents leaves.old.items) }
    ensures filled { AreFilled leaves.new.items }
    ensures some { IfSome result (λ _. entry_count leaves.new.items + 1 ≡ entry_count leaves.old.items) }
    ensures none { IfNone result (entry_count leaves.new.items ≡ entry_count leaves.old.items) }
    ensures weight { weight leaves.new.items ≤ weight leaves.old.items }
    ensures len { vec_len leaves.new ≤ vec_len leaves.old }
    ensures spare { vec_len spare.old ≤ vec_len spare.new }
    ensures capacity { vec_capacity leaves.old ≤ vec_capacity leaves.new }
    ensures most { most_leaves leaves.old spare.old ≤ most_leaves leaves.new spare.new }
{
    let leaf = &mut leaves[at];
    let taken = leaf.take_out(probe);
    if leaf.len() == 0 {
        let emptied = leaves.remove(at);
        lay_by(spare, emptied);
        return taken;
    }
    taken
}

/// Makes room for a key's entry in the leaf in which it belongs, if that is full and hasn't the key, and answers which
/// leaf it is. None where the key belongs after all entries and the last leaf is full, so that ascending keys fill
/// their leaves.
pub(crate) fn room_for<K: Ord + Drop, V: Drop, Q: Probe<K>>(
    leaves: &mut Vec<Leaf<K, V>>,
    spare: &mut Vec<Leaf<K, V>>,
    probe: &Q,
) -> Option<usize>
    requires room { vec_len leaves.old < vec_capacity leaves.old }
    requires spare { 0 < vec_len spare.old }
    requires filled { AreFilled leaves.old.items }
    requires sorted { InOrder K.cmp (contents leaves.old.items) }
    ensures items { contents leaves.new.items ≡ contents leaves.old.items }
    ensures filled { AreFilled leaves.new.items }
    ensures some { IfSome result (λ at. IsAmong K.cmp (Q.key probe.now) leaves.new.items at (at + 1)) }
    ensures room { IfSome result (λ at. is_tied K.cmp (Q.key probe.now) (contents leaves.new.items) ≡ false
        → length (slice_index_or leaves.new.items at []) < leaf_capacity) }
    ensures there { is_tied K.cmp (Q.key probe.now) (contents leaves.old.items) ≡ true
        → (leaves.new ≡ leaves.old) × (spare.new ≡ spare.old) }
    ensures none { IfNone result (IsBehind K.cmp (Q.key probe.now) (contents leaves.new.items)) }
    ensures full { IfNone result (EndsFull leaves.new.items) }
    ensures kept { IfNone result (spare.new ≡ spare.old) }
    ensures unsplit { IfNone result (vec_len leaves.new ≡ vec_len leaves.old) }
    ensures weight { weight leaves.new.items ≤ weight leaves.old.items }
    ensures len { vec_len leaves.new ≤ vec_len leaves.old + 1 }
    ensures spare { vec_len spare.old ≤ vec_len spare.new + 1 }
    ensures total { vec_len leaves.new + vec_len spare.new ≡ vec_len leaves.old + vec_len spare.old }
    ensures capacity { vec_capacity leaves.old ≤ vec_capacity leaves.new }
    ensures kept_places { vec_capacity spare.old ≤ vec_capacity spare.new }
{
    if leaves.is_empty() {
        return None;
    }
    let at = leaf_of(leaves.as_slice(), probe);
    let leaf = &leaves[at];
    if leaf.len() < LEAF_CAPACITY {
        return Some(at);
    }
    let (place, is_there) = place_of(leaf.as_slice(), probe);
    if is_there {
        return Some(at);
    }
    if place == LEAF_CAPACITY && at + 1 == leaves.len() {
        return None;
    }
    let kept = place.max(KEPT_LEAST).min(KEPT_MOST);
    let later = spare.pop().unwrap();
    split_at(leaves, later, at, kept);
    Some(leaf_among(leaves.as_slice(), at, at + 2, probe))
}

/// Whether there is a leaf, and the last one has room.
pub(crate) fn has_room_behind<K: Ord + Drop, V: Drop>(leaves: &[Leaf<K, V>]) -> bool
    ensures some { IsTrue result → 0 < length leaves.now }
    ensures room { IsTrue result → length (last_leaf leaves.now) < leaf_capacity }
{
    if leaves.is_empty() {
        return false;
    }
    let leaf = &leaves[leaves.len() - 1];
    leaf.len() < LEAF_CAPACITY
}

/// Puts an entry after all others, into the last leaf.
pub(crate) fn push_last<K: Ord + Drop, V: Drop>(leaves: &mut Vec<Leaf<K, V>>, key: K, value: V)
    requires some { 0 < length leaves.old.items }
    requires room { length (last_leaf leaves.old.items) < leaf_capacity }
    requires filled { AreFilled leaves.old.items }
    ensures items { contents leaves.new.items ≡ contents leaves.old.items ++ (key, value) ∷ [] }
    ensures filled { AreFilled leaves.new.items }
{
    let last = leaves.len() - 1;
    let leaf = &mut leaves[last];
    leaf.push(key, value);
}

/// Puts an entry after all others, into a leaf of its own. Fails only for want of memory, and then all is as
/// it was.
pub(crate) fn push_leaf<K: Ord + Drop, V: Drop>(
    leaves: &mut Vec<Leaf<K, V>>,
    key: K,
    value: V,
) -> Result<(), Memory>
    requires filled { AreFilled leaves.old.items }
    ensures items { OnOk result (contents leaves.new.items
        ≡ contents leaves.old.items ++ (key, value) ∷ []) }
    ensures filled { OnOk result (AreFilled leaves.new.items) }
    ensures same { OnErr result (leaves.new.items ≡ leaves.old.items) }
{
    let mut leaf = Leaf::new(*leaves.allocator())?;
    leaf.push(key, value);
    leaves.push(leaf)?;
    Ok(())
}
