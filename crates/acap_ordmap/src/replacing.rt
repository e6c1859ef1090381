//! Puts one entry in the place of another, after one look-up, which may begin at a finger.
ghost use Rattle.std.specs.Prelude.{◌≡◌, ◌+◌, ◌<◌, ◌≤◌, ◌^◌, [], Some, true, false, IfSome};
ghost use Rattle.std.specs.Prelude.{length, slice_index_or, vec_len, vec_capacity};
ghost use Rattle.acap_ordmap.specs.Sorted.{place, is_tied, entry_of, put_in, InOrder};
ghost use Rattle.acap_ordmap.specs.Leaves.{contents, leaf_capacity, weight, AreFilled};
ghost use Rattle.acap_ordmap.specs.Replacing.{LiesAt, replaced};

use crate::counting::count;
use crate::leaf::Leaf;
use crate::leaf_search::{LeafSlot, leaf_of};
use crate::probe::Probe;
use crate::sorted::place_of;
use std::cmp::Ordering;

/// Where the key stood that was looked for last: in which leaf, and after how many entries there. A look-up that begins there finds a key
/// that stands there by one comparison, and one that belongs there by two.
#[derive(Clone, Copy)]
pub struct Finger {
    leaf: usize,
    at: usize,
}

impl Finger {
    /// At the first entry.
    pub fn first() -> Finger {
        Finger { leaf: 0, at: 0 }
    }
}

impl LeafSlot {
    /// At the place of that key.
    pub(crate) fn finger(self) -> Finger {
        Finger {
            leaf: self.leaf,
            at: self.at,
        }
    }
}

// Whether a key is there, if its place is at a finger, before an entry and after another one of that leaf. Else nothing is known.
fn look_at<K: Ord + Drop, V: Drop, Q: Probe<K>>(
    leaves: &[Leaf<K, V>],
    probe: &Q,
    finger: Finger,
) -> Option<bool>
    requires { InOrder K.cmp (contents leaves.now) }
    ensures lies { IfSome result
        (λ there. LiesAt K.cmp (Q.key probe.now) leaves.now finger.leaf finger.at) }
    ensures tied { IfSome result
        (λ there. there ≡ is_tied K.cmp (Q.key probe.now) (contents leaves.now)) }
{
    if finger.leaf >= leaves.len() {
        return None;
    }
    let entries = leaves[finger.leaf].as_slice();
    if finger.at >= entries.len() {
        return None;
    }
    match probe.compare(&entries[finger.at].0) {
        Ordering::Equal => return Some(true),
        Ordering::Greater => return None,
        Ordering::Less => {}
    }
    if finger.at == 0 {
        return None;
    }
    match probe.compare(&entries[finger.at - 1].0) {
        Ordering::Greater => Some(false),
        Ordering::Less | Ordering::Equal => None,
    }
}

// The leaf and the place of a key, and whether it is there: at the finger, or where halving finds it.
fn find_from<K: Ord + Drop, V: Drop, Q: Probe<K>>(
    leaves: &[Leaf<K, V>],
    probe: &Q,
    finger: Finger,
) -> (usize, usize, bool)
    requires some { 0 < length leaves.now }
    requires filled { AreFilled leaves.now }
    requires sorted { InOrder K.cmp (contents leaves.now) }
    ensures lies { LiesAt K.cmp (Q.key probe.now) leaves.now result.0 result.1 }
    ensures tied { result.2 ≡ is_tied K.cmp (Q.key probe.now) (contents leaves.now) }
{
    if let Some(is_there) = look_at(leaves, probe, finger) {
        return (finger.leaf, finger.at, is_there);
    }
    let leaf = leaf_of(leaves, probe);
    let entries = leaves[leaf].as_slice();
    let (at, is_there) = place_of(entries, probe);
    (leaf, at, is_there)
}

/// Where a key stands. It is looked for at the finger first.
pub(crate) fn seek<K: Ord + Drop, V: Drop, Q: Probe<K>>(
    leaves: &[Leaf<K, V>],
    probe: &Q,
    finger: Finger,
) -> LeafSlot
    requires some { 0 < length leaves.now }
    requires filled { AreFilled leaves.now }
    requires sorted { InOrder K.cmp (contents leaves.now) }
    requires counted { length (contents leaves.now) < 2 ^ 64 }
    ensures lies { LiesAt K.cmp (Q.key probe.now) leaves.now result.leaf result.at }
    ensures rank { result.rank ≡ place K.cmp (Q.key probe.now) (contents leaves.now) }
    ensures tied { result.is_there ≡ is_tied K.cmp (Q.key probe.now) (contents leaves.now) }
{
    let (leaf, at, is_there) = find_from(leaves, probe, finger);
    let (earlier, _) = leaves.split_at(leaf);
    LeafSlot {
        leaf,
        at,
        rank: count(earlier) + at,
        is_there,
    }
}

/// Puts an entry in the place of the one whose key ties with its key, and gives that one.
pub(crate) fn exchange_at<K: Ord + Drop, V: Drop>(
    leaves: &mut Vec<Leaf<K, V>>,
    slot: LeafSlot,
    key: K,
    value: V,
) -> (K, V)
    requires lies { LiesAt K.cmp key leaves.old.items slot.leaf slot.at }
    requires tied { is_tied K.cmp key (contents leaves.old.items) ≡ true }
    requires filled { AreFilled leaves.old.items }
    requires sorted { InOrder K.cmp (contents leaves.old.items) }
    ensures taken { Some result ≡ entry_of K.cmp key (contents leaves.old.items) }
    ensures items { contents leaves.new.items ≡ replaced K.cmp key value (contents leaves.old.items) }
    ensures filled { AreFilled leaves.new.items }
    ensures count { length (contents leaves.new.items) ≡ length (contents leaves.old.items) }
    ensures weight { weight leaves.new.items ≤ weight leaves.old.items }
    ensures len { vec_len leaves.new ≡ vec_len leaves.old }
    ensures capacity { vec_capacity leaves.old ≤ vec_capacity leaves.new }
{
    let leaf = &mut leaves[slot.leaf];
    leaf.exchange(slot.at, key, value)
}

/// Puts an entry whose key is nowhere into a leaf that has room for it.
pub(crate) fn insert_at<K: Ord + Drop, V: Drop>(
    leaves: &mut Vec<Leaf<K, V>>,
    slot: LeafSlot,
    key: K,
    value: V,
)
    requires lies { LiesAt K.cmp key leaves.old.items slot.leaf slot.at }
    requires room { length (slice_index_or leaves.old.items slot.leaf []) < leaf_capacity }
    requires absent { is_tied K.cmp key (contents leaves.old.items) ≡ false }
    requires filled { AreFilled leaves.old.items }
    ensures items { contents leaves.new.items ≡ put_in K.cmp key value (contents leaves.old.items) }
    ensures filled { AreFilled leaves.new.items }
    ensures count { length (contents leaves.new.items) ≡ length (contents leaves.old.items) + 1 }
    ensures weight { weight leaves.new.items ≤ weight leaves.old.items + 1 }
    ensures len { vec_len leaves.new ≡ vec_len leaves.old }
    ensures capacity { vec_capacity leaves.old ≤ vec_capacity leaves.new }
{
    let leaf = &mut leaves[slot.leaf];
    leaf.insert(slot.at, key, value);
}
