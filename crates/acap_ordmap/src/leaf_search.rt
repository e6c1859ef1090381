//! Finds the leaf in which a key belongs, and its place there, by halving.
ghost use Rattle.std.specs.Prelude.{◌≡◌, ◌+◌, ◌<◌, ◌≤◌, length};
ghost use Rattle.std.specs.Option.{option_copied};
ghost use Rattle.acap_ordmap.specs.Sorted.{InOrder, found, entry_of};
ghost use Rattle.acap_ordmap.specs.Leaves.{contents, AreFilled, IsAmong};

use crate::leaf::Leaf;
use crate::probe::Probe;
use crate::sorted::{entry_in, lookup};
use std::cmp::Ordering;

/// Where a key stands: in which leaf, how many entries stand before it there and in all, and whether it is there.
#[derive(Clone, Copy)]
pub(crate) struct LeafSlot {
    pub(crate) leaf: usize,
    pub(crate) at: usize,
    pub(crate) rank: usize,
    pub(crate) is_there: bool,
}

/// The leaf in which a key belongs, of those from one on and before another, found by halving.
pub(crate) fn leaf_among<K: Ord + Drop, V: Drop, Q: Probe<K>>(
    leaves: &[Leaf<K, V>],
    mut low: usize,
    mut high: usize,
    probe: &Q,
) -> usize
    requires among { IsAmong K.cmp (Q.key probe.now) leaves.now low high }
    requires filled { AreFilled leaves.now }
    requires sorted { InOrder K.cmp (contents leaves.now) }
    ensures among { IsAmong K.cmp (Q.key probe.now) leaves.now result (result + 1) }
    ensures low { low ≤ result }
    ensures high { result < high }
{
    while 1 < high - low {
        let mid = low + (high - low) / 2;
        match probe.compare(&leaves[mid].first().0) {
            Ordering::Less => high = mid,
            Ordering::Equal | Ordering::Greater => low = mid,
        }
    }
    low
}

/// The leaf in which a key belongs.
pub(crate) fn leaf_of<K: Ord + Drop, V: Drop, Q: Probe<K>>(
    leaves: &[Leaf<K, V>],
    probe: &Q,
) -> usize
    requires some { 0 < length leaves.now }
    requires filled { AreFilled leaves.now }
    requires sorted { InOrder K.cmp (contents leaves.now) }
    ensures { IsAmong K.cmp (Q.key probe.now) leaves.now result (result + 1) }
{
    leaf_among(leaves, 0, leaves.len(), probe)
}

/// The entry of a key, if it is there.
pub fn entry_among<'a, K: Ord + Drop, V: Drop, Q: Probe<K>>(
    leaves: &'a [Leaf<K, V>],
    probe: &Q,
) -> Option<&'a (K, V)>
    requires filled { AreFilled leaves.now }
    requires sorted { InOrder K.cmp (contents leaves.now) }
    ensures { option_copied result ≡ entry_of K.cmp (Q.key probe.now) (contents leaves.now) }
{
    if leaves.is_empty() {
        return None;
    }
    let at = leaf_of(leaves, probe);
    entry_in(leaves[at].as_slice(), probe)
}

/// The value at a key, if it is there.
pub fn find_among<'a, K: Ord + Drop, V: Drop, Q: Probe<K>>(
    leaves: &'a [Leaf<K, V>],
    probe: &Q,
) -> Option<&'a V>
    requires filled { AreFilled leaves.now }
    requires sorted { InOrder K.cmp (contents leaves.now) }
    ensures { option_copied result ≡ found K.cmp (Q.key probe.now) (contents leaves.now) }
{
    if leaves.is_empty() {
        return None;
    }
    let at = leaf_of(leaves, probe);
    lookup(leaves[at].as_slice(), probe)
}
