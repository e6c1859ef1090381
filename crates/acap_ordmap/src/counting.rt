//! How many entries stand before a key, and which one stands at an index, of those that lie in leaves.
ghost use Rattle.std.specs.Prelude.{◌≡◌, ◌+◌, ◌<◌, ◌≤◌, ◌^◌, [], length};
ghost use Rattle.std.specs.Prelude.{slice_get, slice_index_or};
ghost use Rattle.std.specs.Option.{option_copied};
ghost use Rattle.acap_ordmap.specs.Sorted.{InOrder};
ghost use Rattle.acap_ordmap.specs.Leaves.{contents, before, entry_count, place_in, AreFilled};

use crate::leaf::Leaf;
use crate::leaf_search::leaf_of;
use crate::probe::Probe;
use crate::sorted::place_of;

/// Where a key stands: its leaf, and its place in it.
pub fn place_among<K: Ord + Drop, V: Drop, Q: Probe<K>>(
    leaves: &[Leaf<K, V>],
    probe: &Q,
) -> (usize, usize)
    requires some { 0 < length leaves.now }
    requires filled { AreFilled leaves.now }
    requires sorted { InOrder K.cmp (contents leaves.now) }
    ensures leaf { result.0 < length leaves.now }
    ensures within { result.1 ≤ length (slice_index_or leaves.now result.0 []) }
    ensures place { before leaves.now result.0 + result.1 ≡ place_in K.cmp (Q.key probe.now) leaves.now }
{
    let at = leaf_of(leaves, probe);
    let leaf = &leaves[at];
    let (place, _) = place_of(leaf.as_slice(), probe);
    (at, place)
}

/// How many entries the leaves hold.
pub(crate) fn count<K: Ord + Drop, V: Drop>(leaves: &[Leaf<K, V>]) -> usize
    requires { entry_count leaves.now < 2 ^ 64 }
    ensures { result ≡ entry_count leaves.now }
{
    let mut count = 0;
    for leaf in leaves {
        count += leaf.len();
    }
    count
}

/// How many entries stand before a key.
pub fn count_before<K: Ord + Drop, V: Drop, Q: Probe<K>>(leaves: &[Leaf<K, V>], probe: &Q) -> usize
    requires some { 0 < length leaves.now }
    requires filled { AreFilled leaves.now }
    requires sorted { InOrder K.cmp (contents leaves.now) }
    requires counted { entry_count leaves.now < 2 ^ 64 }
    ensures { result ≡ place_in K.cmp (Q.key probe.now) leaves.now }
{
    let (at, place) = place_among(leaves, probe);
    let (earlier, _) = leaves.split_at(at);
    count(earlier) + place
}

/// The entry at an index, if there is one.
pub(crate) fn entry_at<K: Ord + Drop, V: Drop>(
    leaves: &[Leaf<K, V>],
    index: usize,
) -> Option<&(K, V)>
    ensures { option_copied result ≡ slice_get (contents leaves.now) index }
{
    let mut left = index;
    for leaf in leaves {
        if left < leaf.len() {
            return Some(&leaf.as_slice()[left]);
        }
        left -= leaf.len();
    }
    None
}
