//! `Listing`: an iterator over records of a tree, in the order of their paths.
ghost use Rattle.std.specs.Prelude.{◌≡◌, ◌==◌, ◌+◌, ◌<◌, ◌≤◌, ◌^◌, [], length, take, drop, slice_index_or};
ghost use Rattle.std.specs.Iterator.{YieldsFirstBy, item_count};
ghost use Rattle.acap_ordmap.specs.Leaves.{contents, between, entry_count, AreFilled, Rises};
ghost use Rattle.acap_ordmap.specs.Sorted.{InOrder};
ghost use Rattle.acap_entries.specs.Store.{path_cmp};

use crate::boxed::Boxed;
use crate::path::Path;
use crate::record::Record;
use acap_ordmap::{Leaf, Probe, count_before, fill_front, place_among};
use std::marker::Model;

/// Paths and their records, by dataset and then by name: an iterator, seen as the list of those that are still to
/// come. Looks at them where they lie, and takes no memory.
#[derive(Drop)]
pub struct Listing<'a> {
    pub(crate) front: &'a [(Path, Boxed<Record>)],
    pub(crate) leaves: &'a [Leaf<Path, Boxed<Record>>],
    pub(crate) left: usize,
}

impl<'a> Model for Listing<'a> {
    ghost use Rattle.std.specs.Prelude.{List, ◌++◌, take};
    ghost use Rattle.acap_ordmap.specs.Leaves.{contents, AreToCome};
    ghost use Rattle.acap_entries.specs.declared.path.Path.{Path};
    ghost use Rattle.acap_entries.specs.declared.record.Record.{Record};
    ghost use Rattle.acap_entries.specs.contracts.path.Path as path;
    ghost use Rattle.acap_entries.specs.contracts.record.Record as row;
    ghost use Rattle.std.specs.Coded.{coded_list, coded×};

    ghost Value = { List (Path × Record) };

    ghost coded = { coded_list (coded× path.the_row.coded row.the_row.coded) };

    ghost view = { λ l. take l.left (l.front.now ++ contents l.leaves.now) };

    ghost invariant = { λ l. AreToCome l.left l.front.now l.leaves.now };
}

impl<'a> Listing<'a> {
    /// How many are still to come.
    pub fn len(&self) -> usize
        ensures { result ≡ length self.now }
    {
        self.left
    }

    /// Whether none is still to come.
    pub fn is_empty(&self) -> bool
        ensures { result ≡ (length self.now == 0) }
    {
        self.left == 0
    }
}

impl<'a> Iterator for Listing<'a> {
    type Item = (&'a Path, &'a Record);

    ghost next_gives = { YieldsFirstBy (λ item. (item.0.now, item.1.now)) (λ rest. rest) };

    ghost remaining = { item_count (λ rest. rest) };

    fn next(&mut self) -> Option<(&'a Path, &'a Record)> {
        if self.left == 0 {
            return None;
        }
        let (front, leaves) = fill_front(self.front, self.leaves);
        let (entry, front) = front.split_first()?;
        self.front = front;
        self.leaves = leaves;
        self.left -= 1;
        Some((&entry.0, entry.1.get()))
    }

    fn size_hint(&self) -> (usize, Option<usize>) {
        (self.left, Some(self.left))
    }
}

// `left` records, after the first `skipped` of the first leaf.
fn list_from(leaves: &[Leaf<Path, Boxed<Record>>], skipped: usize, left: usize) -> Listing<'_>
    requires some { 0 < length leaves.now }
    requires filled { AreFilled leaves.now }
    requires within { skipped ≤ length (slice_index_or leaves.now 0 []) }
    requires left { skipped + left ≤ entry_count leaves.now }
    ensures { result ≡ take left (drop skipped (contents leaves.now)) }
{
    let front = &leaves[0];
    let front = &front.as_slice()[skipped..];
    let leaves = &leaves[1..];
    Listing {
        front,
        leaves,
        left,
    }
}

// The records from one key on and before another.
pub(crate) fn between<'a, Q: Probe<Path>>(
    leaves: &'a [Leaf<Path, Boxed<Record>>],
    low: &Q,
    high: &Q,
) -> Listing<'a>
    requires filled { AreFilled leaves.now }
    requires sorted { InOrder path_cmp (contents leaves.now) }
    requires counted { entry_count leaves.now < 2 ^ 64 }
    requires rises { Rises path_cmp (Q.key low.now) (Q.key high.now) }
    ensures { result ≡ between path_cmp (Q.key low.now) (Q.key high.now) leaves.now }
{
    if leaves.len() == 0 {
        return Listing {
            front: &[],
            leaves,
            left: 0,
        };
    }
    let (first, skipped) = place_among(leaves, low);
    let (_, rest) = leaves.split_at(first);
    let until = count_before(rest, high);
    list_from(rest, skipped, until - skipped)
}
