//! An iterator over ranked items.
ghost use Rattle.std.specs.Prelude.{◌≡◌, ◌==◌, ◌++◌, length};
ghost use Rattle.std.specs.Iterator.{YieldsFirstBy, item_count};
ghost use Rattle.acap_ordmap.specs.Leaves.{contents, AreFilled};

use crate::leaf::Leaf;
use std::marker::Model;

/// The same entries, the first of them in the slice, if there is one.
pub fn fill_front<'a, K: Ord + Drop, V: Drop>(
    front: &'a [(K, V)],
    leaves: &'a [Leaf<K, V>],
) -> (&'a [(K, V)], &'a [Leaf<K, V>])
    requires { AreFilled leaves.now }
    ensures same { result.0.now ++ contents result.1.now ≡ front.now ++ contents leaves.now }
    ensures filled { AreFilled result.1.now }
    ensures first { length result.0.now ≡ 0 → length result.1.now ≡ 0 }
{
    if !front.is_empty() {
        return (front, leaves);
    }
    match leaves.split_first() {
        Some((leaf, others)) => (leaf.as_slice(), others),
        None => (front, leaves),
    }
}

/// Items in their order: an iterator, seen as the list of those that are still to come. Looks at them where they lie,
/// and takes no memory.
#[derive(Drop)]
pub struct Ranking<'a, T> {
    pub(crate) front: &'a [(T, ())],
    pub(crate) leaves: &'a [Leaf<T, ()>],
    pub(crate) left: usize,
}

impl<'a, T> Model for Ranking<'a, T> {
    ghost use Rattle.std.specs.Prelude.{List, ◌++◌, take, map};
    ghost use Rattle.acap_ordmap.specs.Leaves.{contents, AreToCome};

    ghost Value = { List T };

    ghost view = { λ l. take l.left (map (λ e. e.0) (l.front.now ++ contents l.leaves.now)) };

    ghost invariant = { λ l. AreToCome l.left l.front.now l.leaves.now };
}

impl<'a, T: Ord + Drop> Ranking<'a, T> {
    /// How many are still to come.
    pub fn len(&self) -> usize
        ensures { result ≡ length self.now }
    {
        self.left
    }

    /// Whether none is still to come.
    pub fn is_empty(&self) -> bool
        ensures { result ≡ (length self.now == 0) }
    {
        self.left == 0
    }
}

impl<'a, T: Ord + Drop> Iterator for Ranking<'a, T> {
    type Item = &'a T;

    ghost next_gives = { YieldsFirstBy (λ item. item.now) (λ rest. rest) };

    ghost remaining = { item_count (λ rest. rest) };

    fn next(&mut self) -> Option<&'a T> {
        if self.left == 0 {
            return None;
        }
        let (front, leaves) = fill_front(self.front, self.leaves);
        let (entry, front) = front.split_first()?;
        self.front = front;
        self.leaves = leaves;
        self.left -= 1;
        Some(&entry.0)
    }

    fn size_hint(&self) -> (usize, Option<usize>) {
        (self.left, Some(self.left))
    }
}
