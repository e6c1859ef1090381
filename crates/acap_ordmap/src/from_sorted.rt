//! Builds leaves from items that ascend.
ghost use Rattle.std.specs.Prelude.{◌≡◌, IfOk};
ghost use Rattle.std.specs.FinMap.{is_sorted};
ghost use Rattle.acap_ordmap.specs.Ranks.{units};

use crate::copying::Memory;
use crate::leaves::Leaves;
use std::cmp::Ordering;

// Whether each item is less than all that follow it: it is enough to compare each with the next.
pub(crate) fn ascend<T: Ord>(items: &[T]) -> bool
    ensures { result ≡ is_sorted T.cmp (units items.now) }
{
    let mut left = items;
    while let Some((first, others)) = left.split_first() {
        let Some(next) = others.first() else {
            return true;
        };
        match first.cmp(next) {
            Ordering::Less => left = others,
            Ordering::Equal | Ordering::Greater => return false,
        }
    }
    true
}

// The items in leaves, each filled before the next.
pub(crate) fn into_leaves<T: Ord + Drop>(items: Vec<T>) -> Result<Leaves<T, ()>, Memory>
    ensures { IfOk result (λ made. made.0 ≡ units items.items) }
{
    let mut made = Leaves::with_capacity(*items.allocator(), items.len())?;
    let mut left = items;
    left.reverse();
    while let Some(item) = left.pop() {
        made.push(item, ())?;
    }
    Ok(made)
}
