//! Dealing sessions out to workers, and taking them back. A worker's load is the sessions that it runs.
ghost use Rattle.std.specs.Prelude.{◌≡◌, ◌<◌, ◌≤◌, ◌+◌, ◌++◌, ◌∷◌, [], ℕ, List, Option, All, IsSomeAnd, IfOk, length, map, replicate, vec_len, vec_capacity};
ghost use Rattle.acap_serving.specs.Dealing.{owners, turned};
ghost use Rattle.acap_serving.specs.Ends.{Whose};

use crate::lent_session::Advance;
use std::alloc::{AllocError, Global};

/// A load without a session for each worker, with room for `room` sessions. Fails only for want of memory.
pub(crate) fn no_loads<T: Drop>(
    alloc: Global,
    workers: usize,
    room: usize,
) -> Result<Vec<Vec<T>>, AllocError>
    ensures len { IfOk result (λ loads. vec_len loads ≡ workers) }
    ensures none { IfOk result (λ loads. map (λ load. load.items) loads.items ≡ replicate workers []) }
    ensures room { IfOk result (λ loads. All (λ load. vec_len load + room ≤ vec_capacity load) loads.items) }
{
    let mut loads = Vec::with_capacity(alloc, workers)?;
    for _ in 0..workers {
        loads
            .push(Vec::with_capacity(alloc, room)?)
            .map_err(|_| AllocError)?;
    }
    Ok(loads)
}

// Puts an item into room for it.
fn push_in_room<T: Drop>(items: &mut Vec<T>, item: T)
    requires { vec_len items.old < vec_capacity items.old }
    ensures items { items.new.items ≡ items.old.items ++ item ∷ [] }
    ensures len { vec_len items.new ≡ vec_len items.old + 1 }
    ensures room { vec_capacity items.old ≤ vec_capacity items.new }
{
    items.push(item).unwrap();
}

/// Gives a session to the first load, which is the last then, so that each has its turn.
pub(crate) fn deal<T: Advance>(loads: &mut Vec<Vec<T>>, session: T)
    requires some { 0 < vec_len loads.old }
    requires room { All (λ load. vec_len load < vec_capacity load) loads.old.items }
    ensures dealt { owners T.whose loads.new.items
        ≡ turned (owners T.whose loads.old.items) (T.whose session) }
    ensures room { (left : ℕ) → All (λ load. vec_len load + (left + 1) ≤ vec_capacity load) loads.old.items
        → All (λ load. vec_len load + left ≤ vec_capacity load) loads.new.items }
    ensures len { vec_len loads.new ≡ vec_len loads.old }
{
    push_in_room(&mut loads[0], session);
    loads.rotate_left(1);
}

/// Takes the session back that was dealt last.
pub(crate) fn take_back<T: Advance>(loads: &mut Vec<Vec<T>>) -> Option<T>
    requires some { 0 < vec_len loads.old }
    ensures back { (before : List (List (Option Whose))) (last : Option Whose) → 0 < length before
        → owners T.whose loads.old.items ≡ turned before last
        → IsSomeAnd result (λ session. (T.whose session ≡ last) × (owners T.whose loads.new.items ≡ before)) }
    ensures len { vec_len loads.new ≡ vec_len loads.old }
{
    loads.rotate_right(1);
    loads[0].pop()
}
