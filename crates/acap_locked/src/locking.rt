//! Waits for the lock: a thread looks at it some times before it sleeps.
use std::sync::{Mutex, MutexGuard, Wait};
use std::thread::yield_now;

/// How often a thread looks whether the lock is free before it sleeps. To fall asleep and be woken takes longer than most calls, and
/// holds up all sessions of the thread.
const LOOKS: u32 = 100;

/// The lock, for which a thread waits awake at first, and then asleep. Between two looks it lets other threads run.
pub(crate) fn lock<'a, T>(cell: &'a Mutex<T>, rt: &impl Wait) -> MutexGuard<'a, T> {
    for _ in 0..LOOKS {
        if let Some(guard) = cell.try_lock() {
            return guard;
        }
        yield_now();
    }
    cell.lock(rt)
}
