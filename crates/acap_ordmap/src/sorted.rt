//! A vector of entries in the order of their keys: look-ups by halving, and edits in room that is there.
ghost use Rattle.std.specs.Prelude.{◌≡◌, ◌+◌, ◌<◌, ◌≤◌, length, false};
ghost use Rattle.std.specs.Prelude.{IsTrue, IfSome, IfNone, OnOk, OnErr, vec_len, vec_capacity};
ghost use Rattle.std.specs.Option.{is_some, option_copied};
ghost use Rattle.std.specs.FinMap.{is_sorted};
ghost use Rattle.acap_ordmap.specs.Sorted.{place, is_tied, without, found, entry_of, put_in, InOrder};

use crate::copying::Memory;
use crate::probe::{Probe, Whole};
use std::cmp::Ordering;

/// Where a key stands, and whether it is there: found by halving.
pub fn place_of<K: Ord, V, Q: Probe<K>>(entries: &[(K, V)], probe: &Q) -> (usize, bool)
    requires { InOrder K.cmp entries.now }
    ensures place { result.0 ≡ place K.cmp (Q.key probe.now) entries.now }
    ensures tied { result.1 ≡ is_tied K.cmp (Q.key probe.now) entries.now }
    ensures within { result.0 ≤ length entries.now }
    ensures below { IsTrue result.1 → result.0 < length entries.now }
{
    let mut low = 0;
    let mut high = entries.len();
    while low < high {
        let mid = low + (high - low) / 2;
        match probe.compare(&entries[mid].0) {
            Ordering::Less => high = mid,
            Ordering::Equal => return (mid, true),
            Ordering::Greater => low = mid + 1,
        }
    }
    (low, false)
}

/// The entry of a key, if it is there.
pub fn entry_in<'a, K: Ord, V, Q: Probe<K>>(entries: &'a [(K, V)], probe: &Q) -> Option<&'a (K, V)>
    requires { InOrder K.cmp entries.now }
    ensures { option_copied result ≡ entry_of K.cmp (Q.key probe.now) entries.now }
{
    let (at, tied) = place_of(entries, probe);
    if tied { Some(&entries[at]) } else { None }
}

/// The value at a key, if it is there.
pub fn lookup<'a, K: Ord, V, Q: Probe<K>>(entries: &'a [(K, V)], probe: &Q) -> Option<&'a V>
    requires { InOrder K.cmp entries.now }
    ensures { option_copied result ≡ found K.cmp (Q.key probe.now) entries.now }
{
    let (at, tied) = place_of(entries, probe);
    if tied { Some(&entries[at].1) } else { None }
}

/// Sets the value of a key whose place is known, in the room that there is.
pub(crate) fn put_there<K: Ord + Drop, V: Drop>(
    entries: &mut Vec<(K, V)>,
    at: usize,
    tied: bool,
    key: K,
    value: V,
)
    requires place { at ≡ place K.cmp key entries.old.items }
    requires tied { tied ≡ is_tied K.cmp key entries.old.items }
    requires within { at ≤ vec_len entries.old }
    requires below { IsTrue tied → at < vec_len entries.old }
    requires room { tied ≡ false → vec_len entries.old < vec_capacity entries.old }
    ensures len { vec_len entries.new ≤ vec_len entries.old + 1 }
    ensures same { IsTrue tied → vec_len entries.new ≡ vec_len entries.old }
    ensures items { entries.new.items ≡ put_in K.cmp key value entries.old.items }
    ensures capacity { vec_capacity entries.new ≡ vec_capacity entries.old }
{
    if tied {
        entries[at].1 = value;
    } else {
        entries.insert(at, (key, value)).unwrap();
    }
}

/// Whether each key is greater than the one before it.
pub fn ascends<K: Ord, V>(entries: &[(K, V)]) -> bool
    ensures { result ≡ is_sorted K.cmp entries.now }
{
    let mut left = entries;
    while let Some((first, others)) = left.split_first() {
        let Some(next) = others.first() else {
            return true;
        };
        match first.0.cmp(&next.0) {
            Ordering::Less => left = others,
            Ordering::Equal | Ordering::Greater => return false,
        }
    }
    true
}

/// Sets the value of a key, in the room that there is. Takes no memory.
pub fn put_in_room<K: Ord + Drop, V: Drop>(entries: &mut Vec<(K, V)>, key: K, value: V)
    requires room { vec_len entries.old < vec_capacity entries.old }
    requires sorted { InOrder K.cmp entries.old.items }
    ensures len { vec_len entries.new ≤ vec_len entries.old + 1 }
    ensures items { entries.new.items ≡ put_in K.cmp key value entries.old.items }
    ensures capacity { vec_capacity entries.new ≡ vec_capacity entries.old }
{
    let (at, tied) = place_of(entries.as_slice(), &Whole { key: &key });
    put_there(entries, at, tied, key, value);
}

/// Sets the value of a key: in its place where it is there, else in room that is made for it. Fails only for want of memory,
/// and then the entries stay.
pub fn set_in<K: Ord + Drop, V: Drop>(
    entries: &mut Vec<(K, V)>,
    key: K,
    value: V,
) -> Result<(), Memory>
    requires { InOrder K.cmp entries.old.items }
    ensures ok { OnOk result (entries.new.items ≡ put_in K.cmp key value entries.old.items) }
    ensures err { OnErr result (entries.new.items ≡ entries.old.items) }
{
    let (at, tied) = place_of(entries.as_slice(), &Whole { key: &key });
    if !tied {
        room_for_one(entries)?;
    }
    put_there(entries, at, tied, key, value);
    Ok(())
}

/// Makes room for one entry more: the first has room of its own, and later ones half as much again as there is, so that
/// a map of one takes no more than it needs. The entries stay, also where memory is refused.
pub fn room_for_one<T>(entries: &mut Vec<T>) -> Result<(), Memory>
    ensures items { entries.new.items ≡ entries.old.items }
    ensures ok { OnOk result (vec_len entries.new < vec_capacity entries.new) }
{
    if entries.len() == entries.capacity() {
        entries.reserve_exact(1 + entries.len() / 2)?;
    }
    Ok(())
}

/// Takes a key's entry out and gives it, if there is one. Takes no memory.
pub fn take_out<K: Ord + Drop, V: Drop, Q: Probe<K>>(
    entries: &mut Vec<(K, V)>,
    probe: &Q,
) -> Option<(K, V)>
    requires { InOrder K.cmp entries.old.items }
    ensures taken { result ≡ entry_of K.cmp (Q.key probe.now) entries.old.items }
    ensures tied { is_some result ≡ is_tied K.cmp (Q.key probe.now) entries.old.items }
    ensures items { entries.new.items ≡ without K.cmp (Q.key probe.now) entries.old.items }
    ensures some { IfSome result (λ _. vec_len entries.new + 1 ≡ vec_len entries.old) }
    ensures none { IfNone result (vec_len entries.new ≡ vec_len entries.old) }
    ensures capacity { vec_capacity entries.new ≡ vec_capacity entries.old }
{
    let (at, tied) = place_of(entries.as_slice(), probe);
    if tied { Some(entries.remove(at)) } else { None }
}
