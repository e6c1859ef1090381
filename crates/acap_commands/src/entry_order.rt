//! Entries of a STORE in the order of their paths, so that a path is found among them by halving (RFC 2244 section 6.6.1).
ghost use Rattle.std.specs.Prelude.{◌≡◌, ◌<◌, ◌≤◌, ◌++◌, ◌∷◌, [], not, length, IfOk, OnOk, OnErr};
ghost use Rattle.acap_ordmap.specs.Sorted.{place, is_tied};
ghost use Rattle.acap_entries.specs.Store.{path_cmp};
ghost use Rattle.acap_commands.specs.EntryOrder.{places_by_path, Orders};
ghost use Rattle.acap_commands.specs.EntryOrder.{has_path};

use crate::store::StoreEntry;
use acap_entries::{Memory, Path};
use std::alloc::Global;
use std::cmp::Ordering;
use std::marker::Model;

/// The places of entries in their list, in the order of their paths: one place for each path. The list itself is lent to
/// each call.
#[derive(Drop)]
pub struct EntryOrder {
    places: Vec<usize>,
}

impl Model for EntryOrder {
    ghost use Rattle.std.specs.Prelude.{ℕ, List};

    ghost Value = { List ℕ };

    ghost view = { λ o. o.places.items };
}

impl EntryOrder {
    /// None yet. Takes no memory.
    pub fn new(alloc: Global) -> EntryOrder
        ensures { Orders result [] }
    {
        EntryOrder {
            places: Vec::new(alloc),
        }
    }

    // Where a path stands among those of the entries, and whether it is there. Many paths come after all others: so the
    // last is asked first.
    fn place_of(&self, entries: &[StoreEntry], path: &Path) -> (usize, bool)
        requires { Orders self.now entries.now }
        ensures place { result.0 ≡ place path_cmp path.now (places_by_path entries.now self.now) }
        ensures tied { result.1 ≡ is_tied path_cmp path.now (places_by_path entries.now self.now) }
        ensures within { result.0 ≤ length self.now }
    {
        let mut low = 0;
        let mut high = self.places.len();
        let mut middle = high.saturating_sub(1);
        while low < high {
            match path.cmp(&entries[self.places[middle]].path) {
                Ordering::Less => high = middle,
                Ordering::Equal => return (middle, true),
                Ordering::Greater => low = middle + 1,
            }
            middle = low + (high - low) / 2;
        }
        (low, false)
    }

    /// Whether an entry with this path is among those that are in this order. Takes no memory.
    pub fn has_path(&self, entries: &[StoreEntry], path: &Path) -> bool
        requires { Orders self.now entries.now }
        ensures { result ≡ has_path path.now entries.now }
    {
        self.place_of(entries, path).1
    }

    /// Puts the entry in its place that follows those that are in this order, and reports whether its path is new. Fails only
    /// for want of memory, and then the order stays.
    pub fn add(&mut self, entries: &[StoreEntry], next: &StoreEntry) -> Result<bool, Memory>
        requires { Orders self.old entries.now }
        ensures new { IfOk result (λ new. new ≡ not (has_path next.now.path entries.now)) }
        ensures ok { OnOk result (Orders self.new (entries.now ++ next.now ∷ [])) }
        ensures err { OnErr result (self.new ≡ self.old) }
    {
        let (at, stands) = self.place_of(entries, &next.path);
        if !stands {
            self.places.insert(at, entries.len())?;
        }
        Ok(!stands)
    }

    /// Entries in their order. Fails only for want of memory.
    pub fn of(alloc: Global, entries: &[StoreEntry]) -> Result<EntryOrder, Memory>
        ensures { IfOk result (λ order. Orders order entries.now) }
    {
        let mut order = EntryOrder::new(alloc);
        for at in 0..entries.len() {
            let (seen, others) = entries.split_at(at);
            let _ = order.add(seen, &others[0])?;
        }
        Ok(order)
    }
}
