//! `Views::prepare`: what a change does to the contexts of every seat.
ghost use Rattle.std.specs.Prelude.{◌≡◌, ◌+◌, ◌-◌, ◌<◌, IfOk, OnOk, map as each};
ghost use Rattle.acap_entries.specs.Changes.{store_after};
ghost use Rattle.acap_inherit.specs.Index.{IsIndexOf};
ghost use Rattle.acap_search.specs.Counting.{IsCounted};
ghost use Rattle.acap_views.specs.Changing.{IsSoundStep};
ghost use Rattle.acap_views.specs.Current.{IsCurrent};
ghost use Rattle.acap_views.specs.Keeping.{seats_in};
ghost use Rattle.acap_views.specs.Plans as rule;
ghost use Rattle.acap_views.specs.Preparing.{IsPreparedFor, touched_in};

use crate::delta::{Delta, SeatUpdates};
use crate::moving::prepared_law;
use crate::planned_change::PlannedChange;
use crate::seat_updates::turns_of;
use crate::touched_cache::TouchedCache;
use crate::views::Views;
use acap_entries::{After, Change, Memory, Sequence, Steps, Tree};
use acap_inherit::Resolved;
use acap_rights::Realm;
use std::sync::ledger::Ledger;

impl Views {
    // What becomes of the entries that the contexts of all seats look at, seat by seat, and how many these are.
    fn all_turns<L: Ledger>(
        &self,
        ahead: &PlannedChange<'_, '_>,
        work: &mut u64,
        steps: &mut Steps<L>,
    ) -> Result<Sequence<SeatUpdates>, Memory>
        ensures count { IsCounted result steps.old steps.new (rule.work_of ahead.now (seats_in self.now)) }
        ensures work { OnOk result (work.new ≡ work.old + rule.work_of ahead.now (seats_in self.now)) }
        ensures turns { IfOk result (λ turns. turns ≡ rule.needed_of ahead.now (seats_in self.now)) }
    {
        let mut turns = Vec::with_capacity(self.alloc, self.seats.len())?;
        let mut noted = TouchedCache::nothing();
        let mut kept = None;
        for entry in &self.seats {
            turns.push(turns_of(
                self.alloc, ahead, &mut kept, &entry.1, &mut noted, work, steps,
            )?)?;
        }
        Ok(Sequence::from_vec(turns))
    }

    /// What a change of the store comes to for all contexts, before it is committed: at `on_change` each live one is brought up to date
    /// in its user's eyes (RFC 2244 sections 3.3, 3.5 and 6.5). Each touched entry counts as a step for each live context that looks
    /// at it, and is looked up unless the context is certain to be freed. Fails only for want of memory; nothing has changed in either case.
    pub fn prepare<'a, L: Ledger>(
        &self,
        tree: &'a Tree,
        realm: &Realm,
        index: &'a Resolved,
        change: &'a Change,
        steps: &mut Steps<L>,
    ) -> Result<Delta, Memory>
        requires current { IsCurrent tree.now.store realm.now (seats_in self.now) }
        requires index { IsIndexOf tree.now.store.records index.now.0 }
        requires sound { IsSoundStep tree.now.store (store_after change.now tree.now.store) }
        ensures made { IfOk result (IsPreparedFor change.now tree.now.store realm.now (seats_in self.now)) }
        ensures count { IsCounted result steps.old steps.new (touched_in change.now tree.now.store self.now) }
        ensures work { IfOk result (λ delta. delta.work ≡ steps.new - steps.old) }
    {
        if !self.has_live() {
            return Ok(Delta::nothing(self.alloc));
        }
        prepared_law();
        change.writes.form_law();
        let reach = index.reach(tree, change)?;
        let after = After::of(tree, change);
        let ahead = PlannedChange {
            tree,
            change,
            after: &after,
            realm,
            reach: &reach,
        };
        let mut work = 0;
        let seats = self.all_turns(&ahead, &mut work, steps)?;
        Ok(Delta { seats, work })
    }
}
