//! Makes ready: STORE, SETACL and DELETEACL.
ghost use Rattle.std.specs.Prelude.{◌≡◌, ◌+◌, true, IfOk, Ok, map as each};
ghost use Rattle.std.specs.List.{list_all};
ghost use Rattle.acap_entries.specs.Changes.{store_after};
ghost use Rattle.acap_entries.specs.FullPaths.{is_well_formed};
ghost use Rattle.acap_commands.specs.declared.said.Said.TheVariants as saying;
ghost use Rattle.acap_machine.specs.Changing.{changed_by};
ghost use Rattle.acap_machine.specs.Readied.{AreViewsReady, IsIndexReady, IsReadyOf, IsWork};
ghost use Rattle.acap_machine.specs.Serving as rule;
ghost use Rattle.acap_machine.specs.Stepping.{answer_at, reply_of};
ghost use Rattle.acap_machine.specs.Work.{touched_by, work_at};
ghost use Rattle.acap_search.specs.Counting.{IsCounted};
ghost use Rattle.acap_store.specs.DatasetLaws.{paths_named};
ghost use Rattle.acap_store.specs.Meaning.{list_path, target_in};
ghost use Rattle.acap_views.specs.Changing.{IsSoundStep};

use crate::effect::Effect;
use crate::ready::Ready;
use crate::refusing::refuse;
use crate::state::State;
use acap_commands::{Fault, ObjectName, Reply, Said, StoreEntry, Verb};
use acap_entries::{Change, Memory, Moment, Seat, Steps};
use acap_inherit::Prepared;
use acap_store::{Write, plan, sound_law};
use acap_views::Delta;
use std::sync::ledger::Ledger;

// The path of each entry is well formed: goes over them and does nothing.
fn form_entries(entries: &[StoreEntry])
    ensures { list_all is_well_formed (each (λ e. e.path) entries.now) ≡ true }
{
    let mut left = entries;
    while let Some((first, others)) = left.split_first() {
        first.path.form_law();
        left = others;
    }
}

// The path at which the list of an object is kept is well formed: does nothing.
fn form_object(object: &ObjectName)
    ensures { is_well_formed (list_path (target_in object.now)) ≡ true }
{
    match object {
        ObjectName::Dataset { dataset } => {
            let _octets = dataset.as_slice();
        }
        ObjectName::Attribute { dataset, .. } => {
            let _octets = dataset.as_slice();
        }
        ObjectName::Entry { dataset, name, .. } => {
            let _octets = dataset.as_slice();
            name.get().form_law();
        }
    }
}

// The paths that a command names are well formed: does nothing.
fn form_write(write: &Write)
    ensures { list_all is_well_formed (paths_named write.now) ≡ true }
{
    match write {
        Write::Store(entries) => form_entries(entries.as_slice()),
        Write::SetAcl(object, _, _) => form_object(object.get()),
        Write::DeleteAcl(object, _) => form_object(object.get()),
    }
}

impl State {
    // What a change makes of the index and of the contexts of all seats.
    fn prepare_followers<L: Ledger>(
        &self,
        change: &Change,
        steps: &mut Steps<L>,
    ) -> Result<(Prepared, Delta), Memory>
        requires sound { IsSoundStep self.now.machine.store (store_after change.now self.now.machine.store) }
        ensures index { IfOk result (λ p. IsIndexReady change.now self.now p.0) }
        ensures views { IfOk result (λ p. AreViewsReady change.now self.now p.1) }
        ensures count { IsCounted result steps.old steps.new (touched_by self.now.machine change.now) }
        ensures work { IfOk result (λ p. steps.new ≡ steps.old + p.1.work) }
    {
        let links = self.index.prepare(&self.tree, change)?;
        let delta = self
            .views
            .prepare(&self.tree, &self.realm, &self.index, change, steps)?;
        Ok((links, delta))
    }

    // A change is made ready, answered as done under its verb.
    fn ready_change<L: Ledger>(
        &mut self,
        seat: Seat,
        verb: Verb,
        change: Change,
        steps: &mut Steps<L>,
    ) -> Result<Ready, Fault>
        requires sound { IsSoundStep self.old.machine.store (store_after change self.old.machine.store) }
        ensures answer { IsReadyOf result self.old
            (Ok (reply_of (saying.Done verb, changed_by change self.old.machine))) self.new }
        ensures same { self.new.machine ≡ self.old.machine }
        ensures last { self.new.work ≡ self.old.work }
        ensures work { IsWork result steps.old steps.new (touched_by self.old.machine change) }
    {
        self.kept_law();
        let (links, delta) = self.prepare_followers(&change, steps)?;
        let work = delta.work();
        self.tree.reserve(&change)?;
        self.index.reserve(&links)?;
        self.views.reserve(&delta)?;
        Ok(Ready {
            seat,
            effect: Effect::Changes(change, links, delta),
            reply: Reply::new(Said::Done(verb)),
            work,
        })
    }

    /// A command that writes (RFC 2244 sections 6.6.1 and 6.7).
    pub(crate) fn ready_write<L: Ledger>(
        &mut self,
        seat: Seat,
        verb: Verb,
        write: Write,
        clock: Moment,
        steps: &mut Steps<L>,
    ) -> Result<Ready, Fault>
        ensures answer { IsReadyOf result self.old
            (answer_at self.old.machine seat (λ m u. rule.write_answer m u verb write clock)) self.new }
        ensures same { self.new.machine ≡ self.old.machine }
        ensures last { self.new.work ≡ self.old.work }
        ensures work { IsWork result steps.old steps.new (work_at self.old.machine seat write clock) }
    {
        sound_law();
        form_write(&write);
        let state = &*self;
        state.kept_law();
        let user = state.user(seat)?;
        user.form_law();
        match plan(state.alloc, &state.tree, &state.realm, user, write, clock) {
            Ok(change) => self.ready_change(seat, verb, change, steps),
            Err(refusal) => Ok(Ready::saying(seat, refuse(refusal)?)),
        }
    }
}
