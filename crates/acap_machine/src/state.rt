//! `State`: the machine: its store, the groups, the index of heirs, and the contexts of all seats.
ghost use Rattle.std.specs.Prelude.{◌≡◌, ◌≤◌, ◌+◌, false, true, IfOk, IfErr, OnErr, OnOk, IsOk, IsSome, Ok, Err};
ghost use Rattle.acap_machine.specs.Changing.{IsKept};
ghost use Rattle.acap_machine.specs.Machine.{new_machine, user_at};
ghost use Rattle.acap_views.specs.Laws.{CurrentLaw};
ghost use Rattle.acap_views.specs.Waiting.{waiting};

use acap_commands::{Event, Fault, Reply};
use acap_entries::{Copying, Memory, Moment, Seat, Steps, Tree, UserName};
use acap_inherit::Resolved;
use acap_rights::Realm;
use acap_store::sound_law;
use acap_views::{Views, current_law};
use std::alloc::Global;
use std::marker::Model;
use std::sync::ledger::Ledger;

/// The machine in memory: seen as who is who, its store and who sits where with which contexts, and beside these how it is kept
/// and what its last event cost, of which no equality of machines speaks (RFC 2244 sections 2 and 3.3).
pub struct State {
    pub(crate) alloc: Global,
    pub(crate) realm: Realm,
    pub(crate) tree: Tree,
    pub(crate) index: Resolved,
    pub(crate) views: Views,
    pub(crate) work: u64,
}

// By hand, so that no other crate takes a machine apart to drop it.
impl Drop for State {
    fn drop(self) {
        let State {
            alloc: _,
            realm: _,
            tree: _,
            index: _,
            views: _,
            work: _,
        } = self;
    }
}

impl Model for State {
    ghost use Rattle.acap_machine.specs.Changing.{IsKept};
    ghost use Rattle.acap_machine.specs.Machine.{Roomed, roomed_code, machine_with};

    ghost Value = { Roomed };

    ghost coded = { roomed_code };

    ghost view = { λ s. record {
      machine = machine_with s.realm s.tree.store s.views;
      kept = record { tree = s.tree; index = s.index; views = s.views };
      work = s.work;
    } };

    ghost invariant = { λ s. IsKept (machine_with s.realm s.tree.store s.views) s.index.0 };
}

impl State {
    ghost use Rattle.acap_commands.specs.declared.event.Fault.TheVariants as faults;
    ghost use Rattle.acap_commands.specs.declared.event.Event.TheVariants as events;
    ghost use Rattle.acap_machine.specs.Stepping.{step_of, Stepped, IsFault};
    ghost use Rattle.acap_machine.specs.Work.{is_search, work_of};

    /// The empty machine of a realm: an empty store, and nobody in any seat. Takes no memory.
    pub fn new(alloc: Global, realm: Realm) -> State
        ensures machine { result.machine ≡ new_machine realm }
        ensures work { result.work ≡ 0 }
    {
        sound_law();
        current_law();
        State {
            alloc,
            realm,
            tree: Tree::new(alloc),
            index: Resolved::new(alloc),
            views: Views::new(alloc),
            work: 0,
        }
    }

    /// The store.
    pub fn tree(&self) -> &Tree
        ensures { result.now.store ≡ self.now.machine.store }
    {
        &self.tree
    }

    /// Who is who.
    pub fn realm(&self) -> &Realm
        ensures { result.now ≡ self.now.machine.realm }
    {
        &self.realm
    }

    /// At which seats a drain has something to send: a bit for each, the lowest for the first (RFC 2244 section 6.5). Takes no
    /// memory.
    pub fn waiting(&self) -> u64
        ensures { result ≡ waiting self.now.machine.seats }
    {
        self.views.waiting()
    }

    /// How many touched entries were looked at for contexts in the last event that was performed: none in a SEARCH.
    pub fn work(&self) -> u64
        ensures { result ≡ self.now.work }
    {
        self.work
    }

    /// An equal machine. Fails only for want of memory.
    pub fn copy(&self) -> Result<State, Memory>
        ensures machine { IfOk result (λ made. made.machine ≡ self.now.machine) }
        ensures work { IfOk result (λ made. made.work ≡ self.now.work) }
    {
        let realm = self.realm.copy()?;
        let tree = self.tree.copy()?;
        let index = self.index.copy()?;
        let views = self.views.copy()?;
        Ok(State {
            alloc: self.alloc,
            realm,
            tree,
            index,
            views,
            work: self.work,
        })
    }

    /// Performs one event of a seat when the clock shows that moment. A fault leaves the machine as it was. Each entry that a
    /// search looks at counts as a step, and so does each touched entry for each live context that looks at it.
    pub fn step<L: Ledger>(
        &mut self,
        seat: Seat,
        event: Event,
        clock: Moment,
        steps: &mut Steps<L>,
    ) -> Result<Reply, Fault>
        ensures ok { IfOk result (λ reply. Stepped self.old.machine seat event clock reply self.new.machine) }
        ensures fault { IfErr result (λ fault. IsFault (step_of self.old.machine seat event clock) fault) }
        ensures err { OnErr result (self.new.machine ≡ self.old.machine) }
        ensures leave { event ≡ events.Leave → IsSome (user_at self.old.machine seat) → IsOk result }
        ensures count { steps.old ≤ steps.new }
        ensures work { is_search event ≡ false
            → steps.new ≤ steps.old + work_of self.old.machine seat event clock }
        ensures rise { is_search event ≡ false → OnOk result (steps.new ≡ steps.old + self.new.work) }
        ensures search { is_search event ≡ true → OnOk result (self.new.work ≡ 0) }
        ensures last { OnErr result (self.new.work ≡ self.old.work) }
    {
        let ready = self.ready_by(seat, event, clock, steps)?;
        Ok(self.apply(ready))
    }

    /// What is so of each machine between two events, and stays so whatever happens to its contexts: does nothing.
    pub(crate) fn kept_law(&self)
        ensures kept { IsKept self.now.machine self.now.kept.index.0 }
        ensures contexts { CurrentLaw }
    {
        current_law();
        let _ = &self.work;
    }

    // Who has a seat.
    pub(crate) fn user(&self, seat: Seat) -> Result<&UserName, Fault>
        ensures ok { IfOk result (λ user. user_at self.now.machine seat ≡ Some user.now) }
        ensures nobody { IfErr result (λ fault. fault ≡ faults.NotEntered) }
        ensures err { OnErr result (user_at self.now.machine seat ≡ None) }
    {
        match self.views.user(seat) {
            Some(user) => Ok(user),
            None => Err(Fault::NotEntered),
        }
    }
}
