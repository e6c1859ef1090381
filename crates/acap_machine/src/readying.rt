//! `ready`: finds the reply of an event, and makes all that it will put in place. It changes nothing.
ghost use Rattle.std.specs.Prelude.{◌≡◌, ◌≤◌, false, true, IfOk, IsOk, IsSome};
ghost use Rattle.acap_commands.specs.declared.event.Event.TheVariants as events;
ghost use Rattle.acap_machine.specs.Machine.{user_at};
ghost use Rattle.acap_machine.specs.Readied.{IsReadyFor, IsWork};
ghost use Rattle.acap_machine.specs.Work.{is_search, searches, work_of};

use crate::effect::Effect;
use crate::ready::Ready;
use crate::state::State;
use acap_commands::{Command, Event, Fault, Refusal, Said, Verb};
use acap_entries::{Copying, Moment, Seat, Steps, UserName};
use acap_store::Write;
use std::sync::ledger::Ledger;

impl State {
    /// Makes one event of a seat ready when the clock shows that moment: `apply` then puts it in place, at no memory. The machine is
    /// as before in either case. What goes into the store is copied, so that the event can be kept. A Leave of a user who has the
    /// seat takes no memory and is never refused.
    pub fn ready<L: Ledger>(
        &mut self,
        seat: Seat,
        event: &Event,
        clock: Moment,
        steps: &mut Steps<L>,
    ) -> Result<Ready, Fault>
        ensures answer { IsReadyFor result self.old seat event.now clock self.new }
        ensures same { self.new.machine ≡ self.old.machine }
        ensures last { self.new.work ≡ self.old.work }
        ensures leave { event.now ≡ events.Leave → IsSome (user_at self.old.machine seat) → IsOk result }
        ensures count { steps.old ≤ steps.new }
        ensures work { is_search event.now ≡ false
            → IsWork result steps.old steps.new (work_of self.old.machine seat event.now clock) }
        ensures search { is_search event.now ≡ true → IfOk result (λ r. r.work ≡ 0) }
    {
        if let Event::Leave = event {
            return self.ready_leave(seat, clock);
        }
        let event = event.copy()?;
        self.ready_by(seat, event, clock, steps)
    }

    // The same of an event that is given away.
    pub(crate) fn ready_by<L: Ledger>(
        &mut self,
        seat: Seat,
        event: Event,
        clock: Moment,
        steps: &mut Steps<L>,
    ) -> Result<Ready, Fault>
        ensures answer { IsReadyFor result self.old seat event clock self.new }
        ensures same { self.new.machine ≡ self.old.machine }
        ensures last { self.new.work ≡ self.old.work }
        ensures leave { event ≡ events.Leave → IsSome (user_at self.old.machine seat) → IsOk result }
        ensures count { steps.old ≤ steps.new }
        ensures work { is_search event ≡ false
            → IsWork result steps.old steps.new (work_of self.old.machine seat event clock) }
        ensures search { is_search event ≡ true → IfOk result (λ r. r.work ≡ 0) }
    {
        match event {
            Event::Enter(user) => self.ready_enter(seat, user, clock),
            Event::Command(command) => self.ready_command(seat, command, clock, steps),
            Event::Drain => self.ready_drain(seat, clock),
            Event::Leave => self.ready_leave(seat, clock),
        }
    }

    // A user takes a seat that is free.
    fn ready_enter(&mut self, seat: Seat, user: UserName, clock: Moment) -> Result<Ready, Fault>
        ensures answer { IsReadyFor result self.old seat (events.Enter user) clock self.new }
        ensures same { self.new.machine ≡ self.old.machine }
        ensures last { self.new.work ≡ self.old.work }
        ensures none { IfOk result (λ r. r.work ≡ 0) }
    {
        self.kept_law();
        if self.views.user(seat).is_some() {
            return Err(Fault::AlreadyEntered);
        }
        self.views.reserve_seat()?;
        Ok(Ready::new(seat, Effect::Enters(user), Said::Greeting))
    }

    // All that waits at a seat is sent.
    fn ready_drain(&mut self, seat: Seat, clock: Moment) -> Result<Ready, Fault>
        ensures answer { IsReadyFor result self.old seat events.Drain clock self.new }
        ensures same { self.new.machine ≡ self.old.machine }
        ensures last { self.new.work ≡ self.old.work }
        ensures none { IfOk result (λ r. r.work ≡ 0) }
    {
        self.kept_law();
        self.user(seat)?;
        let tolds = self.views.drain_tolds(seat)?;
        Ok(Ready::new(seat, Effect::Drains, Said::Drained(tolds)))
    }

    // The user leaves the seat. Takes no memory.
    fn ready_leave(&self, seat: Seat, clock: Moment) -> Result<Ready, Fault>
        ensures answer { IsReadyFor result self.now seat events.Leave clock self.now }
        ensures none { IfOk result (λ r. r.work ≡ 0) }
        ensures done { IsSome (user_at self.now.machine seat) → IsOk result }
    {
        self.kept_law();
        self.user(seat)?;
        Ok(Ready::new(seat, Effect::Leaves, Said::Left))
    }

    // The user of a seat gives a command.
    #[tactic(auto, unfolding(crate::specs::Serving::answer_to))]
    fn ready_command<L: Ledger>(
        &mut self,
        seat: Seat,
        command: Command,
        clock: Moment,
        steps: &mut Steps<L>,
    ) -> Result<Ready, Fault>
        ensures answer { IsReadyFor result self.old seat (events.Command command) clock self.new }
        ensures same { self.new.machine ≡ self.old.machine }
        ensures last { self.new.work ≡ self.old.work }
        ensures count { steps.old ≤ steps.new }
        ensures work { searches command ≡ false
            → IsWork result steps.old steps.new
            (work_of self.old.machine seat (events.Command command) clock) }
        ensures search { searches command ≡ true → IfOk result (λ r. r.work ≡ 0) }
    {
        match command {
            Command::Noop => self.ready_words(seat, Said::Done(Verb::Noop)),
            Command::Logout => self.ready_words(seat, Said::GoodBye),
            Command::Authenticate(_) => self.ready_words(seat, Said::Refused(Refusal::LoggedIn)),
            Command::Store(entries) => {
                let write = Write::Store(entries);
                self.ready_write(seat, Verb::Store, write, clock, steps)
            }
            Command::SetAcl(object, identifier, letters) => {
                let write = Write::SetAcl(object, identifier, letters);
                self.ready_write(seat, Verb::SetAcl, write, clock, steps)
            }
            Command::DeleteAcl(object, identifier) => {
                let write = Write::DeleteAcl(object, identifier);
                self.ready_write(seat, Verb::DeleteAcl, write, clock, steps)
            }
            Command::Search(search) => self.ready_search(seat, search, steps),
            Command::MyRights(object) => self.ready_rights(seat, object),
            Command::ListRights(object, identifier) => {
                self.ready_list(seat, object, identifier.as_slice())
            }
            Command::DeletedSince(dataset, since) => self.ready_deletions(seat, &dataset, since),
            Command::FreeContext(name) => self.ready_free(seat, name),
            Command::UpdateContext(names) => self.ready_update(seat, names),
        }
    }
}
