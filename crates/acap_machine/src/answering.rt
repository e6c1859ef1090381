//! Makes ready: rights, DELETEDSINCE, FREECONTEXT, UPDATECONTEXT, and commands that only answer.
ghost use Rattle.std.specs.Prelude.{◌≡◌, IfOk};
ghost use Rattle.acap_machine.specs.Readied.{IsReadyOf};
ghost use Rattle.acap_machine.specs.Serving as rule;
ghost use Rattle.acap_machine.specs.Stepping.{answer_at};

use crate::effect::Effect;
use crate::ready::Ready;
use crate::refusing::{refuse, refuse_view};
use crate::state::State;
use acap_commands::{ContextNames, Fault, ObjectName, Refusal, Said, Verb};
use acap_entries::{Boxed, ContextName, Dataset, Moment, Seat};
use acap_rights::{implicit_rights, rights_of};
use acap_store::{deleted_since, lent_object, object_for};
use acap_views::has_context;

impl State {
    /// Words for who has a seat, whatever the machine.
    pub(crate) fn ready_words(&self, seat: Seat, words: Said) -> Result<Ready, Fault>
        ensures answer { IsReadyOf result self.now
            (answer_at self.now.machine seat (λ m u. (words, m))) self.now }
        ensures none { IfOk result (λ r. r.work ≡ 0) }
    {
        self.kept_law();
        self.user(seat)?;
        Ok(Ready::saying(seat, words))
    }

    /// A MYRIGHTS (RFC 2244 section 6.7).
    pub(crate) fn ready_rights(&self, seat: Seat, object: Boxed<ObjectName>) -> Result<Ready, Fault>
        ensures answer { IsReadyOf result self.now
            (answer_at self.now.machine seat (λ m u. rule.rights_told m u object)) self.now }
        ensures none { IfOk result (λ r. r.work ≡ 0) }
    {
        self.kept_law();
        let user = self.user(seat)?;
        let object = object_for(user, object.into_value())?;
        let rights = rights_of(&self.tree, &self.realm, user, &lent_object(&object));
        let letters = rights.letters();
        Ok(Ready::saying(seat, Said::Rights(letters)))
    }

    /// A LISTRIGHTS (RFC 2244 section 6.7).
    pub(crate) fn ready_list(
        &self,
        seat: Seat,
        object: Boxed<ObjectName>,
        identifier: &[u8],
    ) -> Result<Ready, Fault>
        ensures answer { IsReadyOf result self.now
            (answer_at self.now.machine seat (λ m u. rule.rights_listed m u object identifier.now)) self.now }
        ensures none { IfOk result (λ r. r.work ≡ 0) }
    {
        self.kept_law();
        let user = self.user(seat)?;
        let meant = object_for(user, object.into_value())?;
        let rights = implicit_rights(&self.realm, identifier, lent_object(&meant).dataset());
        let list = rights.list(self.alloc)?;
        Ok(Ready::saying(seat, Said::RightsList(list)))
    }

    /// A DELETEDSINCE (RFC 2244 section 6.6.2).
    pub(crate) fn ready_deletions(
        &self,
        seat: Seat,
        dataset: &Dataset,
        since: Moment,
    ) -> Result<Ready, Fault>
        ensures answer { IsReadyOf result self.now
            (answer_at self.now.machine seat (λ m u. rule.deletions_answer m u dataset.now since)) self.now }
        ensures none { IfOk result (λ r. r.work ≡ 0) }
    {
        self.kept_law();
        let user = self.user(seat)?;
        let words = match deleted_since(self.alloc, &self.tree, &self.realm, user, dataset, since) {
            Ok(names) => Said::Deleted(names),
            Err(refusal) => refuse(refusal)?,
        };
        Ok(Ready::saying(seat, words))
    }

    /// A FREECONTEXT (RFC 2244 section 6.5). Takes no memory.
    pub(crate) fn ready_free(&self, seat: Seat, name: ContextName) -> Result<Ready, Fault>
        ensures answer { IsReadyOf result self.now
            (answer_at self.now.machine seat (λ m u. rule.free_answer m seat name)) self.now }
        ensures none { IfOk result (λ r. r.work ≡ 0) }
    {
        self.kept_law();
        self.user(seat)?;
        if !has_context(&self.views, seat, &name) {
            return Ok(Ready::saying(seat, Said::Refused(Refusal::NoContext)));
        }
        Ok(Ready::new(seat, Effect::Frees(name), Said::Done(Verb::FreeContext)))
    }

    /// An UPDATECONTEXT (RFC 2244 section 6.5).
    pub(crate) fn ready_update(&mut self, seat: Seat, names: ContextNames) -> Result<Ready, Fault>
        ensures answer { IsReadyOf result self.old
            (answer_at self.old.machine seat (λ m u. rule.update_answer m seat names)) self.new }
        ensures same { self.new.machine ≡ self.old.machine }
        ensures last { self.new.work ≡ self.old.work }
        ensures none { IfOk result (λ r. r.work ≡ 0) }
    {
        self.kept_law();
        self.user(seat)?;
        let last = self.tree.last();
        let tolds = match self.views.tolds_of(seat, names.as_slice(), last) {
            Ok(tolds) => tolds,
            Err(refusal) => return Ok(Ready::saying(seat, refuse_view(refusal)?)),
        };
        Ok(Ready::new(seat, Effect::Tells(names, last), Said::Updated(tolds)))
    }
}
