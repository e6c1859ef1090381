//! `SeatContexts`: the user at a seat, and the contexts of the session there.
ghost use Rattle.std.specs.Prelude.{◌≡◌, ◌<◌, OnOk, IfOk};
ghost use Rattle.std.specs.FinMap as table;
ghost use Rattle.acap_entries.specs.Orders.{octets_cmp};
ghost use Rattle.acap_ordmap.specs.Sorted.{InOrder};
ghost use Rattle.acap_views.specs.Keeping.{contexts_in, occupant_in};
ghost use Rattle.acap_views.specs.Maps.{each_kept};
ghost use Rattle.acap_views.specs.Telling.{after_updates, after_drain};

use crate::contexts::{copy_contexts, drain, gather, tell_named};
use crate::open_context::OpenContext;
use acap_entries::{
    ContextName, Copying, Memory, Moment, UserName, Whole, put_in_room, room_for_one, take_out,
};
use std::alloc::Global;
use std::marker::Model;

/// The user of a seat, and the contexts of the session that has it, in the order of their names (RFC 2244 sections 2 and 3.3).
#[derive(Drop)]
pub(crate) struct SeatContexts {
    pub(crate) user: UserName,
    pub(crate) contexts: Vec<(ContextName, OpenContext)>,
}

impl Model for SeatContexts {
    ghost use Rattle.std.specs.Prelude.{◌-◌, vec_len, vec_capacity};
    ghost use Rattle.std.specs.FinMap as table;
    ghost use Rattle.acap_entries.specs.Orders.{octets_cmp};
    ghost use Rattle.acap_ordmap.specs.Sorted.{InOrder};
    ghost use Rattle.acap_views.specs.Keeping.{RoomyOccupant, roomy_occupant_code};

    ghost Value = { RoomyOccupant };

    ghost coded = { roomy_occupant_code };

    ghost view = { λ s. record {
      user = s.user;
      contexts = table.from_sorted s.contexts.items;
      spare = vec_capacity s.contexts - vec_len s.contexts;
    } };

    ghost invariant = { λ s. InOrder octets_cmp s.contexts.items };
}

impl SeatContexts {
    /// A user who has just come has no context. Takes no memory.
    pub(crate) fn new(alloc: Global, user: UserName) -> SeatContexts
        ensures { occupant_in result ≡ record { user = user; contexts = table.empty } }
    {
        SeatContexts {
            user,
            contexts: Vec::new(alloc),
        }
    }

    /// Who sits there.
    pub(crate) fn user(&self) -> &UserName
        ensures { result.now ≡ self.now.user }
    {
        &self.user
    }

    /// The contexts, in the order of their names.
    pub(crate) fn contexts(&self) -> &[(ContextName, OpenContext)]
        ensures order { InOrder octets_cmp result.now }
        ensures value { table.from_sorted result.now ≡ self.now.contexts }
    {
        self.contexts.as_slice()
    }

    /// Makes room for one context more. The contexts stay, also where memory is refused.
    pub(crate) fn make_room(&mut self) -> Result<(), Memory>
        ensures user { self.new.user ≡ self.old.user }
        ensures contexts { self.new.contexts ≡ self.old.contexts }
        ensures ok { OnOk result (0 < self.new.spare) }
    {
        room_for_one(&mut self.contexts)
    }

    /// Puts a context under its name, in the room that there is; one of this name makes way. Takes no memory.
    pub(crate) fn put(&mut self, name: ContextName, context: OpenContext)
        requires { 0 < self.old.spare }
        ensures user { self.new.user ≡ self.old.user }
        ensures contexts { self.new.contexts ≡ table.insert self.old.contexts name context }
    {
        put_in_room(&mut self.contexts, name, context);
    }

    /// Takes the context of a name out, and reports whether there was one. Takes no memory.
    pub(crate) fn free(&mut self, name: &ContextName) -> bool
        ensures freed { result ≡ table.contains_key self.old.contexts name.now }
        ensures user { self.new.user ≡ self.old.user }
        ensures contexts { self.new.contexts ≡ table.remove self.old.contexts name.now }
    {
        take_out(&mut self.contexts, &Whole { key: name }).is_some()
    }

    /// Puts what waits of each context where a reply can hold it too. The contexts stay, also where memory is refused.
    pub(crate) fn gather(&mut self) -> Result<(), Memory>
        ensures user { self.new.user ≡ self.old.user }
        ensures contexts { contexts_in self.new.contexts ≡ contexts_in self.old.contexts }
    {
        gather(&mut self.contexts)
    }

    /// The contexts of these names are sent all that waits, and then the moment of the store's last change. Takes no memory.
    pub(crate) fn tell(&mut self, alloc: Global, names: &[ContextName], last: Moment)
        ensures user { self.new.user ≡ self.old.user }
        ensures told { contexts_in self.new.contexts
            ≡ after_updates (contexts_in self.old.contexts) names.now last }
    {
        tell_named(alloc, &mut self.contexts, names, last);
    }

    /// Each context is sent all that waits, and freed ones are taken out. Takes no memory.
    pub(crate) fn drain(&mut self, alloc: Global)
        ensures user { self.new.user ≡ self.old.user }
        ensures told { contexts_in self.new.contexts ≡ each_kept after_drain (contexts_in self.old.contexts) }
    {
        drain(alloc, &mut self.contexts);
    }

    /// The same user with equal contexts. Fails only for want of memory.
    pub(crate) fn copy(&self) -> Result<SeatContexts, Memory>
        ensures { IfOk result (λ made. occupant_in made ≡ occupant_in self.now) }
    {
        let contexts = copy_contexts(&self.contexts)?;
        Ok(SeatContexts {
            user: self.user.copy()?,
            contexts,
        })
    }
}
