//! MAKECONTEXT: a context gets its place at a seat; and the context that a SEARCH over one starts from.
ghost use Rattle.std.specs.Prelude.{◌≡◌, IsSome, OnOk, OnErr, IfOk, IfErr, Ok, Err};
ghost use Rattle.std.specs.FinMap as table;
ghost use Rattle.acap_entries.specs.Orders.{octets_cmp};
ghost use Rattle.acap_ordmap.specs.Ranks.{Ascending};
ghost use Rattle.acap_ordmap.specs.Sorted.{InOrder};
ghost use Rattle.acap_search.specs.Matches.{match_cmp};
ghost use Rattle.acap_views.specs.Answering.{IsAnswer, HasPlace, with_context};
ghost use Rattle.acap_views.specs.Keeping.{seats_in};
ghost use Rattle.acap_views.specs.Listing.{as_contexts};
ghost use Rattle.acap_views.specs.Opening as rule;
ghost use Rattle.acap_views.specs.Ranging.{range_at};
ghost use Rattle.acap_views.specs.Started.{as_ranged};

use crate::lent_context::LentContext;
use crate::new_context::NewContext;
use crate::open_context::OpenContext;
use crate::refusal::ViewRefusal;
use crate::views::Views;
use acap_commands::MakeContext;
use acap_entries::{ContextName, Memory, Moment, Seat, Whole, lookup, place_of};
use acap_search::{Hits, SearchSpec};

/// How many contexts a session may have, freed ones among them (RFC 2244 section 3.3).
pub const MOST_CONTEXTS: usize = 200;

/// Whether there is no place for one more; a context of the same name makes way.
pub(crate) fn is_full(contexts: &[(ContextName, OpenContext)], name: &ContextName) -> bool
    requires { InOrder octets_cmp contexts.now }
    ensures { result ≡ rule.is_full (as_contexts contexts.now) name.now }
{
    match lookup(contexts, &Whole { key: name }) {
        Some(_) => false,
        None => MOST_CONTEXTS <= contexts.len(),
    }
}

impl Views {
    // Makes room for one context more at a seat. Nobody's contexts change, also where memory is refused.
    fn reserve_context(&mut self, seat: Seat) -> Result<(), Memory>
        requires { IsSome (table.get (seats_in self.old) seat) }
        ensures same { seats_in self.new ≡ seats_in self.old }
        ensures room { OnOk result (HasPlace self.new seat) }
    {
        let (at, _) = place_of(self.seats.as_slice(), &Whole { key: &seat });
        self.seats[at].1.make_room()
    }

    /// The context that a search makes at a seat, and room for it there: `TryFreeContext` exactly where there
    /// is no place, before memory is asked for (RFC 2244 section 6.4.1). Nobody's contexts change.
    pub fn make_context(
        &mut self,
        seat: Seat,
        make: MakeContext,
        sought: SearchSpec,
        hits: Hits,
        last: Moment,
    ) -> Result<NewContext, ViewRefusal>
        requires somebody { IsSome (table.get (seats_in self.old) seat) }
        requires order { Ascending match_cmp hits }
        ensures answer { IsAnswer (rule.with_context (seats_in self.old) seat make sought hits last)
            (with_context (seats_in self.old) seat) result }
        ensures same { seats_in self.new ≡ seats_in self.old }
        ensures room { OnOk result (HasPlace self.new seat) }
    {
        if is_full(self.contexts(seat), &make.name) {
            return Err(ViewRefusal::TryFreeContext);
        }
        let context = OpenContext::new(self.alloc, &make, sought, hits, last)?;
        self.reserve_context(seat)?;
        Ok(NewContext {
            name: make.name,
            context,
        })
    }

    /// Puts a context that was made at a seat, in the room that there is; one of its name makes way (RFC 2244 section 6.4.1).
    /// Takes no memory.
    pub fn put_context(&mut self, seat: Seat, new: NewContext)
        requires { HasPlace self.old seat }
        ensures { seats_in self.new ≡ with_context (seats_in self.old) seat new }
    {
        let (at, _) = place_of(self.seats.as_slice(), &Whole { key: &seat });
        self.seats[at].1.put(new.name, new.context);
    }

    /// Makes the context of a search at a seat; one of its name makes way. `TryFreeContext` exactly where
    /// there is no place, before memory is asked for. At a refusal nothing has changed (RFC 2244 section
    /// 6.4.1).
    pub fn open(
        &mut self,
        seat: Seat,
        make: MakeContext,
        sought: SearchSpec,
        hits: Hits,
        last: Moment,
    ) -> Result<(), ViewRefusal>
        requires somebody { IsSome (table.get (seats_in self.old) seat) }
        requires order { Ascending match_cmp hits }
        ensures answer { IsAnswer (rule.with_context (seats_in self.old) seat make sought hits last)
            (λ _. seats_in self.new) result }
        ensures err { OnErr result (seats_in self.new ≡ seats_in self.old) }
    {
        let new = self.make_context(seat, make, sought, hits, last)?;
        self.put_context(seat, new);
        Ok(())
    }

    /// What a search over the context of a name starts from: what its own search looked for, whether its entries have positions,
    /// up to which moment its client has been sent all, and the list that was sent. Refused exactly where there is no such context, or the
    /// server has freed it (RFC 2244 sections 3.3 and 6.4.1). Takes no memory.
    pub fn range(&self, seat: Seat, name: &ContextName) -> Result<LentContext<'_>, ViewRefusal>
        ensures ok { IfOk result (λ lent. range_at (seats_in self.now) seat name.now ≡ Ok (as_ranged lent)) }
        ensures refused { IfErr result (λ why. range_at (seats_in self.now) seat name.now ≡ Err why) }
    {
        match lookup(self.contexts(seat), &Whole { key: name }) {
            Some(context) => context.lend(),
            None => Err(ViewRefusal::NoContext),
        }
    }
}
