//! `Views`: FREECONTEXT, UPDATECONTEXT and the drain of a seat.
ghost use Rattle.std.specs.Prelude.{◌≡◌, ◌<◌, OnOk, OnErr, IfOk, IfErr, Ok, Err};
ghost use Rattle.acap_views.specs.Answering.{IsAnswer, update_tells};
ghost use Rattle.acap_views.specs.Keeping.{seats_in};
ghost use Rattle.acap_views.specs.Opening.{freed_by};
ghost use Rattle.acap_views.specs.Seats.{contexts_at, with_contexts};
ghost use Rattle.acap_views.specs.Telling.{told_of, after_updates, drain_of};

use crate::refusal::ViewRefusal;
use crate::telling;
use crate::views::Views;
use acap_entries::{ContextName, Memory, Moment, Seat, Whole, place_of};
use acap_notices::Tolds;

impl Views {
    /// Frees the context of a name; one that the server has freed too. Refused exactly where there is none (RFC 2244 section
    /// 6.5). Takes no memory.
    pub fn free(&mut self, seat: Seat, name: &ContextName) -> Result<(), ViewRefusal>
        ensures ok { OnOk result (freed_by (seats_in self.old) seat name.now ≡ Ok (seats_in self.new)) }
        ensures refused { IfErr result (λ why. freed_by (seats_in self.old) seat name.now ≡ Err why) }
        ensures err { OnErr result (seats_in self.new ≡ seats_in self.old) }
    {
        let (at, tied) = place_of(self.seats.as_slice(), &Whole { key: &seat });
        if !tied {
            return Err(ViewRefusal::NoContext);
        }
        if !self.seats[at].1.free(name) {
            return Err(ViewRefusal::NoContext);
        }
        Ok(())
    }

    // Puts what waits at a seat where a reply can hold it too. Nobody's contexts change, also where memory is refused.
    fn gather(&mut self, seat: Seat) -> Result<(), Memory>
        ensures { seats_in self.new ≡ seats_in self.old }
    {
        let (at, tied) = place_of(self.seats.as_slice(), &Whole { key: &seat });
        if !tied {
            return Ok(());
        }
        self.seats[at].1.gather()
    }

    /// What an UPDATECONTEXT sends of the contexts of these names, one after the other. The first fault in their order refuses
    /// all, and is found before memory is asked for (RFC 2244 section 6.5). The answer holds the lists in which notices wait.
    /// Nobody's contexts change, also where memory is refused.
    pub fn tolds_of(
        &mut self,
        seat: Seat,
        names: &[ContextName],
        last: Moment,
    ) -> Result<Tolds, ViewRefusal>
        ensures answer { IsAnswer (update_tells (contexts_at (seats_in self.old) seat) names.now last)
            (λ tolds. tolds) result }
        ensures same { seats_in self.new ≡ seats_in self.old }
    {
        if let Some(fault) = telling::fault_of(self.contexts(seat), names) {
            return Err(fault);
        }
        self.gather(seat)?;
        let batches = telling::tell_in_turn(self.alloc, self.contexts(seat), names, last)?;
        Ok(Tolds::new(batches)?)
    }

    /// What waits of the contexts of these names has been sent: live ones show their present lists (RFC 2244 section 6.5). Takes no memory.
    pub fn tell(&mut self, seat: Seat, names: &[ContextName], last: Moment)
        ensures { seats_in self.new ≡ with_contexts (seats_in self.old) seat
            (after_updates (contexts_at (seats_in self.old) seat) names.now last) }
    {
        let (at, tied) = place_of(self.seats.as_slice(), &Whole { key: &seat });
        if !tied {
            return;
        }
        self.seats[at].1.tell(self.alloc, names, last);
    }

    /// Sends all that waits for the contexts of these names (RFC 2244 section 6.5). The first fault in their order refuses all,
    /// and is found before memory is asked for. At a refusal nothing has changed.
    pub fn update(
        &mut self,
        seat: Seat,
        names: &[ContextName],
        last: Moment,
    ) -> Result<Tolds, ViewRefusal>
        ensures answer { IsAnswer (told_of (seats_in self.old) seat names.now last)
            (λ tolds. (tolds, seats_in self.new)) result }
        ensures err { OnErr result (seats_in self.new ≡ seats_in self.old) }
    {
        let tolds = self.tolds_of(seat, names, last)?;
        self.tell(seat, names, last);
        Ok(tolds)
    }

    /// What a drain sends at a seat: what waits of each context in the order of the names, and which of them the server has freed
    /// (RFC 2244 section 6.5). The answer holds the lists in which notices wait. Fails only for want of memory. Nobody's contexts
    /// change in either case.
    pub fn drain_tolds(&mut self, seat: Seat) -> Result<Tolds, Memory>
        ensures told { IfOk result (λ tolds. tolds ≡ (drain_of (seats_in self.old) seat).0) }
        ensures same { seats_in self.new ≡ seats_in self.old }
    {
        self.gather(seat)?;
        let batches = telling::drain(self.alloc, self.contexts(seat))?;
        Tolds::new(batches)
    }

    /// All that a drain sends at a seat has been sent: live contexts show their present lists, and freed ones are gone (RFC 2244
    /// section 6.5). Takes no memory.
    pub fn drop_told(&mut self, seat: Seat)
        ensures { seats_in self.new ≡ (drain_of (seats_in self.old) seat).1 }
    {
        let (at, tied) = place_of(self.seats.as_slice(), &Whole { key: &seat });
        if !tied {
            return;
        }
        self.seats[at].1.drain(self.alloc);
    }

    /// Sends all that waits at a seat (RFC 2244 section 6.5). Fails only for want of memory, and then nothing has changed.
    pub fn drain(&mut self, seat: Seat) -> Result<Tolds, Memory>
        ensures ok { IfOk result (λ tolds. drain_of (seats_in self.old) seat ≡ (tolds, seats_in self.new)) }
        ensures err { OnErr result (seats_in self.new ≡ seats_in self.old) }
    {
        let tolds = self.drain_tolds(seat)?;
        self.drop_told(seat);
        Ok(tolds)
    }
}
