//! The two lists of a live context: what a search finds now, and what its client was sent last.
ghost use Rattle.std.specs.Prelude.{◌≡◌, [], IfOk, OnOk};
ghost use Rattle.acap_ordmap.specs.Ranks.{Ascending};
ghost use Rattle.acap_search.specs.Matches.{match_cmp};
ghost use Rattle.acap_views.specs.Room.{HasRoom};
ghost use Rattle.acap_views.specs.Undoing.{matches_lent};

use crate::last_sent::LastSent;
use crate::undo::shown_hits;
use acap_entries::{Copying, Memory, Ranked, Shared};
use acap_notices::{Notice, Queue};
use acap_search::{BoxedHit, Hit, Hits};
use std::alloc::Global;
use std::marker::Model;

/// How many moves are kept of a context before the list that its client was sent is written out.
pub(crate) const MOST_MOVES: usize = 8_192;

/// The lists of a live context: the one that was sent last, the present one and the notices that wait (RFC 2244 section 3.3). The
/// hits of the present one stand in boxes; the one that was sent is the present one with moves taken back.
#[derive(Drop)]
pub(crate) struct LiveLists {
    pub(crate) hits: Ranked<BoxedHit>,
    pub(crate) shown: LastSent,
    pub(crate) pending: Queue,
}

impl Model for LiveLists {
    ghost use Rattle.acap_views.specs.Room.{Watched, watched_code};
    ghost use Rattle.acap_views.specs.Undoing.{shown_in, room_in};

    ghost Value = { Watched };

    ghost coded = { watched_code };

    ghost view = { λ w. record {
      shown = shown_in w.shown w.hits.0;
      present = w.hits.0;
      pending = w.pending.notices;
      space = record { hits = w.hits.1; moves = room_in w.shown; notices = w.pending.room };
    } };
}

// Hits in boxes.
fn box_hits(alloc: Global, hits: Hits) -> Result<Vec<BoxedHit>, Memory>
    ensures { IfOk result (λ made. made.items ≡ hits) }
{
    let mut made = Vec::with_capacity(alloc, hits.len())?;
    for hit in hits.into_vec() {
        made.push(BoxedHit::new(alloc, hit)?)?;
    }
    Ok(made)
}

// Copies of hits.
fn copy_hits(alloc: Global, hits: &Vec<&Hit>) -> Result<Hits, Memory>
    ensures { IfOk result (λ made. made ≡ matches_lent hits.now.items) }
{
    let mut made = Vec::with_capacity(alloc, hits.len())?;
    for hit in hits {
        made.push(hit.copy()?)?;
    }
    Ok(Hits::from_vec(made))
}

// Whether `more` moves may be kept beside those that are, or none are.
fn has_places(shown: &LastSent, more: usize) -> bool {
    match shown {
        LastSent::Moves(undos) => undos.len() <= MOST_MOVES && more <= MOST_MOVES - undos.len(),
        LastSent::Written(_) => true,
    }
}

impl LiveLists {
    /// A list that was sent as it was found, of which nothing waits. Fails only for want of memory.
    pub(crate) fn new(alloc: Global, hits: Hits) -> Result<LiveLists, Memory>
        requires { Ascending match_cmp hits }
        ensures shown { IfOk result (λ made. made.shown ≡ hits) }
        ensures present { IfOk result (λ made. made.present ≡ hits) }
        ensures pending { IfOk result (λ made. made.pending ≡ []) }
    {
        let Ok(hits) = Ranked::from_ascending(box_hits(alloc, hits)?)? else {
            return Err(Memory);
        };
        Ok(LiveLists {
            hits,
            shown: LastSent::Moves(Vec::new(alloc)),
            pending: Queue::new(alloc),
        })
    }

    /// The notices that wait, the oldest first.
    pub(crate) fn pending(&self) -> &[Notice]
        ensures { result.now ≡ self.now.pending }
    {
        self.pending.as_slice()
    }

    /// All that waits has been sent: the present list was sent last. Takes no memory.
    pub(crate) fn tell(&mut self, alloc: Global)
        ensures shown { self.new.shown ≡ self.old.present }
        ensures present { self.new.present ≡ self.old.present }
        ensures pending { self.new.pending ≡ [] }
    {
        self.shown = LastSent::Moves(Vec::new(alloc));
        self.pending.clear();
    }

    /// Puts the notices that wait where a reply can hold them too. The lists stay, also where memory is refused.
    pub(crate) fn gather(&mut self) -> Result<(), Memory>
        ensures shown { self.new.shown ≡ self.old.shown }
        ensures present { self.new.present ≡ self.old.present }
        ensures pending { self.new.pending ≡ self.old.pending }
    {
        self.pending.gather()
    }

    /// The notices that wait, the oldest first, which the context holds too. Fails only for want of memory.
    pub(crate) fn share(&self) -> Result<Shared<Notice>, Memory>
        ensures { IfOk result (λ notices. notices ≡ self.now.pending) }
    {
        self.pending.share()
    }

    /// The list that was sent last, hit by hit. Fails only for want of memory.
    pub(crate) fn shown_hits(&self, alloc: Global) -> Result<Vec<&Hit>, Memory>
        ensures { IfOk result (λ hits. matches_lent hits.items ≡ self.now.shown) }
    {
        shown_hits(alloc, &self.shown, &self.hits)
    }

    /// Equal lists. Fails only for want of memory.
    pub(crate) fn copy(&self) -> Result<LiveLists, Memory>
        ensures shown { IfOk result (λ made. made.shown ≡ self.now.shown) }
        ensures present { IfOk result (λ made. made.present ≡ self.now.present) }
        ensures pending { IfOk result (λ made. made.pending ≡ self.now.pending) }
    {
        let hits = self.hits.copy()?;
        let shown = self.shown.copy()?;
        let pending = self.pending.copy()?;
        Ok(LiveLists {
            hits,
            shown,
            pending,
        })
    }

    /// Makes room for `more` moves. The lists stay, also where memory is refused. Where too many moves would be kept, the list that
    /// was sent is written out.
    pub(crate) fn reserve(&mut self, alloc: Global, more: usize) -> Result<(), Memory>
        ensures shown { self.new.shown ≡ self.old.shown }
        ensures present { self.new.present ≡ self.old.present }
        ensures pending { self.new.pending ≡ self.old.pending }
        ensures room { OnOk result (HasRoom more self.new.pending self.new.space) }
    {
        self.hits.reserve(more)?;
        self.pending.reserve(more)?;
        if has_places(&self.shown, more) {
            return self.shown.reserve(more);
        }
        let hits = copy_hits(alloc, &self.shown_hits(alloc)?)?;
        self.shown = LastSent::Written(hits);
        Ok(())
    }
}
