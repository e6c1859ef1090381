//! A cursor over the hits of a live list, for paths that ascend.
ghost use Rattle.std.specs.Prelude.{◌≡◌};
ghost use Rattle.std.specs.Option.{option_copied};
ghost use Rattle.acap_ordmap.specs.Ranks.{item_at};
ghost use Rattle.acap_search.specs.Matches.{match_cmp};
ghost use Rattle.acap_views.specs.HitCursors.{AreAmong, matches_left};
ghost use Rattle.acap_views.specs.EntryUpdates.{match_by};

use crate::apply_updates::is_there;
use acap_entries::{Probe, Ranked, Ranking};
use acap_search::{BoxedHit, HitKey};
use std::marker::Model;

/// The hits of a live list, sought one after the other by where they stood. They lie at hand in their order: the next is found at
/// once, if it is the one that is sought.
#[derive(Drop)]
pub(crate) struct HitCursor<'a> {
    hits: &'a Ranked<BoxedHit>,
    next: Option<&'a BoxedHit>,
    others: Ranking<'a, BoxedHit>,
}

impl<'a> Model for HitCursor<'a> {
    ghost use Rattle.std.specs.Prelude.{List};
    ghost use Rattle.std.specs.Coded.{coded_list};
    ghost use Rattle.acap_search.specs.Matches.{Match, match_code};
    ghost use Rattle.acap_views.specs.HitCursors.{AreAmong, matches_left};

    ghost Value = { List Match };

    ghost coded = { coded_list match_code };

    ghost view = { λ s. s.hits.now.0 };

    ghost invariant = { λ s. AreAmong s.hits.now.0 (matches_left s.next s.others) };
}

// The first of some hits that doesn't stand before those places.
#[tactic(auto, using(crate::proofs::SeekLemmas::others_among))]
fn first_from<'a>(
    hits: &Ranked<BoxedHit>,
    next: Option<&'a BoxedHit>,
    others: &mut Ranking<'a, BoxedHit>,
    old: &HitKey<'_>,
) -> Option<&'a BoxedHit>
    requires { AreAmong hits.now.0 (matches_left next others.old) }
    ensures { AreAmong hits.now.0 (matches_left result others.new) }
{
    if let Some(hit) = next
        && !old.compare(hit).is_gt()
    {
        return next;
    }
    'passed: while let Some(hit) = others.next() {
        if !old.compare(hit).is_gt() {
            return Some(hit);
        }
    }
    None
}

impl<'a> HitCursor<'a> {
    /// Those of a list. Takes no memory.
    pub(crate) fn over(hits: &'a Ranked<BoxedHit>) -> HitCursor<'a>
        ensures { result ≡ hits.now.0 }
    {
        HitCursor {
            hits,
            next: None,
            others: hits.iter(),
        }
    }

    /// The hit that stood at some places, if one did, which is often the next. Takes no memory.
    pub(crate) fn find(&mut self, old: &HitKey<'_>) -> Option<&'a BoxedHit>
        ensures same { self.new ≡ self.old }
        ensures found { option_copied result ≡ item_at match_cmp (match_by old.now) self.old }
    {
        let hits = self.hits;
        hits.ascends();
        let next = first_from(hits, self.next, &mut self.others, old);
        if let Some(hit) = next
            && is_there(old, hit)
        {
            self.next = None;
            return Some(hit);
        }
        self.next = next;
        hits.find(old)
    }
}
