//! A live list goes from one store to the next, entry by entry: the old match is taken out, the new one put in.
ghost use Rattle.std.specs.Prelude.{◌≡◌, ◌+◌, ◌<◌, ◌≤◌, ◌^◌, ◌++◌, ℕ, suc, false, IsTrue, if◌then◌else◌};
ghost use Rattle.std.specs.Prelude.{[], length, Some, None, is_some, IfSome};
ghost use Rattle.std.specs.List.{cons_option};
ghost use Rattle.std.specs.Option.{option_map};
ghost use Rattle.std.specs.Ordering.{eq_by_cmp};
ghost use Rattle.acap_ordmap.specs.Ranks.{item_at, rank_of, with_item};
ghost use Rattle.acap_notices.specs.Waiting as waiting;
ghost use Rattle.acap_notices.specs.Waiting.{notices_pending};
ghost use Rattle.acap_moves.specs.Moves.{undone};
ghost use Rattle.acap_search.specs.Matches.{match_cmp};
ghost use Rattle.acap_views.specs.EntryOutcomes.{IsGoneNotice, IsHereNotice};
ghost use Rattle.acap_views.specs.Room.{HasRoom, Leaves, LeavesNotices};
ghost use Rattle.acap_views.specs.EntryUpdates as rule;
ghost use Rattle.acap_views.specs.EntryUpdates.{match_by};
ghost use Rattle.acap_views.specs.Undoing.{IsLogged, HasPlaces};

use crate::entry_update::{EntryOutcome, EntryUpdate};
use crate::idle_moves::is_idle;
use crate::last_sent::LastSent;
use crate::live_lists::LiveLists;
use crate::undo_move::UndoMove;
use acap_entries::{Finger, Label, Probe, Ranked, Row, Whole};
use acap_notices::{Notice, Queue};
use acap_search::{BoxedHit, HitKey};

// Takes out the hit that stood at some places, and reports how many stood before it.
fn take_hit(now: &mut Ranked<BoxedHit>, old: &HitKey<'_>) -> Option<(usize, BoxedHit)>
    ensures list { now.new.0 ≡ rule.without_old (match_by old.now) now.old.0 }
    ensures gone { result ≡ rule.old_place (match_by old.now) now.old.0 }
    ensures within { IfSome result (λ gone. gone.0 + 1 < 2 ^ 64) }
    ensures room { now.old.1 ≤ now.new.1 }
{
    now.ascends();
    let _count = now.len();
    let hit = now.take(old)?;
    let place = now.rank(old);
    Some((place, hit))
}

// Puts a hit where none stands, and reports how many stand before it.
fn put_free(now: &mut Ranked<BoxedHit>, hit: BoxedHit) -> usize
    requires room { 0 < now.old.1 }
    requires free { is_some (item_at match_cmp hit now.old.0) ≡ false }
    ensures list { now.new.0 ≡ with_item match_cmp hit now.old.0 }
    ensures place { result ≡ rank_of match_cmp hit now.old.0 }
    ensures within { result + 1 < 2 ^ 64 }
    ensures room { now.old.1 ≤ now.new.1 + 1 }
{
    let place = now.rank(&Whole { key: &hit });
    now.put(hit);
    let _count = now.len();
    place
}

// Puts a hit in its place, if none stands there, and reports how many stand before it.
fn put_hit(now: &mut Ranked<BoxedHit>, hit: BoxedHit) -> Option<usize>
    requires { 0 < now.old.1 }
    ensures list { now.new.0 ≡ with_item match_cmp hit now.old.0 }
    ensures within { IfSome result (λ place. place + 1 < 2 ^ 64) }
    ensures come { result ≡ option_map (λ s. s.0) (rule.placed_among hit now.old.0) }
    ensures room { now.old.1 ≤ now.new.1 + 1 }
{
    now.ascends();
    if now.find(&Whole { key: &hit }).is_some() {
        return None;
    }
    Some(put_free(now, hit))
}

// A hit, if there was one, beside its place.
fn beside(place: usize, hit: Option<BoxedHit>) -> Option<(usize, BoxedHit)>
    requires { place + 1 < 2 ^ 64 }
    ensures hit { result ≡ option_map (λ found. (place, found)) hit }
    ensures within { IfSome result (λ found. found.0 + 1 < 2 ^ 64) }
{
    match hit {
        Some(hit) => Some((place, hit)),
        None => None,
    }
}

/// Whether a hit stands where another one stood.
pub(crate) fn is_there(old: &HitKey<'_>, hit: &BoxedHit) -> bool
    ensures { result ≡ eq_by_cmp match_cmp (match_by old.now) hit.now }
{
    old.compare(hit).is_eq()
}

// Puts a hit in the place of the one that stood there, if one did: reports that one, and how many stand before it.
fn replace_hit(
    now: &mut Ranked<BoxedHit>,
    old: &HitKey<'_>,
    hit: BoxedHit,
    finger: &mut Finger,
) -> (Option<(usize, BoxedHit)>, usize)
    requires room { 0 < now.old.1 }
    requires same { IsTrue (eq_by_cmp match_cmp (match_by old.now) hit) }
    ensures list { now.new.0 ≡ rule.with_exchange (match_by old.now) (Some hit) now.old.0 }
    ensures gone { result.0 ≡ rule.old_place (match_by old.now) now.old.0 }
    ensures from { IfSome result.0 (λ gone. gone.0 + 1 < 2 ^ 64) }
    ensures come { Some result.1 ≡ rule.comes_to (match_by old.now) (Some hit) now.old.0 }
    ensures to { result.1 + 1 < 2 ^ 64 }
    ensures room { now.old.1 ≤ now.new.1 + 1 }
{
    let (place, gone) = now.replace(hit, finger);
    let _count = now.len();
    (beside(place, gone), place)
}

// A position as it is sent: counted from 1, or 0 where none are sent.
fn position(enumerated: bool, place: usize) -> usize
    requires { place + 1 < 2 ^ 64 }
    ensures { result ≡ (if enumerated then place + 1 else 0) }
{
    if enumerated { place + 1 } else { 0 }
}

// What is sent of an entry that isn't found any longer: nothing where it wasn't found before.
fn gone_notice(gone: &Option<(usize, BoxedHit)>, entry: Label, enumerated: bool) -> Option<Notice>
    requires { IfSome gone.now (λ g. g.0 + 1 < 2 ^ 64) }
    ensures { IsGoneNotice enumerated entry gone.now result }
{
    let (place, _) = gone.as_ref()?;
    let position = position(enumerated, *place);
    Some(Notice::RemoveFrom { entry, position })
}

// What is sent of an entry that is found, and was found before: nothing where its place and its row are the same.
fn change_notice(
    place: usize,
    hit: &BoxedHit,
    come: usize,
    row: Row,
    enumerated: bool,
) -> Option<Notice>
    requires from { place + 1 < 2 ^ 64 }
    requires to { come + 1 < 2 ^ 64 }
    ensures { IsHereNotice enumerated row (Some (place, hit.now)) (Some come) result }
{
    if *hit.hit().row() == row && (!enumerated || place == come) {
        return None;
    }
    let from = position(enumerated, place);
    let to = position(enumerated, come);
    Some(Notice::Change { from, to, row })
}

// What is sent of an entry that is found.
fn here_notice(
    gone: &Option<(usize, BoxedHit)>,
    come: Option<usize>,
    row: Row,
    enumerated: bool,
) -> Option<Notice>
    requires gone { IfSome gone.now (λ g. g.0 + 1 < 2 ^ 64) }
    requires come { IfSome come (λ place. place + 1 < 2 ^ 64) }
    ensures { IsHereNotice enumerated row gone.now come result }
{
    match (gone, come) {
        (Some((place, hit)), Some(come)) => change_notice(*place, hit, come, row, enumerated),
        (Some(_), None) => gone_notice(gone, row.name, enumerated),
        (None, Some(come)) => {
            let position = position(enumerated, come);
            Some(Notice::AddTo { position, row })
        }
        (None, None) => None,
    }
}

// Keeps a move, where moves are kept: what was shown is what there is now with it taken back.
fn log(shown: &mut LastSent, undone: UndoMove)
    requires { HasPlaces 1 shown.old }
    ensures list { IsLogged undone shown.old shown.new }
    ensures room { (more : ℕ) → HasPlaces (suc more) shown.old → HasPlaces more shown.new }
{
    if let LastSent::Moves(undos) = shown {
        undos.push(undone).unwrap();
    }
}

// Puts a notice after those that wait, unless too many do.
fn add(pending: &mut Queue, told: Option<Notice>) -> bool
    requires { waiting.HasRoom 1 pending.old }
    ensures added { IsTrue result → pending.new.notices ≡ pending.old.notices ++ cons_option told [] }
    ensures full { result ≡ false
        → notices_pending < length pending.old.notices + length (cons_option told []) }
    ensures room { IsTrue result → LeavesNotices pending.old pending.new }
{
    match told {
        Some(notice) => pending.add(notice).is_ok(),
        None => true,
    }
}

// Takes out the hit of an entry that isn't found any longer, and reports what it comes to.
fn swap_gone(
    hits: &mut Ranked<BoxedHit>,
    old: &HitKey<'_>,
    name: Label,
    enumerated: bool,
) -> (UndoMove, Option<Notice>)
    ensures list { hits.new.0 ≡ rule.with_exchange (match_by old.now) None hits.old.0 }
    ensures undone { result.0 ≡ rule.undo_by (match_by old.now) None hits.old.0 }
    ensures told { IsGoneNotice enumerated name (rule.old_place (match_by old.now) hits.old.0) result.1 }
    ensures room { hits.old.1 ≤ hits.new.1 }
{
    let gone = take_hit(hits, old);
    let told = gone_notice(&gone, name, enumerated);
    (UndoMove { gone, come: None }, told)
}

// Takes out the hit that stood at some places, if one did, and puts in a new one: in its place, where it stands there.
fn swap_hit(
    hits: &mut Ranked<BoxedHit>,
    old: &HitKey<'_>,
    found: BoxedHit,
    finger: &mut Finger,
) -> (Option<(usize, BoxedHit)>, Option<usize>)
    requires { 0 < hits.old.1 }
    ensures list { hits.new.0 ≡ rule.with_exchange (match_by old.now) (Some found) hits.old.0 }
    ensures gone { result.0 ≡ rule.old_place (match_by old.now) hits.old.0 }
    ensures from { IfSome result.0 (λ gone. gone.0 + 1 < 2 ^ 64) }
    ensures come { result.1 ≡ rule.comes_to (match_by old.now) (Some found) hits.old.0 }
    ensures to { IfSome result.1 (λ place. place + 1 < 2 ^ 64) }
    ensures room { hits.old.1 ≤ hits.new.1 + 1 }
{
    if is_there(old, &found) {
        let (gone, come) = replace_hit(hits, old, found, finger);
        return (gone, Some(come));
    }
    let gone = take_hit(hits, old);
    let come = put_hit(hits, found);
    (gone, come)
}

// Takes out the hit of an entry if it was found, puts in the new one, and reports what it comes to.
fn swap_here(
    hits: &mut Ranked<BoxedHit>,
    old: &HitKey<'_>,
    found: BoxedHit,
    row: Row,
    enumerated: bool,
    finger: &mut Finger,
) -> (UndoMove, Option<Notice>)
    requires room { 0 < hits.old.1 }
    requires row { row ≡ found.row }
    ensures list { hits.new.0 ≡ rule.with_exchange (match_by old.now) (Some found) hits.old.0 }
    ensures undone { result.0 ≡ rule.undo_by (match_by old.now) (Some found) hits.old.0 }
    ensures told { rule.IsSwapNotice enumerated row.name (match_by old.now) (Some found) hits.old.0 result.1 }
    ensures room { hits.old.1 ≤ hits.new.1 + 1 }
{
    let (gone, come) = swap_hit(hits, old, found, finger);
    let told = here_notice(&gone, come, row, enumerated);
    (UndoMove { gone, come }, told)
}

// Does what is prepared of an entry, and reports what it comes to.
fn swap(
    hits: &mut Ranked<BoxedHit>,
    shift: EntryUpdate,
    enumerated: bool,
    finger: &mut Finger,
) -> (UndoMove, Option<Notice>)
    requires { 0 < hits.old.1 }
    ensures list { hits.new.0 ≡ rule.after_shift shift hits.old.0 }
    ensures undone { result.0 ≡ rule.undo_by shift.old shift.come hits.old.0 }
    ensures told { rule.IsSwapNotice enumerated shift.name shift.old shift.come hits.old.0 result.1 }
    ensures room { hits.old.1 ≤ hits.new.1 + 1 }
{
    let EntryUpdate { places, path, news } = shift;
    let old = HitKey {
        places: &places,
        path: &path,
    };
    match news {
        EntryOutcome::Gone(name) => swap_gone(hits, &old, name, enumerated),
        EntryOutcome::Here(found, row) => swap_here(hits, &old, found, row, enumerated, finger),
    }
}

impl LiveLists {
    /// Brings the list up to date for one entry, and adds its notice; false where more notices would wait than may: the context is to be
    /// freed then. An entry that stays in its place is looked for at the finger first. Takes no memory.
    pub(crate) fn shift(
        &mut self,
        shift: EntryUpdate,
        enumerated: bool,
        finger: &mut Finger,
    ) -> bool
        requires { HasRoom 1 self.old.pending self.old.space }
        ensures present { self.new.present ≡ rule.after_shift shift self.old.present }
        ensures shown { self.new.shown ≡ self.old.shown }
        ensures added { IsTrue result → rule.IsTold enumerated shift self.old self.new }
        ensures full { result ≡ false → rule.IsTooMuch enumerated shift self.old }
        ensures room { IsTrue result → Leaves self.old self.new }
    {
        self.hits.ascends();
        let (undone, told) = swap(&mut self.hits, shift, enumerated, finger);
        if told.is_none() && is_idle(&self.hits, &undone) {
            return true;
        }
        log(&mut self.shown, undone);
        add(&mut self.pending, told)
    }

    /// The same for one entry after the other.
    pub(crate) fn follow(
        &mut self,
        shifts: Vec<EntryUpdate>,
        enumerated: bool,
        finger: &mut Finger,
    ) -> bool
        requires { HasRoom (length shifts.items) self.old.pending self.old.space }
        ensures present { IsTrue result → self.new.present ≡ rule.after_shifts shifts.items self.old.present }
        ensures shown { IsTrue result → self.new.shown ≡ self.old.shown }
        ensures added { IsTrue result → rule.AreTold enumerated shifts.items self.old self.new }
        ensures full { result ≡ false → rule.AreTooMany enumerated shifts.items self.old }
        ensures few { IsTrue result → length self.new.pending ≤ notices_pending }
    {
        for shift in shifts {
            if !self.shift(shift, enumerated, finger) {
                return false;
            }
        }
        let _ = self.pending.len();
        true
    }
}
