//! Collects the ends and the passes of sessions, in their order.
ghost use Rattle.std.specs.Prelude.{◌≡◌, ◌<◌, ◌≤◌, ◌+◌, ◌++◌, ◌∷◌, [], List, Option, Some, false, length, map, vec_len, vec_capacity};
ghost use Rattle.acap_serving.specs.Dealing.{dealt, owners, turned};
ghost use Rattle.acap_serving.specs.Ends.{Whose};

use crate::bells::DeskOf;
use crate::deal::take_back;
use crate::flag_bell::FlagBell;
use crate::lent_session::{Advance, LentSession};
use crate::sessions::Done;
use acap_locked::{Pass, Site};
use acap_task::{Bell, Desk, Over, SeatLease, Source, Wire};
use std::sync::Wait;
use std::sync::ledger::Ledger;

/// What sessions left: their passes, and their ends.
#[derive(Drop)]
pub(crate) struct Collected<'u, S: Site, W: Wire, O: Source> {
    pub(crate) passes: Vec<SeatLease<S>>,
    pub(crate) done: Vec<Done<'u, W, O>>,
}

// Puts an item into a list, if there is room or memory for it.
fn put<T: Drop>(list: &mut Vec<T>, item: T)
    ensures items { vec_len list.old < vec_capacity list.old → list.new.items ≡ list.old.items ++ item ∷ [] }
    ensures len { vec_len list.new ≤ vec_len list.old + 1 }
    ensures room { vec_capacity list.old ≤ vec_capacity list.new }
{
    let _ = list.push(item);
}

// Takes the session back that was dealt last, and puts how it ended into a list with room for it.
fn take_over<'u, W: Wire, D: Desk, O: Source, B: Bell>(
    loads: &mut Vec<Vec<LentSession<'u, W, D, O, B>>>,
    overs: &mut Vec<Over<'u, W, D, O, B>>,
)
    requires some { 0 < vec_len loads.old }
    ensures back { (before : List (List (Option Whose))) (last : Whose) → 0 < length before
        → vec_len overs.old < vec_capacity overs.old
        → owners (⟦<LentSession<'u, W, D, O, B> as Advance>⟧.whose) loads.old.items
        ≡ turned before (Some last)
        → (map (λ o. (o.running.parties, D.seat o.running.desk)) overs.new.items
        ≡ map (λ o. (o.running.parties, D.seat o.running.desk)) overs.old.items ++ last ∷ [])
        × (owners (⟦<LentSession<'u, W, D, O, B> as Advance>⟧.whose) loads.new.items ≡ before) }
    ensures len { vec_len loads.new ≡ vec_len loads.old }
    ensures count { vec_len overs.new ≤ vec_len overs.old + 1 }
    ensures room { vec_capacity overs.old ≤ vec_capacity overs.new }
{
    if let Some(session) = take_back(loads) {
        if let Some(over) = session.into_over() {
            put(overs, over);
        }
    }
}

/// Takes `count` sessions back, in their order: how they ended goes into a list with room for it.
pub(crate) fn collect<'u, W: Wire, D: Desk, O: Source, B: Bell>(
    loads: Vec<Vec<LentSession<'u, W, D, O, B>>>,
    count: usize,
    overs: Vec<Over<'u, W, D, O, B>>,
) -> Vec<Over<'u, W, D, O, B>>
    requires some { 0 < vec_len loads }
    requires room { (overs.items ≡ []) × (count ≤ vec_capacity overs) }
    ensures ends { (none : List (List (Option Whose))) (all : List Whose)
        → length all ≡ count → 0 < length none
        → owners (⟦<LentSession<'u, W, D, O, B> as Advance>⟧.whose) loads.entry.items
        ≡ dealt none (map Some all)
        → map (λ o. (o.running.parties, D.seat o.running.desk)) result.items ≡ all }
    ensures len { vec_len result ≤ count }
{
    let (mut loads, mut overs) = (loads, overs);
    for _ in 0..count {
        take_over(&mut loads, &mut overs);
    }
    overs
}

/// Splits ends from passes, each into room for it.
pub(crate) fn split<'u, 'b, R: Wait, S: Site, L: Ledger, W: Wire, O: Source>(
    overs: Vec<Over<'u, W, DeskOf<'b, R, S, L>, O, FlagBell>>,
    lists: Collected<'u, S, W, O>,
) -> Collected<'u, S, W, O>
    requires { (vec_len lists.done + vec_len overs ≤ vec_capacity lists.done)
        × (vec_len lists.passes + vec_len overs ≤ vec_capacity lists.passes) }
    ensures ends { map (λ end. end.running.parties) result.done.items
        ≡ map (λ end. end.running.parties) lists.entry.done.items
        ++ map (λ over. over.running.parties) overs.entry.items }
    ensures seats { map (λ place. place.pass.seat) result.passes.items
        ≡ map (λ place. place.pass.seat) lists.entry.passes.items
        ++ map (λ over. over.running.desk.pass.seat) overs.entry.items }
    ensures owes { map (λ place. place.owes_leave) result.passes.items
        ≡ map (λ place. place.owes_leave) lists.entry.passes.items
        ++ map (λ over. over.running.desk.owes_leave) overs.entry.items }
    ensures owed { map (λ end. end.running.desk.owes_leave) result.done.items
        ≡ map (λ end. end.running.desk.owes_leave) lists.entry.done.items
        ++ map (λ over. over.running.desk.owes_leave) overs.entry.items }
    ensures room { vec_capacity lists.entry.passes ≤ vec_capacity result.passes }
    ensures len { vec_len result.passes ≤ vec_len lists.entry.passes + vec_len overs.entry }
{
    let Collected {
        mut passes,
        mut done,
    } = lists;
    for over in overs {
        let (end, place) = over.into_record();
        put(&mut done, end);
        put(&mut passes, place);
    }
    Collected { passes, done }
}

/// Puts passes that had no session after the others, in room for them.
pub(crate) fn put_back<'u, S: Site, W: Wire, O: Source>(
    lists: Collected<'u, S, W, O>,
    spare: Vec<Pass<S>>,
) -> Collected<'u, S, W, O>
    requires { vec_len lists.passes + vec_len spare ≤ vec_capacity lists.passes }
    ensures done { result.done ≡ lists.entry.done }
    ensures seats { map (λ place. place.pass.seat) result.passes.items
        ≡ map (λ place. place.pass.seat) lists.entry.passes.items ++ map (λ pass. pass.seat) spare.items }
    ensures owes { map (λ place. place.owes_leave) result.passes.items
        ≡ map (λ place. place.owes_leave) lists.entry.passes.items ++ map (λ _. false) spare.items }
{
    let Collected { mut passes, done } = lists;
    for pass in spare {
        let place = SeatLease {
            pass,
            owes_leave: false,
        };
        put(&mut passes, place);
    }
    Collected { passes, done }
}
