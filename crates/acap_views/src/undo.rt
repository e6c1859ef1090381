//! The list that a client was sent last, made from the present one by taking moves back.
ghost use Rattle.std.specs.Prelude.{◌≡◌, IfOk, IfSome, OnOk, Some};
ghost use Rattle.acap_moves.specs.Moves.{undone, all_undone, without, put_back};
ghost use Rattle.acap_views.specs.Undoing.{shown_in, matches_lent};

use crate::last_sent::LastSent;
use crate::last_sent_list::each_hit;
use crate::undo_move::UndoMove;
use acap_entries::{Memory, Ranked};
use acap_search::{BoxedHit, Hit};
use std::alloc::Global;

// The hits of a list, one by one.
fn list_placed<'a>(alloc: Global, now: &'a Ranked<BoxedHit>) -> Result<Vec<&'a Hit>, Memory>
    ensures { IfOk result (λ hits. matches_lent hits.items ≡ now.now.0) }
{
    let mut hits = Vec::with_capacity(alloc, now.len())?;
    for placed in now.iter() {
        hits.push(placed.hit())?;
    }
    Ok(hits)
}

// Takes out again what a move put in.
fn take_back(hits: &mut Vec<&Hit>, come: Option<usize>)
    ensures { matches_lent hits.new.items ≡ without come (matches_lent hits.old.items) }
{
    if let Some(place) = come {
        if place < hits.len() {
            let _ = hits.remove(place);
        }
    }
}

// Puts in again what a move took out.
fn give_back<'a>(hits: &mut Vec<&'a Hit>, gone: &'a Option<(usize, BoxedHit)>) -> Result<(), Memory>
    ensures { OnOk result (matches_lent hits.new.items ≡ put_back gone.now (matches_lent hits.old.items)) }
{
    if let Some((place, placed)) = gone {
        if *place < hits.len() {
            hits.insert(*place, placed.hit())?;
        } else {
            hits.push(placed.hit())?;
        }
    }
    Ok(())
}

// The hit that a move took out where it put the new one, if it did so.
fn find_replaced(move_made: &UndoMove) -> Option<(usize, &BoxedHit)>
    ensures { IfSome result (λ r. move_made.now ≡ record { gone = Some (r.0, r.1.now); come = Some r.0 }) }
{
    match (&move_made.gone, move_made.come) {
        (Some((place, placed)), Some(come)) if *place == come => Some((come, placed)),
        _ => None,
    }
}

// Takes one move back: at one place nothing else is moved.
fn undo<'a>(hits: &mut Vec<&'a Hit>, move_made: &'a UndoMove) -> Result<(), Memory>
    ensures { OnOk result (matches_lent hits.new.items ≡ undone move_made.now (matches_lent hits.old.items)) }
{
    if let Some((place, placed)) = find_replaced(move_made)
        && place < hits.len()
    {
        hits[place] = placed.hit();
        return Ok(());
    }
    take_back(hits, move_made.come);
    give_back(hits, &move_made.gone)
}

// The present list with all moves taken back, the newest first.
fn undone_hits<'a>(
    alloc: Global,
    undos: &'a Vec<UndoMove>,
    now: &'a Ranked<BoxedHit>,
) -> Result<Vec<&'a Hit>, Memory>
    ensures { IfOk result (λ hits. matches_lent hits.items ≡ all_undone undos.now.items now.now.0) }
{
    let mut hits = list_placed(alloc, now)?;
    let mut left = undos.len();
    while 0 < left {
        left -= 1;
        undo(&mut hits, &undos[left])?;
    }
    Ok(hits)
}

/// The hits of the list that was sent last, in order. Fails only for want of memory.
pub(crate) fn shown_hits<'a>(
    alloc: Global,
    shown: &'a LastSent,
    now: &'a Ranked<BoxedHit>,
) -> Result<Vec<&'a Hit>, Memory>
    ensures { IfOk result (λ hits. matches_lent hits.items ≡ shown_in shown.now now.now.0) }
{
    match shown {
        LastSent::Moves(undos) => undone_hits(alloc, undos, now),
        LastSent::Written(hits) => each_hit(alloc, hits),
    }
}
