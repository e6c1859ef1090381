//! The order in which matches are printed: by SORT, and then by dataset and name.
ghost use Rattle.std.specs.Prelude.{◌≡◌, OnOk};
ghost use Rattle.acap_search.specs.Matches as found;
ghost use Rattle.acap_search.specs.Places as rule;

use crate::found::Found;
use crate::match_key::MatchKey;
use crate::sort_term::{Rank, SortTerm};
use acap_entries::Memory;
use std::cmp::Ordering;

// How what strings are compared by compares.
fn rank_order(a: &Rank, b: &Rank) -> Ordering
    ensures { result ≡ rule.rank_cmp a.now b.now }
{
    match (a, b) {
        (Rank::Octets(x), Rank::Octets(y)) => x.cmp(y),
        (Rank::Octets(_), _) => Ordering::Less,
        (Rank::Number(_), Rank::Octets(_)) => Ordering::Greater,
        (Rank::Number(x), Rank::Number(y)) => {
            match x.as_slice().len().cmp(&y.as_slice().len()) {
                Ordering::Equal => x.cmp(y),
                unequal => unequal,
            }
        }
        (Rank::Number(_), Rank::NoNumber) => Ordering::Less,
        (Rank::NoNumber, Rank::NoNumber) => Ordering::Equal,
        (Rank::NoNumber, _) => Ordering::Greater,
    }
}

// How places for one item of SORT compare.
fn place_order(a: &SortTerm, b: &SortTerm) -> Ordering
    ensures { result ≡ rule.place_cmp a.now b.now }
{
    match (a, b) {
        (SortTerm::Rising(x), SortTerm::Rising(y)) => rank_order(x, y),
        (SortTerm::Rising(_), _) => Ordering::Less,
        (SortTerm::Falling(_), SortTerm::Rising(_)) => Ordering::Greater,
        (SortTerm::Falling(x), SortTerm::Falling(y)) => rank_order(y, x),
        (SortTerm::Falling(_), SortTerm::Behind) => Ordering::Less,
        (SortTerm::Behind, SortTerm::Behind) => Ordering::Equal,
        (SortTerm::Behind, _) => Ordering::Greater,
    }
}

/// How places for all items of SORT compare, the first that differ deciding.
pub(crate) fn places_order(a: &[SortTerm], b: &[SortTerm]) -> Ordering
    ensures { result ≡ rule.places_cmp a.now b.now }
{
    let mut left = a;
    let mut right = b;
    while let Some((x, xs)) = left.split_first() {
        match right.split_first() {
            Some((y, ys)) => {
                match place_order(x, y) {
                    Ordering::Equal => {}
                    other => return other,
                }
                left = xs;
                right = ys;
            }
            None => return Ordering::Greater,
        }
    }
    if right.is_empty() {
        Ordering::Equal
    } else {
        Ordering::Less
    }
}

// How what is found compares: by the places, and then by the full paths in octets.
fn order(a: &MatchKey<'_>, b: &MatchKey<'_>) -> Ordering
    ensures { result ≡ found.match_cmp a.now b.now }
{
    match places_order(a.footing.as_slice(), b.footing.as_slice()) {
        Ordering::Equal => a.path().cmp_full(b.path()),
        unequal => unequal,
    }
}

/// Puts what is found in order. Fails only for want of memory.
pub(crate) fn sort_found(hits: &mut Vec<Found<'_>>) -> Result<(), Memory>
    ensures { OnOk result (hits.new.items ≡ found.sorted_by found.match_lt hits.old.items) }
{
    hits.sort_by(|a, b| order(&a.stand, &b.stand))?;
    Ok(())
}

/// The same of what is found before anything is printed of it.
pub(crate) fn sort_stands(stands: &mut Vec<MatchKey<'_>>) -> Result<(), Memory>
    ensures { OnOk result (stands.new.items ≡ found.sorted_by found.match_lt stands.old.items) }
{
    stands.sort_by(|a, b| order(a, b))?;
    Ok(())
}
