//! Looks for an entry, or a position, among the rows that are held.
ghost use Rattle.std.specs.Prelude.{◌≡◌, ◌↔◌, ◌≤◌, ◌+◌, IsTrue, length, position};
ghost use Rattle.acap_entries.specs.Orders.{octets_eq};
ghost use Rattle.acap_notices.specs.Places as place;
ghost use Rattle.acap_notices.specs.Rows as held;

use acap_entries::{Label, Row};

/// Whether no name comes twice. Takes a number of comparisons that is about half the square of the number of rows.
pub fn is_each_once(rows: &[Row]) -> bool
    ensures { IsTrue result ↔ held.IsEachOnce rows.now }
{
    let mut rest = rows;
    while let Some((row, others)) = rest.split_first() {
        if is_held(others, &row.name) {
            return false;
        }
        rest = others;
    }
    true
}

/// Whether a row of the entry is among them.
pub(crate) fn is_held(rows: &[Row], entry: &Label) -> bool
    ensures { result ≡ held.is_held entry.now rows.now }
{
    rows.iter().any(|row| *entry == row.name)
}

/// Whether the entry stands at the position.
pub(crate) fn stands_at(rows: &[Row], entry: &Label, position: usize) -> bool
    ensures stands { result ≡ held.stands_at entry.now position rows.now }
    ensures first { IsTrue result → 1 ≤ position }
    ensures last { IsTrue result → position ≤ length rows.now }
{
    if position == 0 {
        return false;
    }
    match rows.get(position - 1) {
        Some(row) => *entry == row.name,
        None => false,
    }
}

/// Whether a row may be put in at the position.
pub(crate) fn has_position(rows: &[Row], position: usize) -> bool
    ensures fits { result ≡ held.has_position position rows.now }
    ensures first { IsTrue result → 1 ≤ position }
    ensures last { IsTrue result → position ≤ length rows.now + 1 }
{
    1 <= position && position - 1 <= rows.len()
}

/// How many rows stand before the entry's, if it is held.
fn place_of(rows: &[Row], entry: &Label) -> Option<usize>
    ensures { result ≡ position (λ row. octets_eq entry.now row.name) rows.now }
{
    rows.iter().position(|row| *entry == row.name)
}

/// The position of the entry, or the one after the last where it isn't held.
#[tactic(auto, using(crate::proofs::RuleLemmas::place_or_end))]
pub(crate) fn position_of(rows: &[Row], entry: &Label) -> usize
    ensures { result ≡ place.place_of entry.now rows.now + 1 }
{
    place_of(rows, entry).unwrap_or(rows.len()) + 1
}
