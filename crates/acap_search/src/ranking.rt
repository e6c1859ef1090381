//! SORT terms, made once for an entry: its strings as the comparators see them.
ghost use Rattle.std.specs.Prelude.{◌≡◌, ◌∷◌, [], IfOk};
ghost use Rattle.acap_order.specs.Ranks.{upper_case};
ghost use Rattle.acap_search.specs.PathRefs.{places_on};
ghost use Rattle.acap_search.specs.Places as rule;
ghost use Rattle.acap_search.specs.SeenValues as shown;
ghost use Rattle.acap_search.specs.Views.{places_at};

use crate::entry_view::EntryView;
use crate::sort_key::SortKey;
use crate::sort_term::{Rank, SortPlaces, SortTerm};
use crate::values::read;
use acap_commands::SortItem;
use acap_entries::{Label, Memory, Octets, Records};
use acap_inherit::Lent;
use acap_order::{Collation, Comparator, Direction, leading_digits, significant};
use std::alloc::Global;

// A string in upper case.
fn upper_case_of(alloc: Global, text: &[u8]) -> Result<Label, Memory>
    ensures { IfOk result (λ made. made ≡ upper_case text.now) }
{
    let octets = text.to_ascii_uppercase(alloc)?;
    Ok(Label::new(Octets::from_vec(octets)))
}

// What digits are compared by.
fn number_rank(alloc: Global, digits: &[u8]) -> Result<Rank, Memory>
    ensures { IfOk result (λ rank. rank ≡ rule.number_rank digits.now) }
{
    if digits.is_empty() {
        return Ok(Rank::NoNumber);
    }
    Ok(Rank::Number(Label::from_slice(alloc, significant(digits))?))
}

// What a string is compared by.
fn rank_of(alloc: Global, collation: Collation, text: &[u8]) -> Result<Rank, Memory>
    ensures { IfOk result (λ rank. rank ≡ rule.rank_in collation text.now) }
{
    match collation {
        Collation::Octet => Ok(Rank::Octets(Label::from_slice(alloc, text)?)),
        Collation::AsciiCasemap => Ok(Rank::Octets(upper_case_of(alloc, text)?)),
        Collation::AsciiNumeric => number_rank(alloc, leading_digits(text)),
    }
}

// In a direction.
fn place_by(direction: Direction, rank: Rank) -> SortTerm
    ensures { result ≡ rule.directed_place direction rank }
{
    match direction {
        Direction::Ascending => SortTerm::Rising(rank),
        Direction::Descending => SortTerm::Falling(rank),
    }
}

// Where a value stands.
fn place_of(
    alloc: Global,
    comparator: &Comparator,
    value: Option<Lent<'_>>,
) -> Result<SortTerm, Memory>
    ensures { IfOk result (λ place. place ≡ rule.place_in comparator.now (shown.cell_of value.entry)) }
{
    let text = match &value {
        Some(Lent::Name(text)) => *text,
        Some(Lent::Single(text)) => text.as_slice(),
        Some(Lent::Stamp(digits)) => digits.as_slice(),
        Some(Lent::Multi(_)) => return Ok(SortTerm::Behind),
        None => return Ok(SortTerm::Behind),
    };
    let rank = rank_of(alloc, comparator.collation, text)?;
    Ok(place_by(comparator.direction, rank))
}

// Where an entry stands for an item of SORT.
fn place_at<R: Records>(
    alloc: Global,
    spot: &EntryView<'_, R>,
    item: &SortItem,
) -> Result<SortTerm, Memory>
    ensures { IfOk result (λ place. place ∷ [] ≡ places_at spot.now (item.now ∷ [])) }
{
    let seen = read(spot, item.attribute.as_slice());
    place_of(alloc, &item.comparator, seen)
}

/// Where an entry stands for each item of SORT. Fails only for want of memory.
pub(crate) fn places_of<R: Records>(
    alloc: Global,
    spot: &EntryView<'_, R>,
    sort: &[SortItem],
) -> Result<SortPlaces, Memory>
    ensures { IfOk result (λ places. places ≡ places_at spot.now sort.now) }
{
    let mut places = Vec::with_capacity(alloc, sort.len())?;
    for item in sort {
        places.push(place_at(alloc, spot, item)?)?;
    }
    Ok(SortPlaces::from_vec(places))
}

/// As `places_of`, and for an only item in no memory of its own.
pub(crate) fn footing_of<R: Records>(
    alloc: Global,
    spot: &EntryView<'_, R>,
    sort: &[SortItem],
) -> Result<SortKey, Memory>
    ensures { IfOk result (λ footing. places_on footing ≡ places_at spot.now sort.now) }
{
    match sort {
        [item] => Ok(SortKey::Only(place_at(alloc, spot, item)?)),
        _ => Ok(SortKey::Each(places_of(alloc, spot, sort)?)),
    }
}
