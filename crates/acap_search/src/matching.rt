//! Whether an entry meets a key: EQUAL, COMPARE, PREFIX, SUBSTRING, RANGE and how they are joined.
ghost use Rattle.std.specs.Prelude.{◌≡◌, ◌+◌};
ghost use Rattle.std.specs.List.{list_any};
ghost use Rattle.acap_search.specs.Keys as rule;
ghost use Rattle.acap_search.specs.Keys.{some_text};
ghost use Rattle.acap_search.specs.SeenValues.{cell_of};
ghost use Rattle.acap_search.specs.Views.{answers_of, spot_in};

use crate::dataset_view::DatasetView;
use crate::entry_view::EntryView;
use crate::values::{is_nil, look};
use acap_commands::{Key, Node, Relation, Test};
use acap_entries::{EntryName, Records, Steps, Value};
use acap_inherit::Lent;
use acap_order::{Collation, Comparator};
use std::sync::ledger::Ledger;

// How a string stands to the string of a key.
fn stands_so(relation: Relation, comparator: &Comparator, wanted: &[u8], text: &[u8]) -> bool
    ensures { result ≡ rule.stands_so relation comparator.now wanted.now text.now }
{
    match relation {
        Relation::Equal => comparator.equal(text, wanted),
        Relation::AtLeast => comparator.cmp(text, wanted).is_ge(),
        Relation::Greater => comparator.cmp(text, wanted).is_gt(),
        Relation::Begins => !comparator.is_numeric() && comparator.prefix(text, wanted),
        Relation::Contains => !comparator.is_numeric() && comparator.substring(text, wanted),
    }
}

// Whether one of some strings stands so.
fn any_stands_so(
    relation: Relation,
    comparator: &Comparator,
    wanted: &[u8],
    texts: &[Value],
) -> bool
    ensures { result ≡ list_any (rule.stands_so relation comparator.now wanted.now) texts.now }
{
    texts.iter().any(|text| stands_so(relation, comparator, wanted, text.as_slice()))
}

// Whether a value stands so: a list does where one of its strings does.
fn meets(
    value: Option<Lent<'_>>,
    relation: Relation,
    comparator: &Comparator,
    wanted: &[u8],
) -> bool
    ensures { result ≡ some_text (rule.stands_so relation comparator.now wanted.now) (cell_of value.entry) }
{
    match value {
        Some(Lent::Name(text)) => stands_so(relation, comparator, wanted, text),
        Some(Lent::Single(text)) => stands_so(relation, comparator, wanted, text.as_slice()),
        Some(Lent::Stamp(digits)) => stands_so(relation, comparator, wanted, &digits),
        Some(Lent::Multi(texts)) => {
            any_stands_so(relation, comparator, wanted, texts.as_slice())
        }
        None => false,
    }
}

/// Whether strings are compared by their octets, whatever the sign.
pub(crate) fn is_octet(comparator: &Comparator) -> bool
    ensures { result ≡ rule.is_octet comparator.now.collation }
{
    matches!(comparator.collation, Collation::Octet)
}

/// Whether the relation is that of EQUAL.
pub(crate) fn is_equal(relation: Relation) -> bool
    ensures { result ≡ rule.is_equal relation }
{
    matches!(relation, Relation::Equal)
}

// What is tested of an attribute: where octets are to be equal that which may be tested, else that which may be read.
fn pick_cell<'a, R: Records>(
    spot: &EntryView<'a, R>,
    attribute: &[u8],
    by_octets: bool,
) -> Option<Lent<'a>>
    ensures { cell_of result ≡ rule.tested_cell by_octets (answers_of spot.now) attribute.now }
{
    let seen = look(spot, attribute);
    if by_octets { seen.test() } else { seen.read() }
}

// Whether a position is one from the first to the last.
fn is_within(first: u32, last: u32, place: Option<u32>) -> bool
    ensures { result ≡ rule.is_within first last place }
{
    match place {
        Some(position) => first <= position && position <= last,
        None => false,
    }
}

// Whether an entry passes one test.
fn passes<R: Records>(spot: &EntryView<'_, R>, test: &Test, place: Option<u32>) -> bool
    ensures { result ≡ rule.passes test.now place (answers_of spot.now) }
{
    match test {
        Test::All => true,
        Test::IsNil(attribute, comparator) => {
            is_nil(pick_cell(spot, attribute.as_slice(), is_octet(comparator)))
        }
        Test::Meets(relation, attribute, comparator, wanted) => {
            let by_octets = is_equal(*relation) && is_octet(comparator);
            let value = pick_cell(spot, attribute.as_slice(), by_octets);
            meets(value, *relation, comparator, wanted.as_slice())
        }
        Test::Range(first, last, _) => is_within(*first, *last, place),
    }
}

/// Whether a key wants an entry that is looked at.
pub(crate) fn wants<R: Records>(spot: &EntryView<'_, R>, key: &Key, place: Option<u32>) -> bool
    ensures { result ≡ rule.holds key.now place (answers_of spot.now) }
{
    match key.node() {
        Node::One(test) => passes(spot, test, place),
        Node::And(first, second) => { wants(spot, first, place) && wants(spot, second, place) }
        Node::Or(first, second) => { wants(spot, first, place) || wants(spot, second, place) }
        Node::Not(key) => !wants(spot, key, place),
    }
}

/// Whether a key wants an entry, by what the user sees of it (RFC 2244 section 6.4.1). The place is the entry's position in
/// the context that is searched, and none over a dataset; RANGE asks for it, and is false where there is none. Takes no memory.
/// It counts as one step.
pub fn matches<'a, R: Records, L: Ledger>(
    by: &DatasetView<'a, R>,
    name: &'a EntryName,
    key: &Key,
    place: Option<u32>,
    steps: &mut Steps<L>,
) -> bool
    ensures count { steps.new ≡ steps.old + 1 }
    ensures wanted { result ≡ rule.holds key.now place (answers_of (spot_in by.now name.now)) }
{
    steps.tick();
    wants(&EntryView::far(by, name), key, place)
}
