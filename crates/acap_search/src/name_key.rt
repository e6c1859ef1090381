//! Keys that only the entry of one name can meet, so that a search looks at that entry alone.
ghost use Rattle.std.specs.Prelude.{◌≡◌, is_some, map, IfSome};
ghost use Rattle.std.specs.List.{list_any};
ghost use Rattle.std.specs.Option.{option_copied};
ghost use Rattle.acap_inherit.specs.Records.{record_at};
ghost use Rattle.acap_search.specs.Named as rule;

use crate::matching::{is_equal, is_octet};
use acap_commands::{Key, Node, Test};
use acap_entries::{EntryName, Tree};
use acap_inherit::Lineage;

// The name that a test wants, where it is EQUAL on `entry` by octets.
fn name_in(test: &Test) -> Option<&[u8]>
    ensures { option_copied result ≡ rule.name_in test.now }
{
    match test {
        Test::Meets(relation, attribute, comparator, wanted) => {
            let by_octets = is_equal(*relation) && is_octet(comparator);
            if by_octets && attribute.as_slice() == b"entry".as_slice() {
                Some(wanted.as_slice())
            } else {
                None
            }
        }
        Test::All | Test::IsNil(_, _) | Test::Range(_, _, _) => None,
    }
}

/// The name that each entry has which a key wants, if the key gives one.
pub(crate) fn only_name(key: &Key) -> Option<&[u8]>
    ensures { option_copied result ≡ rule.only_name key.now }
{
    match key.node() {
        Node::One(test) => name_in(test),
        Node::And(first, second) => match only_name(first) {
            Some(name) => Some(name),
            None => only_name(second),
        },
        Node::Or(_, _) => None,
        Node::Not(_) => None,
    }
}

// A name as it is kept with the record that a dataset has of it.
fn kept_name<'a>(tree: &'a Tree, dataset: &[u8], name: &[u8]) -> Option<&'a EntryName>
    ensures name { IfSome result (λ found. found.now ≡ name.now) }
    ensures found { is_some result ≡ is_some (record_at tree.now.store.records dataset.now name.now) }
{
    match tree.entry(dataset, name) {
        Some((path, _)) => Some(&path.name),
        None => None,
    }
}

// The same in the first of some datasets that has a record of it.
fn find_in<'a>(tree: &'a Tree, datasets: &[&'a [u8]], name: &[u8]) -> Option<&'a EntryName>
    ensures name { IfSome result (λ found. found.now ≡ name.now) }
    ensures found { is_some result
        ≡ list_any (λ dataset. is_some (record_at tree.now.store.records dataset name.now))
        (map (λ dataset. dataset.now) datasets.now) }
{
    match datasets.split_first() {
        Some((dataset, others)) => match kept_name(tree, *dataset, name) {
            Some(found) => Some(found),
            None => find_in(tree, others, name),
        },
        None => None,
    }
}

/// A name as it is kept in the first dataset of a chain that has a record of it.
pub(crate) fn find_name<'a>(
    tree: &'a Tree,
    chain: &Lineage<'a>,
    name: &[u8],
) -> Option<&'a EntryName>
    ensures name { IfSome result (λ found. found.now ≡ name.now) }
    ensures found { is_some result
        ≡ list_any (λ dataset. is_some (record_at tree.now.store.records dataset name.now)) chain.now }
{
    find_in(tree, chain.names(), name)
}
