//! Which of the four lists decides on an object.
ghost use Rattle.std.specs.Prelude.{◌≡◌, IfOk};
ghost use Rattle.std.specs.Option.{option_copied, option_and_then};
ghost use Rattle.acap_rights.specs.Deciding as rule;

use crate::acl::Acl;
use crate::forms::{copy_of, default_list};
use crate::object::Object;
use acap_entries::{Cell, JoinedText, Memory, Record, Records, Value};
use std::alloc::Global;

/// A value as a list: NIL is none, and one string is a list in which nothing stands.
pub(crate) fn list_in(cell: Option<&Cell>) -> Option<&[Value]>
    ensures { option_copied result ≡ option_and_then rule.list_in (option_copied cell.entry) }
{
    match cell {
        Some(Cell::Multi(values)) => Some(values.as_slice()),
        Some(Cell::Single(_)) => Some(&[]),
        Some(Cell::Nil) => None,
        None => None,
    }
}

// The list of the attribute in a record.
fn own_list<'a>(entry: Option<&'a Record>, attribute: &[u8]) -> Option<&'a [Value]>
    ensures { option_copied result ≡ rule.list_for attribute.now (option_copied entry.entry) }
{
    match entry {
        Some(record) => match record.acls.find(attribute) {
            Some(strings) => Some(strings.as_slice()),
            None => None,
        },
        None => None,
    }
}

/// The list of a dataset in its management entry.
pub(crate) fn dataset_list(management: Option<&Record>) -> Option<&[Value]>
    ensures { option_copied result ≡ rule.dataset_list_in (option_copied management.entry) }
{
    match management {
        Some(record) => list_in(record.cells.find(b"dataset.acl")),
        None => None,
    }
}

// The list of an attribute in the management entry of its dataset.
fn attribute_list<'a>(management: Option<&'a Record>, attribute: &[u8]) -> Option<&'a [Value]>
    ensures { option_copied result ≡ rule.attribute_list_in attribute.now (option_copied management.entry) }
{
    match management {
        Some(record) => list_in(
            record.cells.find_by(&JoinedText {
                front: b"dataset.acl.",
                rest: attribute,
            }),
        ),
        None => None,
    }
}

// The list of an attribute in its dataset, else that of the dataset.
fn shared_list<'a, R: Records>(
    records: &'a R,
    dataset: &[u8],
    attribute: &[u8],
) -> Option<&'a [Value]>
    ensures { option_copied result ≡ rule.shared_list (R.store records.now) dataset.now attribute.now }
{
    let management = records.find(dataset, b"");
    match attribute_list(management, attribute) {
        Some(strings) => Some(strings),
        None => dataset_list(management),
    }
}

/// The stored list that decides at an object, if one does.
pub(crate) fn stored_list<'a, R: Records>(
    records: &'a R,
    object: &Object<'_>,
) -> Option<&'a [Value]>
    ensures { option_copied result ≡ rule.stored_at (R.store records.now) object.now }
{
    match object {
        Object::Dataset { dataset } => dataset_list(records.find(dataset, b"")),
        Object::Attribute { dataset, attribute } => shared_list(records, dataset, attribute),
        Object::Entry {
            dataset,
            attribute,
            name,
        } => match own_list(records.find(dataset, name), attribute) {
            Some(strings) => Some(strings),
            None => shared_list(records, dataset, attribute),
        },
    }
}

/// The list that decides at an object, in memory of its own (RFC 2244 section 3.5): the first of the attribute's list in the
/// entry's record, `dataset.acl.ATTRIBUTE` and `dataset.acl` of the management entry, else the default of the dataset. From it
/// SETACL and DELETEACL start. Fails only for want of memory.
#[tactic(auto, unfolding(crate::specs::Deciding::deciding_list))]
pub fn decided_list<R: Records>(
    alloc: Global,
    records: &R,
    object: &Object<'_>,
) -> Result<Acl, Memory>
    ensures { IfOk result (λ acl. acl ≡ rule.decided_at (R.store records.now) object.now) }
{
    let strings = match stored_list(records, object) {
        Some(strings) => copy_of(alloc, strings)?,
        None => default_list(alloc, object.dataset())?,
    };
    Ok(Acl::new(strings))
}
