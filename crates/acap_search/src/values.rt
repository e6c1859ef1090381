//! What a user sees of an attribute: its value with the right r, a test of it with x, and else NIL.
ghost use Rattle.std.specs.Prelude.{◌≡◌, is_some, IfSome};
ghost use Rattle.std.specs.FinMap as map;
ghost use Rattle.acap_search.specs.RecordCaches as near;
ghost use Rattle.acap_search.specs.Sight as rule;
ghost use Rattle.acap_search.specs.Sight.{own_acl};
ghost use Rattle.acap_search.specs.SeenValues as shown;
ghost use Rattle.acap_search.specs.Views.{answers_of, is_readable_at, rights_in};

use crate::entry_view::EntryView;
use acap_entries::{Cell, EntryName, Record, Records, is_same, stamp};
use acap_inherit::{Found, Lent, lookup};
use acap_rights::{Object, Rights, SharedRights, rights_of};

/// What a user sees of an attribute of an entry, as it is lent: nothing is copied (RFC 2244 section 3.5).
#[derive(Clone, Copy)]
pub(crate) struct SeenValue<'a> {
    value: Option<Lent<'a>>,
    is_testable: bool,
    /// Whether the user may read what it has, even where that is NIL.
    pub(crate) is_readable: bool,
    /// The user's rights on it in the searched dataset.
    pub(crate) rights: Rights,
}

impl<'a> SeenValue<'a> {
    /// Its value where the user may read it, else none.
    pub(crate) fn read(&self) -> Option<Lent<'a>>
        ensures { shown.cell_of result ≡ shown.read_of self.now }
    {
        if self.is_readable { self.value } else { None }
    }

    /// Its value where the user may test or read it, else none.
    pub(crate) fn test(&self) -> Option<Lent<'a>>
        ensures { shown.cell_of result ≡ shown.test_of self.now }
    {
        if self.is_testable { self.value } else { None }
    }
}

// The rights that the entries of a dataset share, where they are at hand.
fn shared_in<'a, R: Records>(spot: &EntryView<'a, R>, dataset: &[u8]) -> Option<&'a SharedRights>
    ensures { IfSome result (λ shared. near.SharesIn spot.now dataset.now shared.now) }
{
    let along = spot.along?;
    let by = spot.by;
    if is_same(dataset, by.dataset.as_slice()) {
        return Some(along.own);
    }
    if is_same(dataset, along.base) {
        return Some(along.inherited);
    }
    None
}

// Whether the entry's record in a dataset has a list for the attribute.
fn has_list_in<R: Records>(spot: &EntryView<'_, R>, dataset: &[u8], attribute: &[u8]) -> bool
    ensures { result ≡ is_some (own_acl spot.now.by.records dataset.now spot.now.name attribute.now) }
{
    let by = spot.by;
    match by.records.find(dataset, spot.name.as_slice()) {
        Some(entry) => has_list(entry, attribute),
        None => false,
    }
}

// The user's rights on an attribute of the entry, in some dataset.
fn rights_on<R: Records>(spot: &EntryView<'_, R>, dataset: &[u8], attribute: &[u8]) -> Rights
    ensures { result ≡ rights_in spot.now.by dataset.now attribute.now spot.now.name }
{
    if let Some(shared) = shared_in(spot, dataset)
        && !has_list_in(spot, dataset, attribute)
    {
        return shared.on(attribute);
    }
    let by = spot.by;
    let object = Object::Entry {
        dataset,
        attribute,
        name: spot.name.as_slice(),
    };
    rights_of(by.records, by.realm, by.user, &object)
}

// The same where a value lies, asked again only where that is another dataset than the searched one.
fn rights_there<R: Records>(
    spot: &EntryView<'_, R>,
    here: Rights,
    dataset: &[u8],
    attribute: &[u8],
) -> Rights
    requires { here ≡ rights_in spot.now.by spot.now.by.dataset attribute.now spot.now.name }
    ensures { result ≡ rights_in spot.now.by dataset.now attribute.now spot.now.name }
{
    let by = spot.by;
    if is_same(dataset, by.dataset.as_slice()) {
        here
    } else {
        rights_on(spot, dataset, attribute)
    }
}

/// Whether nothing is there.
pub(crate) fn is_nil(value: Option<Lent<'_>>) -> bool
    ensures { result ≡ rule.is_nil (shown.cell_of value.entry) }
{
    match value {
        Some(Lent::Name(_)) => false,
        Some(Lent::Single(_)) => false,
        Some(Lent::Stamp(_)) => false,
        Some(Lent::Multi(_)) => false,
        None => true,
    }
}

// Whether these rights let a value be tested.
fn may_test(rights: Rights) -> bool
    ensures { result ≡ rule.may_test rights }
{
    rights.x || rights.r
}

// What a user sees of an attribute of an entry, as the store has it.
fn look_far<'a, R: Records>(spot: &EntryView<'a, R>, attribute: &[u8]) -> SeenValue<'a>
    ensures read { shown.read_of result ≡ (answers_of spot.now).read attribute.now }
    ensures test { shown.test_of result ≡ (answers_of spot.now).test attribute.now }
    ensures rights { result.rights ≡ (answers_of spot.now).rights attribute.now }
    ensures is_readable { result.is_readable ≡ is_readable_at spot.now attribute.now }
{
    let by = spot.by;
    let name = spot.name.as_slice();
    let rights = rights_on(spot, by.dataset.as_slice(), attribute);
    match lookup(by.records, &by.chain, name, attribute) {
        Found::At { dataset, value } => {
            let there = rights_there(spot, rights, dataset, attribute);
            SeenValue {
                value: Some(value),
                is_testable: may_test(rights) && may_test(there),
                is_readable: rights.r && there.r,
                rights,
            }
        }
        Found::Nil => SeenValue {
            value: None,
            is_testable: false,
            is_readable: rights.r,
            rights,
        },
    }
}

// A stored value, as it is lent.
fn lend(cell: &Cell) -> Option<Lent<'_>>
    ensures { shown.cell_of result ≡ cell.now }
{
    match cell {
        Cell::Nil => None,
        Cell::Single(value) => Some(Lent::Single(value)),
        Cell::Multi(values) => Some(Lent::Multi(values)),
    }
}

// What a record has for an attribute, where nothing is inherited.
fn own_value<'a>(entry: &'a Record, name: &'a EntryName, attribute: &[u8]) -> Option<Lent<'a>>
    ensures { shown.cell_of result ≡ near.own_value entry.now name.now attribute.now }
{
    if attribute == b"entry".as_slice() {
        return if entry.present {
            Some(Lent::Name(name.as_slice()))
        } else {
            None
        };
    }
    if attribute == b"modtime".as_slice() {
        return Some(Lent::Stamp(stamp(entry.modtime)));
    }
    if !entry.present {
        return None;
    }
    match entry.cells.find(attribute) {
        Some(cell) => lend(cell),
        None => None,
    }
}

// Whether a record has a list for the attribute.
fn has_list(entry: &Record, attribute: &[u8]) -> bool
    ensures { result ≡ is_some (map.get entry.now.acls attribute.now) }
{
    entry.acls.find(attribute).is_some()
}

/// What a user sees of an attribute of an entry that is looked at. Takes no memory.
pub(crate) fn look<'a, R: Records>(spot: &EntryView<'a, R>, attribute: &[u8]) -> SeenValue<'a>
    ensures read { shown.read_of result ≡ (answers_of spot.now).read attribute.now }
    ensures test { shown.test_of result ≡ (answers_of spot.now).test attribute.now }
    ensures rights { result.rights ≡ (answers_of spot.now).rights attribute.now }
    ensures is_readable { result.is_readable ≡ is_readable_at spot.now attribute.now }
{
    if let Some(kept) = spot.kept
        && !has_list(kept.entry, attribute)
    {
        let rights = kept.shared.on(attribute);
        return SeenValue {
            value: own_value(kept.entry, spot.name, attribute),
            is_testable: may_test(rights),
            is_readable: rights.r,
            rights,
        };
    }
    look_far(spot, attribute)
}

/// What a user may read of an attribute of an entry that is looked at. Takes no memory.
pub(crate) fn read<'a, R: Records>(spot: &EntryView<'a, R>, attribute: &[u8]) -> Option<Lent<'a>>
    ensures { shown.cell_of result ≡ (answers_of spot.now).read attribute.now }
{
    if let Some(kept) = spot.kept
        && !has_list(kept.entry, attribute)
    {
        if kept.shared.on(attribute).r {
            return own_value(kept.entry, spot.name, attribute);
        }
        return None;
    }
    look_far(spot, attribute).read()
}

/// Whether the user sees an entry that is looked at.
pub(crate) fn sees<R: Records>(spot: &EntryView<'_, R>) -> bool
    ensures { result ≡ rule.is_seen (answers_of spot.now) }
{
    if let Some(kept) = spot.kept
        && !has_list(kept.entry, b"entry")
    {
        return kept.entry.present && kept.shared.on(b"entry").r;
    }
    !is_nil(look_far(spot, b"entry").read())
}
