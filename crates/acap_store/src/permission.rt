//! PERMISSION: whether a user has the rights that a STORE needs.
ghost use Rattle.std.specs.Prelude.{◌≡◌, find, option_map, is_some, IfOk, IfSome, IsTrue};
ghost use Rattle.std.specs.Option.{option_copied};
ghost use Rattle.acap_commands.specs.Answers.{IsCheck};
ghost use Rattle.acap_rights.specs.Deciding as decided;
ghost use Rattle.acap_store.specs.Asking as asking;
ghost use Rattle.acap_store.specs.Permission as rule;
ghost use Rattle.acap_store.specs.Sharing.{HasNoLists};

use crate::item_tests::{exists_at, is_management, is_nil_at, is_value};
use crate::known::learn_rights;
use crate::subject::Subject;
use crate::write_env::WriteEnv;
use acap_commands::{ObjectName, Refusal, StoreEntry, StoreItem};
use acap_entries::{Attribute, Boxed, Copying, Memory, Path, Tree};
use acap_rights::{Object, Rights, SharedRights, object_of_list, rights_of};
use std::alloc::Global;

// The object that is an entry's `entry`.
fn entry_object(path: &Path) -> Object<'_>
    ensures { decided.target_of result ≡ rule.entry_target path.now }
{
    Object::Entry {
        dataset: path.dataset.as_slice(),
        attribute: b"entry",
        name: path.name.as_slice(),
    }
}

// Whether no attribute of the entry at a path has a list of its own.
fn has_no_lists(tree: &Tree, path: &Path) -> bool
    ensures { IsTrue result → HasNoLists tree.now.store.records path.now }
{
    match tree.get(path) {
        Some(record) => record.acls.len() == 0,
        None => true,
    }
}

// The rights on the attributes of the entry at a path, where it has no list for one of them: those in its dataset.
fn select_shared<'a>(
    by: &WriteEnv<'_>,
    path: &Path,
    shared: &'a SharedRights,
) -> Option<&'a SharedRights>
    requires { asking.AreSharedIn by.now path.now.dataset shared.now }
    ensures { asking.AreSharedAt by.now path.now (option_copied result) }
{
    if has_no_lists(by.tree, path) {
        Some(shared)
    } else {
        None
    }
}

// The rights on one attribute of the entry.
fn rights_on<'a>(subject: &'a Subject<'a>, attribute: &'a [u8]) -> Rights
    ensures { result ≡ asking.rights_on subject.now attribute.now }
{
    match subject.shared {
        Some(shared) => shared.on(attribute),
        None => {
            let object = Object::Entry {
                dataset: subject.path.dataset.as_slice(),
                attribute,
                name: subject.path.name.as_slice(),
            };
            let by = subject.by;
            rights_of(by.tree, by.realm, by.user, &object)
        }
    }
}

// Whether the user may change the entry, or make it. Whoever may make it isn't asked whether it exists.
fn may_touch(subject: &Subject<'_>) -> bool
    ensures { result ≡ asking.may_be_touched subject.now }
{
    if is_management(subject.path) {
        return true;
    }
    let by = subject.by;
    let rights = rights_on(subject, b"entry");
    rights.r && (rights.w || rights.i || exists_at(by.tree, subject.path))
}

// The object whose list an item is, if it is one.
fn list_object<'a>(path: &'a Path, item: &'a StoreItem) -> Option<Object<'a>>
    ensures target { option_map decided.target_of result ≡ rule.list_target path.now item.now }
    ensures inside { IfSome result (λ object. asking.IsAt path.now (decided.target_of object)) }
{
    let dataset = path.dataset.as_slice();
    let attribute = item.attribute.as_slice();
    if !is_value(item.metadata) {
        return Some(Object::Entry {
            dataset,
            attribute,
            name: path.name.as_slice(),
        });
    }
    if is_management(path) {
        object_of_list(dataset, attribute)
    } else {
        None
    }
}

// The object on which the right to store an item is asked for.
fn item_object<'a>(path: &'a Path, item: &'a StoreItem) -> Object<'a>
    ensures target { decided.target_of result ≡ rule.item_target path.now item.now }
    ensures inside { asking.IsAt path.now (decided.target_of result) }
{
    match list_object(path, item) {
        Some(object) => object,
        None => Object::Entry {
            dataset: path.dataset.as_slice(),
            attribute: item.attribute.as_slice(),
            name: path.name.as_slice(),
        },
    }
}

/// Whether an item is a list.
pub(crate) fn is_list(path: &Path, item: &StoreItem) -> bool
    ensures { result ≡ is_some (rule.list_target path.now item.now) }
{
    list_object(path, item).is_some()
}

// Whether the user may store an item in the entry.
fn may_store(subject: &Subject<'_>, item: &StoreItem) -> bool
    ensures { result ≡ asking.may_be_stored subject.now item.now }
{
    let by = subject.by;
    if let Some(object) = list_object(subject.path, item) {
        return rights_of(by.tree, by.realm, by.user, &object).a;
    }
    let attribute = item.attribute.as_slice();
    let rights = rights_on(subject, attribute);
    rights.w || (is_nil_at(by.tree, subject.path, attribute) && rights.i)
}

// The first item that the user may not store in the entry.
fn denied_item<'a>(subject: &Subject<'_>, items: &'a [StoreItem]) -> Option<&'a StoreItem>
    ensures { option_copied result ≡ find (asking.may_not_be_stored subject.now) items.now }
{
    items.iter().find(|item| !may_store(subject, item))
}

// The first object of an entry on which rights are missing.
#[tactic(auto, unfolding(crate::specs::Permission::denied_in))]
fn find_denied<'a>(
    by: &WriteEnv<'_>,
    entry: &'a StoreEntry,
    shared: &SharedRights,
) -> Option<Object<'a>>
    requires { asking.AreSharedIn by.now entry.now.path.dataset shared.now }
    ensures target { option_map decided.target_of result ≡ asking.target_denied by.now entry.now }
    ensures inside { IfSome result (λ object. asking.IsAt entry.now.path (decided.target_of object)) }
{
    let subject = Subject {
        by,
        path: &entry.path,
        shared: select_shared(by, &entry.path, shared),
    };
    if !may_touch(&subject) {
        return Some(entry_object(&entry.path));
    }
    match denied_item(&subject, entry.items.as_slice()) {
        Some(item) => Some(item_object(&entry.path, item)),
        None => None,
    }
}

// The object as a refusal names it.
fn name_object(alloc: Global, path: &Path, object: &Object<'_>) -> Result<ObjectName, Memory>
    requires { asking.IsAt path.now (decided.target_of object.now) }
    ensures { IfOk result (λ made. made ≡ rule.object_name_of (decided.target_of object.now)) }
{
    let dataset = path.dataset.copy()?;
    match object {
        Object::Dataset { .. } => Ok(ObjectName::Dataset { dataset }),
        Object::Attribute { attribute, .. } => {
            let attribute = Attribute::from_slice(alloc, attribute)?;
            ObjectName::attribute(alloc, dataset, attribute)
        }
        Object::Entry { attribute, .. } => {
            let attribute = Attribute::from_slice(alloc, attribute)?;
            let name = path.name.copy()?;
            ObjectName::entry(alloc, dataset, attribute, name)
        }
    }
}

// That no object of an entry is one on which rights are missing, or the refusal for the first.
fn check_entry(
    alloc: Global,
    by: &WriteEnv<'_>,
    entry: &StoreEntry,
    shared: &SharedRights,
) -> Result<(), Refusal>
    requires { asking.AreSharedIn by.now entry.now.path.dataset shared.now }
    ensures { IsCheck (asking.entry_refusal by.now entry.now) result }
{
    match find_denied(by, entry, shared) {
        Some(object) => {
            let object = name_object(alloc, &entry.path, &object)?;
            Err(Refusal::Permission(Boxed::new(alloc, object)?))
        }
        None => Ok(()),
    }
}

/// That rights are missing on no object of all entries, or the refusal for the first (RFC 2244 section 3.5).
pub(crate) fn check_rights(
    alloc: Global,
    by: &WriteEnv<'_>,
    entries: &[StoreEntry],
) -> Result<(), Refusal>
    ensures { IsCheck (asking.rights_refusal by.now entries.now) result }
{
    let mut known = Vec::new(alloc);
    for entry in entries {
        let at = learn_rights(alloc, by, &mut known, entry.path.dataset.as_slice())?;
        check_entry(alloc, by, entry, &known[at].shared)?;
    }
    Ok(())
}
