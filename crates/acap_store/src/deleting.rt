//! Which entries a STORE deletes, and what DELETEDSINCE prints of them (RFC 2244 section 6.6.2).
ghost use Rattle.std.specs.Prelude.{◌≡◌, not, IfOk, Ok, Err};
ghost use Rattle.acap_commands.specs.Answers.{IsAnswer};
ghost use Rattle.acap_entries.specs.Made.{IsMade};
ghost use Rattle.acap_store.specs.Deleting as rule;

use crate::item_tests::exists_at;
use crate::writing::ends;
use acap_commands::{Refusal, StoreEntry};
use acap_entries::{
    After, Attribute, Copying, Dataset, Deletion, Memory, Moment, Paths, Ranked, Sequence, Tree,
    UserName, Value, Values, Writes,
};
use acap_rights::{Object, Realm, rights_of};
use std::alloc::Global;

// Names, each once, in the order of their octets.
type Names = Ranked<Attribute>;

// Whether an entry is to end and exists.
fn is_to_end(tree: &Tree, entry: &StoreEntry) -> bool
    ensures { result ≡ rule.is_to_end tree.now.store.records entry.now }
{
    ends(entry) && exists_at(tree, &entry.path)
}

/// The paths of those entries that are to end and exist, in their order.
#[tactic(auto, unfolding(crate::specs::Deleting::ending))]
pub(crate) fn ending(alloc: Global, tree: &Tree, entries: &[StoreEntry]) -> Result<Paths, Memory>
    ensures { IfOk result (λ made. made ≡ rule.ending tree.now.store.records entries.now) }
{
    let mut made = Paths::new(alloc);
    for entry in entries {
        if is_to_end(tree, entry) {
            made.push(entry.path.copy()?)?;
        }
    }
    Ok(made)
}

/// Those of the paths whose entries don't exist once it is written, in their order.
#[tactic(auto, using(crate::proofs::WriteLemmas::filter_append))]
pub(crate) fn keep_gone(
    alloc: Global,
    tree: &Tree,
    writes: &Writes,
    paths: Paths,
) -> Result<Paths, Memory>
    ensures { IsMade (rule.gone_after tree.now.store.records writes.now paths) result }
{
    let after = After {
        tree,
        writes,
        moment: tree.last(),
    };
    let mut made = Paths::new(alloc);
    for path in paths.into_vec() {
        if !exists_at(&after, &path) {
            made.push(path)?;
        }
    }
    Ok(made)
}

// Whether a deletion is printed.
fn is_told(tree: &Tree, dataset: &Dataset, since: Moment, deletion: &Deletion) -> bool
    ensures { result ≡ rule.is_told tree.now.store.records dataset.now since deletion.now }
{
    deletion.path.dataset == *dataset && since < deletion.moment && !exists_at(tree, &deletion.path)
}

// The names of the deletions that are printed.
#[tactic(auto, using(crate::proofs::ToldLemmas::put_names))]
fn gather_names(
    alloc: Global,
    tree: &Tree,
    dataset: &Dataset,
    since: Moment,
) -> Result<Names, Memory>
    ensures { IfOk result (λ names.
        names.0 ≡ rule.ascending (rule.names_told tree.now.store dataset.now since)) }
{
    let mut names = Names::new(alloc);
    let kept = tree.deletions();
    for at in 0..kept.len() {
        let deletion = &kept[at];
        if is_told(tree, dataset, since, deletion) {
            let name = Attribute::from_slice(alloc, deletion.path.name.as_slice())?;
            names.reserve(1)?;
            names.put(name);
        }
    }
    Ok(names)
}

// The names as values.
fn list_names(alloc: Global, names: &Names) -> Result<Values, Memory>
    ensures { IfOk result (λ made. made ≡ names.now.0) }
{
    let mut made = Sequence::new(alloc);
    for name in names.iter() {
        made.push(Value::from_slice(alloc, name.as_slice())?)?;
    }
    Values::new(made)
}

// The names of the entries that were deleted in a dataset later than the time and don't exist.
#[tactic(auto, unfolding(crate::specs::Deleting::names_deleted))]
fn names_deleted(
    alloc: Global,
    tree: &Tree,
    dataset: &Dataset,
    since: Moment,
) -> Result<Values, Memory>
    ensures { IfOk result (λ made. made ≡ rule.names_deleted tree.now.store dataset.now since) }
{
    let names = gather_names(alloc, tree, dataset, since)?;
    list_names(alloc, &names)
}

// Whether a deletion later than the time may be forgotten.
fn is_too_old(tree: &Tree, since: Moment) -> bool
    ensures { result ≡ rule.is_too_old tree.now.store since }
{
    match tree.forgotten() {
        Some(moment) => since < moment,
        None => false,
    }
}

// Whether the user may read the names of a dataset's entries.
fn may_read(tree: &Tree, realm: &Realm, user: &UserName, dataset: &Dataset) -> bool
    ensures { result ≡ rule.may_read tree.now.store.records realm.now user.now dataset.now }
{
    let object = Object::Attribute {
        dataset: dataset.as_slice(),
        attribute: b"entry",
    };
    rights_of(tree, realm, user, &object).r
}

// The answer for the dataset that is meant.
#[tactic(auto, unfolding(crate::specs::Deleting::deleted_in))]
fn tell_deleted(
    alloc: Global,
    tree: &Tree,
    realm: &Realm,
    user: &UserName,
    dataset: Dataset,
    since: Moment,
) -> Result<Values, Refusal>
    ensures { IsAnswer result (rule.deleted_in tree.now.store realm.now user.now dataset since) }
{
    if !tree.dataset_exists(dataset.as_slice()) {
        return Err(Refusal::NoExist(dataset));
    }
    if is_too_old(tree, since) {
        return Err(Refusal::TooOld);
    }
    if !may_read(tree, realm, user, &dataset) {
        return Ok(Values::new(Sequence::new(alloc))?);
    }
    Ok(names_deleted(alloc, tree, &dataset, since)?)
}

/// What DELETEDSINCE prints to a user of a dataset, as sent: the names of the entries that were deleted there later than the time
/// and don't exist now, ascending in octets and each once (RFC 2244 section 6.6.2). None where the user may not read the names.
/// Refused with `NoExist` where the dataset doesn't exist, with `TooOld` where a deletion later than the time was forgotten, and
/// with `Memory`.
pub fn deleted_since(
    alloc: Global,
    tree: &Tree,
    realm: &Realm,
    user: &UserName,
    dataset: &Dataset,
    since: Moment,
) -> Result<Values, Refusal>
    ensures { IsAnswer result (rule.deleted_since tree.now.store realm.now user.now dataset.now since) }
{
    let dataset = dataset.for_user(user)?;
    tell_deleted(alloc, tree, realm, user, dataset, since)
}
