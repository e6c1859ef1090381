//! The rights of a user: those of the deciding list, and those that no list takes away.
ghost use Rattle.std.specs.Prelude.{◌≡◌};
ghost use Rattle.acap_rights.specs.Rights.{rights_by};
ghost use Rattle.std.specs.Option.{option_copied};
ghost use Rattle.acap_rights.specs.Pairs as rule;
ghost use Rattle.acap_rights.specs.Homes.{default_list};
ghost use Rattle.acap_rights.specs.Deciding as decided;
ghost use Rattle.acap_entries.specs.Names.{has};

use crate::deciding::stored_list;
use crate::homes::{home_of, owns};
use crate::object::Object;
use crate::pairs::pair_of;
use crate::realm::Realm;
use crate::rights::Rights;
use acap_entries::{Records, UserName, Value, is_user_name};

// The rights whose letters stand in a text.
fn by_letters(letters: &[u8]) -> Rights
    ensures { result ≡ rights_by (λ letter. has letter letters.now) }
{
    Rights {
        x: letters.contains(&b'x'),
        r: letters.contains(&b'r'),
        w: letters.contains(&b'w'),
        i: letters.contains(&b'i'),
        a: letters.contains(&b'a'),
    }
}

// What a string of a list gives to the user, and what it takes away.
fn grant(realm: &Realm, user: &[u8], text: &[u8]) -> (Rights, Rights)
    ensures given { result.0 ≡ rule.given_by realm.now user.now text.now }
    ensures taken { result.1 ≡ rule.taken_by realm.now user.now text.now }
{
    match pair_of(text) {
        Some(([b'-', rest @ ..], letters)) => (
            Rights::none(),
            by_letters(letters).only_if(realm.names(user, rest)),
        ),
        Some((identifier, letters)) => (
            by_letters(letters).only_if(realm.names(user, identifier)),
            Rights::none(),
        ),
        None => (Rights::none(), Rights::none()),
    }
}

// All that the pairs of a list give to the user, and all that they take away.
fn gather(realm: &Realm, user: &[u8], acl: &[Value]) -> (Rights, Rights)
    ensures given { result.0 ≡ rule.rights_given realm.now user.now acl.now }
    ensures taken { result.1 ≡ rule.rights_taken realm.now user.now acl.now }
{
    let mut given = Rights::none();
    let mut taken = Rights::none();
    for text in acl {
        let (more, away) = grant(realm, user, text.as_slice());
        given = given.union(more);
        taken = taken.union(away);
    }
    (given, taken)
}

// The rights of a user by a list.
#[tactic(auto, unfolding(crate::specs::Pairs::rights_in))]
fn rights_in(realm: &Realm, user: &[u8], acl: &[Value]) -> Rights
    ensures { result ≡ rule.rights_in realm.now user.now acl.now }
{
    let (given, taken) = gather(realm, user, acl);
    given.less(taken)
}

// The rights of a user where no list is stored.
fn default_rights(realm: &Realm, user: &[u8], dataset: &[u8]) -> Rights
    ensures { result ≡ rule.rights_in realm.now user.now (default_list dataset.now) }
{
    match home_of(dataset) {
        Some(name) => {
            if is_user_name(name) {
                Rights::all().only_if(realm.names(user, name))
            } else {
                Rights::none()
            }
        }
        None => Rights {
            x: true,
            r: true,
            w: false,
            i: false,
            a: false,
        },
    }
}

/// The rights in a dataset that an identifier has whatever the lists say (RFC 2244 section 3.5): an administrator has all, and
/// the dataset's owner may read and administer it.
#[tactic(auto, unfolding(crate::specs::Deciding::implicit_rights))]
pub fn implicit_rights(realm: &Realm, identifier: &[u8], dataset: &[u8]) -> Rights
    ensures { result ≡ decided.implicit_rights realm.now identifier.now dataset.now }
{
    if realm.is_administrator(identifier) {
        Rights::all()
    } else {
        let owner = owns(identifier, dataset);
        Rights {
            x: false,
            r: owner,
            w: false,
            i: false,
            a: owner,
        }
    }
}

/// The rights of a user by the stored list that decides in a dataset, else by its default, and the implicit rights.
pub(crate) fn rights_by(
    realm: &Realm,
    user: &UserName,
    dataset: &[u8],
    stored: Option<&[Value]>,
) -> Rights
    ensures { result ≡ decided.rights_by_list realm.now user.now dataset.now (option_copied stored.entry) }
{
    let user = user.as_slice();
    let listed = match stored {
        Some(acl) => rights_in(realm, user, acl),
        None => default_rights(realm, user, dataset),
    };
    if listed == Rights::all() {
        return listed;
    }
    listed.union(implicit_rights(realm, user, dataset))
}

/// The rights of a user on an object, whether it is there or not (RFC 2244 section 3.5): what the list that decides there gives, and
/// the implicit rights.
#[tactic(auto, unfolding(crate::specs::Deciding::rights_of, crate::specs::Deciding::deciding_list))]
pub fn rights_of<R: Records>(
    records: &R,
    realm: &Realm,
    user: &UserName,
    object: &Object<'_>,
) -> Rights
    ensures { result ≡ decided.rights_at (R.store records.now) realm.now user.now object.now }
{
    rights_by(realm, user, object.dataset(), stored_list(records, object))
}
