//! Which user owns a dataset (RFC 2244 section 4.1).
ghost use Rattle.std.specs.Prelude.{◌≡◌};
ghost use Rattle.std.specs.List.{slice_split};
ghost use Rattle.std.specs.Option.{option_copied};
ghost use Rattle.acap_entries.specs.Names as name;
ghost use Rattle.acap_rights.specs.Homes as rule;

use crate::cutting::cut_at;
use acap_entries::{Dataset, UserName, is_user_name};

// What stands between the first octet of a dataset and its closing slash, if that is there.
fn inside(dataset: &[u8]) -> &[u8]
    ensures { result.now ≡ name.inside dataset.now }
{
    match dataset {
        [] => dataset,
        [.., b'/'] => {
            let path = &dataset[..dataset.len() - 1];
            if path.is_empty() { path } else { &path[1..] }
        }
        _ => &dataset[1..],
    }
}

// Of the parts between slashes the third, if the second is `user`.
fn third_of(path: &[u8]) -> Option<&[u8]>
    ensures { option_copied result ≡ rule.third_of (slice_split name.is_slash path.now) }
{
    let (_, rest) = cut_at(path, b'/')?;
    let (second, rest) = cut_at(rest, b'/')?;
    if second != b"user".as_slice() {
        return None;
    }
    match cut_at(rest, b'/') {
        Some((third, _)) => Some(third),
        None => Some(rest),
    }
}

/// Whose home a dataset lies in: NAME of `/CLASS/user/NAME/` and of the datasets beneath it.
#[tactic(auto, unfolding(crate::specs::Homes::home_of, acap_entries::specs::Names::components))]
pub(crate) fn home_of(dataset: &[u8]) -> Option<&[u8]>
    ensures { option_copied result ≡ rule.home_of dataset.now }
{
    match dataset {
        [b'/', _, ..] => third_of(inside(dataset)),
        _ => None,
    }
}

/// Whether the octets are the name of the user whose home a dataset lies in.
#[tactic(auto, unfolding(crate::specs::Homes::is_owner))]
pub(crate) fn owns(user: &[u8], dataset: &[u8]) -> bool
    ensures { result ≡ rule.is_owner user.now dataset.now }
{
    match home_of(dataset) {
        Some(name) => is_user_name(name) && name == user,
        None => false,
    }
}

/// Whether a dataset is the user's own: `/CLASS/user/USER/` or one beneath it. Where USER is no user's name nobody owns it.
pub fn is_owner(user: &UserName, dataset: &Dataset) -> bool
    ensures { result ≡ rule.is_owner user.now dataset.now }
{
    owns(user.as_slice(), dataset.as_slice())
}
