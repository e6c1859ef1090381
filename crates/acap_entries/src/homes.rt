//! `~` in a dataset's name, which stands for the user's own part of it.
ghost use Rattle.std.specs.Prelude.{◌≡◌, ◌<◌, length, IfOk, IfNone, IfSome, true, false};
ghost use Rattle.acap_entries.specs.Homes as home;
ghost use Rattle.acap_entries.specs.Made.{IsMade};

use crate::names::first_slash;
use crate::text::DatasetText;
use acap_ordmap::{Copying, Memory};
use std::alloc::Global;

// Where the second component of a dataset begins, if that is `~`.
#[tactic(auto, unfolding(crate::specs::Homes::is_home))]
fn tilde_at(dataset: &[u8]) -> Option<usize>
    ensures none { IfNone result (home.is_home dataset.now ≡ false) }
    ensures some { IfSome result (λ at. home.is_home dataset.now ≡ true) }
    ensures place { IfSome result (λ at. at ≡ home.second_at dataset.now) }
    ensures within { IfSome result (λ at. at < length dataset.now) }
{
    let (first, rest) = dataset.split_first()?;
    let at = first_slash(rest)? + 2;
    if *first == b'/' && dataset[at..].starts_with(b"~/") {
        Some(at)
    } else {
        None
    }
}

// The octets with `user/USER` in place of the one octet there, in no more memory than they need.
fn put_user(alloc: Global, octets: &[u8], at: usize, user: &[u8]) -> Result<DatasetText, Memory>
    requires { at < length octets.now }
    ensures { IsMade (home.with_user_at at user.now octets.now) result }
{
    DatasetText::join(alloc, &octets[..at], b"user/", user, &octets[at + 1..])
}

// The dataset that a user means, in memory of its own.
#[tactic(auto, unfolding(crate::specs::Homes::for_user))]
pub(crate) fn for_user(dataset: &DatasetText, user: &[u8]) -> Result<DatasetText, Memory>
    ensures { IsMade (home.for_user user.now dataset.now) result }
{
    match tilde_at(dataset.as_slice()) {
        Some(at) => put_user(dataset.allocator(), dataset.as_slice(), at, user),
        None => dataset.copy(),
    }
}

// The same where it is another dataset, and none where it is that one.
#[tactic(auto, unfolding(crate::specs::Homes::for_user))]
pub(crate) fn other_for_user(
    dataset: &DatasetText,
    user: &[u8],
) -> Result<Option<DatasetText>, Memory>
    ensures other { IfOk result (λ made. IfSome made (λ other. other ≡ home.for_user user.now dataset.now)) }
    ensures same { IfOk result (λ made. IfNone made (home.for_user user.now dataset.now ≡ dataset.now)) }
{
    match tilde_at(dataset.as_slice()) {
        Some(at) => Ok(Some(put_user(dataset.allocator(), dataset.as_slice(), at, user)?)),
        None => Ok(None),
    }
}
