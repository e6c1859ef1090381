//! Whom an answer to a challenge logs in (RFC 2195 section 2). No call here takes memory.
ghost use Rattle.std.specs.Prelude.{◌≡◌, ◌↔◌, ◌∷◌, ◌++◌, Some, None, IfSome, IfNone};
ghost use Rattle.std.specs.List.{position};
ghost use Rattle.std.specs.Str.{bytes_eq};
ghost use Rattle.acap_login.specs.Checking.{HasNoParts, is_answer_of};
ghost use Rattle.acap_login.specs.Login.{IsAccepted, IsRefused, answering_user, space};

use crate::hmac::digest;
use crate::users::Users;
use acap_entries::UserName;

// An answer's name and digits: the last 32 octets, with SP before them.
fn parts(answer: &[u8]) -> Option<(&[u8], &[u8; 32])>
    ensures some { IfSome result (λ parts. answer.now ≡ parts.0.now ++ space ∷ parts.1.now) }
    ensures none { IfNone result (HasNoParts answer.now) }
{
    let (front, digits) = answer.split_last_chunk::<32>()?;
    match front.split_last() {
        Some((b' ', name)) => Some((name, digits)),
        _ => None,
    }
}

// Whether the digits are the same. All 32 are compared, wherever they first differ, so that the time taken reveals nothing
// of where that is.
#[tactic(auto, using(crate::proofs::Places::one_more))]
fn are_same(wanted: &[u8; 32], given: &[u8; 32]) -> bool
    ensures { result ≡ bytes_eq wanted.now given.now }
{
    let mut same = true;
    for place in 0..32 {
        same &= wanted[place] == given[place];
    }
    same
}

// Whether a user has that name and, for the challenge, these digits.
fn fits(user: &(UserName, Vec<u8>), challenge: &[u8], name: &[u8], digits: &[u8; 32]) -> bool
    ensures { result ≡ is_answer_of challenge.now name.now digits.now user.now }
{
    let (known, secret) = user;
    known.as_slice() == name && are_same(&digest(secret, challenge), digits)
}

// The first user with that name and these digits.
fn find(
    users: &[(UserName, Vec<u8>)],
    challenge: &[u8],
    name: &[u8],
    digits: &[u8; 32],
) -> Option<usize>
    ensures { result ≡ position (is_answer_of challenge.now name.now digits.now) users.now }
{
    users
        .iter()
        .position(|user| fits(user, challenge, name, digits))
}

/// The place of the first user whom an answer to this challenge fits, if it fits any (RFC 2195 section 2): the user's name
/// stands before the answer's last SP, and the 32 lower-case digits of the user's secret stand after it. Of a user with
/// that name all 32 digits are compared, wherever they first differ.
pub fn check(users: &Users, challenge: &[u8], answer: &[u8]) -> Option<usize>
    ensures value { result ≡ answering_user users.now challenge.now answer.now }
    ensures some { (place : _) → (result ≡ Some place) ↔ IsAccepted users.now challenge.now answer.now place }
    ensures none { (result ≡ None) ↔ IsRefused users.now challenge.now answer.now }
{
    let (name, digits) = parts(answer)?;
    find(users.as_slice(), challenge, name, digits)
}
