//! The line that answers a CRAM-MD5 challenge.

ghost use Rattle.std.specs.Prelude.{◌≡◌, IfOk};
ghost use Rattle.acap_login.specs.Login.{answer_of};
ghost use Rattle.acap_client.specs.Login.{answer_text};

use crate::writing::{finish, string, untagged};
use acap_entries::Memory;
use acap_login::digest;
use std::alloc::Global;

/// What a user answers: the name, a space, and the digest of the challenge under the secret.
#[tactic(auto, unfolding(acap_login::specs::Login::digest_of))]
fn answer(alloc: Global, name: &[u8], secret: &[u8], challenge: &[u8]) -> Result<Vec<u8>, Memory>
    ensures { IfOk result (λ made. made.items ≡ answer_of challenge.now (name.now, secret.now)) }
{
    let mut made = Vec::from_slice(alloc, name)?;
    made.push(b' ')?;
    let digits = digest(secret, challenge);
    made.extend_from_slice(&digits)?;
    Ok(made)
}

/// The line that answers a challenge by CRAM-MD5 (RFC 2195 section 2, RFC 2244 section 6.3.1): a string of the user's
/// name, a space and the 32 lower-case hex digits, with its CR LF. Fails only for want of memory.
pub fn answer_line(
    alloc: Global,
    name: &[u8],
    secret: &[u8],
    challenge: &[u8],
) -> Result<Vec<u8>, Memory>
    ensures { IfOk result
        (λ line. line.items ≡ answer_text (answer_of challenge.now (name.now, secret.now))) }
{
    let text = answer(alloc, name, secret, challenge)?;
    let mut writing = untagged(alloc);
    string(&mut writing, &text)?;
    finish(writing)
}
