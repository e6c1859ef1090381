//! The challenge of a login (RFC 2195 section 2).
ghost use Rattle.std.specs.Prelude.{◌≡◌, IfOk};
ghost use Rattle.acap_login.specs.Login.{challenge_of};

use acap_entries::Memory;
use std::alloc::Global;

/// The challenge `<NONCE.SECONDS@HOST>` (RFC 2195 section 2): a nonce that isn't used again, the whole seconds since 1970,
/// and the host's name. Fails only for want of memory.
#[tactic(auto, unfolding(crate::specs::Login::challenge_of))]
pub fn challenge(alloc: Global, nonce: u64, secs: u64, host: &[u8]) -> Result<Vec<u8>, Memory>
    ensures { IfOk result (λ made. made.items ≡ challenge_of nonce secs host.now) }
{
    let numbers = format!(in alloc; "<{nonce}.{secs}@")?;
    let mut made = numbers.into_bytes();
    made.extend_from_slice(host)?;
    made.push(b'>')?;
    Ok(made)
}
