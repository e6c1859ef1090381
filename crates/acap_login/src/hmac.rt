//! HMAC with MD5 (RFC 2104, RFC 1321), and its hex digits. No call here takes memory.
ghost use Rattle.std.specs.Prelude.{◌≡◌, ◌≤◌, length, map, bit_xor};
ghost use Rattle.acap_login.specs.Hmac.{short_key, padded_key, hmac};
ghost use Rattle.acap_login.specs.Login.{digest_of};

use md5::{Digest, Md5};

/// How many octets MD5 takes at a time.
const BLOCK: usize = 64;

/// What each octet of the key's block is mixed with before the message is hashed.
const INNER: u8 = 0x36;

/// What each octet of the key's block is mixed with before that hash is hashed.
const OUTER: u8 = 0x5C;

// A key of at most a block, with zeros after it.
fn pad(key: &[u8]) -> [u8; BLOCK]
    requires { length key.now ≤ 64 }
    ensures { result ≡ padded_key key.now }
{
    let mut block = [0; BLOCK];
    block[..key.len()].copy_from_slice(key);
    block
}

// The block of a key, which is hashed if it is longer.
fn block_of(key: &[u8]) -> [u8; BLOCK]
    ensures { result ≡ padded_key (short_key key.now) }
{
    if key.len() > BLOCK {
        let hash: [u8; 16] = Md5::digest(key);
        pad(&hash)
    } else {
        pad(key)
    }
}

// Each octet of a block xor that octet.
fn mix(octet: u8, mut block: [u8; BLOCK]) -> [u8; BLOCK]
    ensures { result ≡ map (λ x. bit_xor x octet) block }
{
    for x in &mut block {
        *x ^= octet;
    }
    block
}

#[tactic(auto, unfolding(crate::specs::Hmac::hmac, crate::specs::Hmac::key_block))]
fn hmac_of(key: &[u8], message: &[u8]) -> [u8; 16]
    ensures { result ≡ hmac key.now message.now }
{
    let block = block_of(key);
    let inner: [u8; 16] = Md5::new_with_prefix(mix(INNER, block))
        .chain_update(message)
        .finalize();
    Md5::new_with_prefix(mix(OUTER, block))
        .chain_update(inner)
        .finalize()
}

/// What a user with that secret answers to a challenge (RFC 2195 section 2): the 32 lower-case hex digits of the challenge's
/// HMAC under the secret, which may have any length.
#[tactic(auto, unfolding(crate::specs::Login::digest_of))]
pub fn digest(secret: &[u8], challenge: &[u8]) -> [u8; 32]
    ensures { result ≡ digest_of secret.now challenge.now }
{
    let mut digits = [0; 32];
    match hex::encode_to_slice(hmac_of(secret, challenge), &mut digits) {
        Ok(()) => digits,
        Err(_) => unreachable!(),
    }
}
