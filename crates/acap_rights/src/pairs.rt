//! A string of a list: an identifier, a TAB and letters (RFC 2244 sections 3.5 and 8).
ghost use Rattle.std.specs.Prelude.{◌≡◌, option_map};
ghost use Rattle.std.specs.List.{list_all};
ghost use Rattle.std.specs.Option.{is_some};
ghost use Rattle.acap_rights.specs.Pairs as rule;

use crate::cutting::cut_at;
use acap_entries::Value;

// Whether it is an identifier: not empty, not `-` alone, and without TAB.
#[tactic(auto, unfolding(crate::specs::Pairs::is_identifier))]
fn is_identifier(text: &[u8]) -> bool
    ensures { result ≡ rule.is_identifier text.now }
{
    !text.is_empty() && text != b"-".as_slice() && !text.contains(&b'\t')
}

// Whether all of them are the letters of rights.
fn are_letters(text: &[u8]) -> bool
    ensures { result ≡ list_all rule.is_letter text.now }
{
    text.iter().all(|letter| b"xrwia".contains(letter))
}

/// Whether an identifier and letters make a string of a list: the identifier is not empty, not `-` alone and without TAB, and
/// the letters are among `xrwia`.
pub fn is_pair(identifier: &[u8], letters: &[u8]) -> bool
    ensures { result ≡ is_some (rule.pair_of (rule.string_of identifier.now letters.now)) }
{
    is_identifier(identifier) && are_letters(letters)
}

/// What a string of a list says: its identifier and its letters. None of any other string.
#[tactic(auto, unfolding(crate::specs::Pairs::pair_of))]
pub(crate) fn pair_of(text: &[u8]) -> Option<(&[u8], &[u8])>
    ensures { option_map (λ p. rule.pair_with p.0.now p.1.now) result ≡ rule.pair_of text.now }
{
    let (identifier, letters) = cut_at(text, b'\t')?;
    if is_identifier(identifier) && are_letters(letters) {
        Some((identifier, letters))
    } else {
        None
    }
}

/// Whether the strings are an access control list: each is an identifier, TAB and letters. There may be none.
pub fn is_acl(strings: &[Value]) -> bool
    ensures { result ≡ rule.is_acl strings.now }
{
    strings
        .iter()
        .all(|text| pair_of(text.as_slice()).is_some())
}
