//! Reads quoted strings.

ghost use Rattle.std.specs.Prelude.{◌≡◌, ◌≤◌, ◌+◌, length, map, IfOk, IfSome};
ghost use Rattle.std.specs.List.{prefix_len};
ghost use Rattle.std.specs.Simd.Lanes.{mask_l};
ghost use Rattle.acap_lexer.specs.Octets.{is_quotable as is_quotable_octet, is_special};
ghost use Rattle.acap_lexer.specs.Reading.{GivesLeft, behind, quoted_at, string_at};
ghost use Rattle.acap_lexer.specs.Printing.{Grows};
ghost use Rattle.acap_lexer.specs.Taking.{TakesRun, TakesEscaped, IsPlainString};

use crate::fault::{LexError, LexFault};
use crate::octets::{is_escaped, is_quotable};
use std::simd::prelude::*;

const BAD_TOKEN: LexError = LexError::Fault(LexFault::BadToken);

/// The most octets between the quotes, escapes counted.
const QUOTED_LIMIT: usize = 1024;

/// The octets that are looked at in one step.
const AT_ONCE: usize = 16;

/// A bit for each octet that doesn't stand for itself.
#[inline]
fn specials(octets: u8x16) -> u64
    ensures { result ≡ mask_l (map is_special octets) }
{
    (octets.simd_eq(u8x16::splat(0))
        | octets.simd_eq(u8x16::splat(b'\n'))
        | octets.simd_eq(u8x16::splat(b'\r'))
        | octets.simd_eq(u8x16::splat(b'"'))
        | octets.simd_eq(u8x16::splat(b'\\'))).to_bitmask()
}

/// How many octets at the beginning stand for themselves, counted by the octet.
fn plain_front(text: &[u8]) -> usize
    ensures within { result ≤ length text.now }
    ensures longest { result ≡ prefix_len is_quotable_octet text.now }
{
    text.iter().take_while(|c| is_quotable(**c)).count()
}

/// How many octets at the beginning stand for themselves, counted by sixteens as far as that goes.
fn plain_len(text: &[u8]) -> usize
    ensures within { result ≤ length text.now }
    ensures longest { result ≡ prefix_len is_quotable_octet text.now }
{
    let mut at = 0;
    'words: while text.len() - at >= AT_ONCE {
        let found = specials(u8x16::from_slice(&text[at..]));
        if found != 0 {
            return at + found.trailing_zeros() as usize;
        }
        at += AT_ONCE;
    }
    at + plain_front(&text[at..])
}

/// How many octets lie between the quotes of the string without escapes at the beginning, and what is left after it, if
/// there is one and it isn't too long.
pub(crate) fn plain_string_at(rest: &[u8]) -> Option<(usize, &[u8])>
    ensures { IfSome result (λ x. IsPlainString rest.now x.0 x.1.now) }
{
    let len = plain_len(rest);
    let (_, behind) = rest.split_at(len);
    let (quote, left) = behind.split_first()?;
    if *quote != b'"' || len > QUOTED_LIMIT {
        return None;
    }
    Some((len, left))
}

/// The next octets that a string stands for, as far as they lie side by side in it, or none at its closing quote, and
/// what is left.
#[tactic(auto, unfolding(crate::specs::Reading::quoted_at))]
fn run_at(text: &[u8]) -> Result<(Option<&[u8]>, &[u8]), LexError>
    ensures { TakesRun text.now result }
{
    let Some((c, after)) = text.split_first() else {
        return Err(BAD_TOKEN);
    };
    if *c == b'"' {
        return Ok((None, after));
    }
    if *c == b'\\' {
        return escape_at(after);
    }
    if !is_quotable(*c) {
        return Err(BAD_TOKEN);
    }
    let (run, left) = text.split_at(1 + plain_len(after));
    Ok((Some(run), left))
}

/// The octet that a backslash escapes, together with those after it that stand for themselves, so that all are copied
/// at once, and what is left.
#[tactic(auto, unfolding(crate::specs::Reading::quoted_at))]
fn escape_at(text: &[u8]) -> Result<(Option<&[u8]>, &[u8]), LexError>
    ensures { TakesEscaped text.now result }
{
    let Some((c, after)) = text.split_first() else {
        return Err(BAD_TOKEN);
    };
    if !is_escaped(*c) {
        return Err(BAD_TOKEN);
    }
    let (run, left) = text.split_at(1 + plain_len(after));
    Ok((Some(run), left))
}

/// What a quoted string stands for, added to the text, and what is left after its last quote.
#[tactic(auto, using(crate::proofs::Quoting::behind_more))]
fn quoted_at<'a>(rest: &'a [u8], text: &mut Vec<u8>) -> Result<&'a [u8], LexError>
    ensures gives { GivesLeft text.new.items result (behind text.old.items (quoted_at rest.now)) }
    ensures grows { Grows text.old.items text.new.items }
    ensures within { IfOk result (λ left. length left.now ≤ length rest.now) }
{
    let mut left = rest;
    'runs: loop {
        let (run, after) = run_at(left)?;
        match run {
            None => return Ok(after),
            Some(octets) => text.extend_from_slice(octets)?,
        }
        left = after;
    }
}

/// The same, where at most 1,024 octets stand between the quotes.
#[tactic(auto, unfolding(crate::specs::Reading::string_at))]
pub(crate) fn string_at<'a>(rest: &'a [u8], text: &mut Vec<u8>) -> Result<&'a [u8], LexError>
    ensures gives { GivesLeft text.new.items result (behind text.old.items (string_at rest.now)) }
    ensures grows { Grows text.old.items text.new.items }
    ensures within { IfOk result (λ left. length left.now ≤ length rest.now) }
{
    let left = quoted_at(rest, text)?;
    if rest.len() > left.len() + (QUOTED_LIMIT + 1) {
        return Err(BAD_TOKEN);
    }
    Ok(left)
}
