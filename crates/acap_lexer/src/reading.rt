//! Reads one token of a part: its tag, a word, a parenthesis, and what may stand between two of them.

ghost use Rattle.std.specs.Prelude.{◌≡◌, ◌≤◌, ◌<◌, ◌-◌, length, IfOk};
ghost use Rattle.std.specs.List.{prefix_len};
ghost use Rattle.acap_lexer.specs.Octets.{is_word as is_word_octet, is_tag as is_tag_octet};
ghost use Rattle.acap_lexer.specs.Part.{with_token};
ghost use Rattle.acap_lexer.specs.Places.{LiesIn, Splits};
ghost use Rattle.acap_lexer.specs.Printing.{Grows};
ghost use Rattle.acap_lexer.specs.Reading.{Gives, GivesPlain, stray, token_at, may_touch, gap_behind, gap_at, ends_tag, tag_at};

use crate::draft::Draft;
use crate::fault::{LexError, LexFault};
use crate::kind::Kind;
use crate::marks::mark_of;
use crate::octets::{is_tag, is_word};

const BAD_TOKEN: LexError = LexError::Fault(LexFault::BadToken);

/// The most octets of a tag.
const TAG_LIMIT: usize = 32;

fn word_len(text: &[u8]) -> usize
    ensures within { result ≤ length text.now }
    ensures longest { result ≡ prefix_len is_word_octet text.now }
{
    text.iter().take_while(|c| is_word(**c)).count()
}

fn tag_len(text: &[u8]) -> usize
    ensures within { result ≤ length text.now }
    ensures longest { result ≡ prefix_len is_tag_octet text.now }
{
    text.iter().take_while(|c| is_tag(**c)).count()
}

/// What an octet that may not stand here is.
#[tactic(auto, unfolding(crate::specs::Reading::stray))]
fn stray(text: &[u8]) -> LexFault
    ensures { result ≡ stray text.now }
{
    match text.first() {
        Some(b'{') if mark_of(text).is_none() => LexFault::BadLiteral,
        _ => LexFault::BadToken,
    }
}

/// The token at the beginning, where that is no string: its kind, how many octets it stands for, and what is
/// left.
#[tactic(auto, unfolding(crate::specs::Reading::token_at))]
fn plain_at(text: &[u8]) -> Result<(Kind, usize, &[u8]), LexError>
    ensures gives { GivesPlain text.now result }
    ensures value { IfOk result (λ x. x.1 ≤ length text.now) }
    ensures within { IfOk result (λ x. length x.2.now ≤ length text.now) }
{
    let Some((c, left)) = text.split_first() else {
        return Err(BAD_TOKEN);
    };
    match *c {
        b'(' => Ok((Kind::Open, 0, left)),
        b')' => Ok((Kind::Close, 0, left)),
        c if is_word(c) => {
            let len = word_len(text);
            let (_, left) = text.split_at(len);
            Ok((Kind::Word, len, left))
        }
        _ => Err(LexError::Fault(stray(text))),
    }
}

/// Adds the token at the beginning of a text that goes up to the place `end` of the command, and whose copy goes up to
/// the index `behind`. Gives what is left.
#[tactic(auto, unfolding(crate::specs::Reading::token_at))]
pub(crate) fn push_token<'a>(
    draft: &mut Draft,
    text: &'a [u8],
    end: usize,
    behind: usize,
) -> Result<&'a [u8], LexError>
    requires within { length text.now ≤ end }
    requires copied { LiesIn draft.old.text behind text.now }
    ensures gives { Gives (λ left. (draft.new.tokens, left.now)) result
        (with_token draft.old.tokens end text.now (token_at text.now)) }
    ensures grows { Grows draft.old.tokens draft.new.tokens }
    ensures text { Grows draft.old.text draft.new.text }
    ensures within { IfOk result (λ left. length left.now ≤ length text.now) }
{
    if let Some((b'"', rest)) = text.split_first() {
        return draft.push_string(rest, end, behind);
    }
    let (kind, len, left) = plain_at(text)?;
    let span = end - text.len()..end - left.len();
    draft.push_front(kind, text, len, behind, span)?;
    Ok(left)
}

/// Whether the octet may stand directly after a token of this kind.
#[tactic(auto, unfolding(crate::specs::Reading::may_touch))]
fn may_touch(kind: Kind, c: u8) -> bool
    ensures { result ≡ may_touch kind c }
{
    match kind {
        Kind::Tag => false,
        Kind::Word | Kind::Close => c == b')',
        Kind::Quoted | Kind::Literal => c == b')' || c == b'(',
        Kind::Open => true,
    }
}

/// Where the next token begins, after one of this kind.
#[tactic(auto, unfolding(crate::specs::Reading::gap_behind))]
fn gap_behind(kind: Kind, text: &[u8]) -> Result<&[u8], LexError>
    ensures gives { Gives (λ left. left.now) result (gap_behind kind text.now) }
    ensures within { IfOk result (λ left. length left.now ≤ length text.now) }
{
    let Some((c, rest)) = text.split_first() else {
        return Err(BAD_TOKEN);
    };
    if *c == b' ' {
        if let Some(b')') = rest.first() {
            return Err(BAD_TOKEN);
        }
        return Ok(rest);
    }
    if !may_touch(kind, *c) {
        return Err(LexError::Fault(stray(text)));
    }
    Ok(text)
}

/// Where the next token begins: after the one space that stands between two tokens, if any has to.
pub(crate) fn gap_at(last: Option<Kind>, text: &[u8]) -> Result<&[u8], LexError>
    ensures gives { Gives (λ left. left.now) result (gap_at last text.now) }
    ensures within { IfOk result (λ left. length left.now ≤ length text.now) }
{
    match last {
        None | Some(Kind::Open) => Ok(text),
        Some(kind) => gap_behind(kind, text),
    }
}

#[tactic(auto, unfolding(crate::specs::Reading::ends_tag))]
fn ends_tag(text: &[u8]) -> bool
    ensures { result ≡ ends_tag text.now }
{
    match text.first() {
        None => true,
        Some(c) => *c == b' ',
    }
}

/// The tag of a command, and what is left.
#[tactic(auto, unfolding(crate::specs::Reading::tag_at))]
pub(crate) fn tag_at(part: &[u8]) -> Result<(&[u8], &[u8]), LexError>
    ensures gives { Gives (λ x. (x.0.now, x.1.now)) result (tag_at part.now) }
    ensures splits { IfOk result (λ x. Splits part.now x.0.now x.1.now) }
    ensures within { IfOk result (λ x. length x.1.now ≤ length part.now) }
{
    let n = tag_len(part);
    if n == 0 || n > TAG_LIMIT {
        return Err(LexError::Fault(LexFault::BadTag));
    }
    let (tag, rest) = part.split_at(n);
    if !ends_tag(rest) {
        return Err(LexError::Fault(LexFault::BadTag));
    }
    Ok((tag, rest))
}
