//! Where a part ends: at its CR LF.

ghost use Rattle.std.specs.Prelude.{◌≡◌, ◌≤◌, ◌<◌, ◌+◌, length, IfSome, IfNone};
ghost use Rattle.acap_lexer.specs.Ends.{NoEnd, follows_return};
ghost use Rattle.acap_lexer.specs.Stream.{end_of, part_end};
ghost use Rattle.acap_lexer.specs.PartEnds.{EndsWithin};

use crate::found::PartEnd;
use memchr::memchr;

/// The most octets of a part, its CR LF counted.
pub(crate) const PART_LIMIT: usize = 8192;

/// Whether a CR stands before the place.
fn follows_return(text: &[u8], at: usize) -> bool
    requires { at < length text.now }
    ensures { result ≡ follows_return text.now at }
{
    at > 0 && text[at - 1] == b'\r'
}

/// Where the first CR LF begins, in a text whose first octets have been looked at.
fn end_of(text: &[u8], looked: usize) -> Option<usize>
    requires within { looked ≤ length text.now }
    requires none { NoEnd text.now looked }
    ensures first { result ≡ end_of text.now }
    ensures passed { IfNone result (NoEnd text.now (length text.now)) }
    ensures inside { IfSome result (λ n. n + 2 ≤ length text.now) }
{
    let mut from = looked;
    'feeds: while let Some(passed) = memchr(b'\n', &text[from..]) {
        let at = from + passed;
        if follows_return(text, at) {
            return Some(at - 1);
        }
        from = at + 1;
    }
    None
}

/// Where the part that begins the text ends, if its first octets have been looked at.
pub(crate) fn part_end(text: &[u8], looked: usize) -> PartEnd
    requires within { looked ≤ length text.now }
    requires none { NoEnd text.now looked }
    ensures part_end { result ≡ part_end text.now }
    ensures places { EndsWithin text.now result }
{
    let front = &text[..PART_LIMIT.min(text.len())];
    match end_of(front, looked.min(front.len())) {
        Some(n) => PartEnd::At(n),
        None => {
            if text.len() < PART_LIMIT {
                PartEnd::NotYet
            } else {
                PartEnd::Never
            }
        }
    }
}
