//! The mark of a literal, `{count}` or `{count+}`.

ghost use Rattle.std.specs.Prelude.{◌≡◌, ◌≤◌, length};
ghost use Rattle.std.specs.List.{prefix_len};
ghost use Rattle.acap_lexer.specs.Octets.{is_digit as is_digit_octet};
ghost use Rattle.acap_lexer.specs.Reading.{count_of, closing_of, mark_of};

use crate::found::Announced;
use crate::octets::is_digit;

/// The most digits of a count.
const DIGITS_LIMIT: usize = 10;

/// The greatest count.
const COUNT_LIMIT: u64 = 4294967295;

/// How many octets at the beginning are digits.
fn digits_len(text: &[u8]) -> usize
    ensures within { result ≤ length text.now }
    ensures longest { result ≡ prefix_len is_digit_octet text.now }
{
    text.iter().take_while(|c| is_digit(**c)).count()
}

/// The number that decimal digits stand for, if there are 1 to 10 of them and it is at most 4294967295 (RFC 2244
/// section 8). Takes no memory.
#[tactic(auto, unfolding(crate::specs::Reading::count_of, crate::specs::Reading::is_count))]
pub fn count_of(digits: &[u8]) -> Option<u32>
    ensures { result ≡ count_of digits.now }
{
    if digits.is_empty() || digits.len() > DIGITS_LIMIT {
        return None;
    }
    let mut count: u64 = 0;
    for digit in digits {
        count = 10 * count + u64::from(digit.saturating_sub(b'0'));
        if count > COUNT_LIMIT {
            return None;
        }
    }
    Some(count as u32)
}

/// Whether the client waits, by what closes the mark.
#[tactic(auto, unfolding(crate::specs::Reading::closing_of))]
fn closing_of(text: &[u8]) -> Option<bool>
    ensures { result ≡ closing_of text.now }
{
    match text {
        b"}" => Some(true),
        b"+}" => Some(false),
        _ => None,
    }
}

/// The literal mark that the text is, up to the end of its part.
#[tactic(auto, unfolding(crate::specs::Reading::mark_of))]
pub(crate) fn mark_of(text: &[u8]) -> Option<Announced>
    ensures { result ≡ mark_of text.now }
{
    let (first, rest) = text.split_first()?;
    if *first != b'{' {
        return None;
    }
    let (digits, closing) = rest.split_at(digits_len(rest));
    let count = count_of(digits)?;
    let waits = closing_of(closing)?;
    Some(Announced { count, waits })
}
