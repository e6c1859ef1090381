//! The octet count that announces a literal.

ghost use Rattle.std.specs.Prelude.{◌≡◌, ◌<◌, ◌≤◌, IfSome, IfNone};
ghost use Rattle.std.specs.List.{list_all};
ghost use Rattle.acap_lexer.specs.Octets.{is_digit as is_digit_octet};
ghost use Rattle.acap_grammar.specs.Lines.{value_of};
ghost use Rattle.acap_client.specs.Counting.{Counts};

use crate::octet_kinds::is_digit;

/// What the digits of a mark say.
#[derive(Clone, Copy, PartialEq, Eq)]
pub(crate) enum Count {
    /// They are no number.
    Nothing,
    /// The number is greater than it may be.
    TooLarge,
    /// The number.
    Is(u32),
}

pub(crate) fn all_digits(octets: &[u8]) -> bool
    ensures { result ≡ list_all is_digit_octet octets.now }
{
    octets.iter().all(|c| is_digit(*c))
}

/// The number that decimal digits stand for, however many they are, if it is at most this.
pub(crate) fn value_within(digits: &[u8], most: usize) -> Option<usize>
    ensures some { IfSome result (λ n. (n ≡ value_of digits.now) × (n ≤ most)) }
    ensures none { IfNone result (most < value_of digits.now) }
{
    let mut count: u128 = 0;
    for digit in digits {
        count = 10 * count + u128::from(digit.saturating_sub(b'0'));
        if count > most as u128 {
            return None;
        }
    }
    Some(count as usize)
}

/// What the digits of a mark say, where the number may be so great.
pub(crate) fn count_within(digits: &[u8], most: u32) -> Count
    ensures { Counts most digits.now result }
{
    if digits.is_empty() || !all_digits(digits) {
        return Count::Nothing;
    }
    match value_within(digits, most as usize) {
        Some(count) => Count::Is(count as u32),
        None => Count::TooLarge,
    }
}
