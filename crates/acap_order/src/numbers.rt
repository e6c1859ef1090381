//! The order of leading numbers, by their digits: no number is made, so that any count of digits will do.
ghost use Rattle.std.specs.Prelude.{◌≡◌};
ghost use Rattle.std.specs.Char.{is_ascii_digit};
ghost use Rattle.std.specs.List.{take_while};
ghost use Rattle.acap_order.specs.Digits.{significant_digits};
ghost use Rattle.acap_order.specs.Ranks.{leading_number, number_cmp};

use std::cmp::Ordering;

/// The digits that a text begins with (RFC 2244 section 3.4: `i;ascii-numeric`).
pub fn leading_digits(text: &[u8]) -> &[u8]
    ensures { result.now ≡ take_while is_ascii_digit text.now }
{
    for (count, octet) in text.iter().enumerate() {
        if !octet.is_ascii_digit() {
            return &text[..count];
        }
    }
    text
}

/// Digits without the zeros that they begin with: of two numbers so written the longer is the greater.
pub fn significant(digits: &[u8]) -> &[u8]
    ensures { result.now ≡ significant_digits digits.now }
{
    let mut rest = digits;
    while let Some((b'0', after)) = rest.split_first() {
        rest = after;
    }
    rest
}

/// The order of the numbers that two texts begin with, no number being the last.
pub(crate) fn compare(a: &[u8], b: &[u8]) -> Ordering
    ensures { result ≡ number_cmp (leading_number a.now) (leading_number b.now) }
{
    let left = leading_digits(a);
    let right = leading_digits(b);
    match (left.is_empty(), right.is_empty()) {
        (true, true) => Ordering::Equal,
        (true, false) => Ordering::Greater,
        (false, true) => Ordering::Less,
        (false, false) => {
            let left = significant(left);
            let right = significant(right);
            left.len().cmp(&right.len()).then(left.cmp(&right))
        }
    }
}
