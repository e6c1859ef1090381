//! Reads the numbers of a script: seats, nonces and moments.

ghost use Rattle.std.specs.Prelude.{◌≡◌, ◌≤◌, IfSome};
ghost use Rattle.std.specs.List.{list_all};
ghost use Rattle.acap_script.specs.Lines as rule;

use acap_entries::{Moment, Seat};

/// The greatest number of a seat.
const LAST_SEAT: u64 = 63;

/// The end of the year 9999, in microseconds from 1970.
const LAST_MOMENT: u64 = 253_402_300_799_999_999;

fn is_digit(octet: u8) -> bool
    ensures { result ≡ rule.is_digit octet }
{
    octet >= b'0' && octet <= b'9'
}

// Whether all of them are digits.
fn all_digits(text: &[u8]) -> bool
    ensures { result ≡ list_all rule.is_digit text.now }
{
    text.iter().all(|octet| is_digit(*octet))
}

// Whether there are digits, and nothing else.
fn are_digits(text: &[u8]) -> bool
    ensures { result ≡ rule.are_digits text.now }
{
    !text.is_empty() && all_digits(text)
}

// The number that digits write, up to a greatest.
fn value_of(digits: &[u8], most: u64) -> Option<u64>
    ensures value { result ≡ rule.at_most most (rule.number_of digits.now) }
    ensures within { IfSome result (λ number. number ≤ most) }
{
    let mut number: u64 = 0;
    for digit in digits {
        let next = 10 * u128::from(number) + u128::from(digit.saturating_sub(b'0'));
        if next > u128::from(most) {
            return None;
        }
        number = next as u64;
    }
    Some(number)
}

// The number that a text writes in decimal digits, up to a greatest.
fn number_in(text: &[u8], most: u64) -> Option<u64>
    ensures value { result ≡ rule.number_in most text.now }
    ensures within { IfSome result (λ number. number ≤ most) }
{
    if are_digits(text) {
        value_of(text, most)
    } else {
        None
    }
}

/// A seat.
pub(crate) fn seat_in(text: &[u8]) -> Option<Seat>
    ensures { result ≡ rule.seat_in text.now }
{
    let number = number_in(text, LAST_SEAT)?;
    Seat::new(number as u8)
}

/// A nonce.
pub(crate) fn nonce_in(text: &[u8]) -> Option<u64>
    ensures { result ≡ rule.nonce_in text.now }
{
    number_in(text, u64::MAX)
}

/// A moment from the start of 1970 on.
pub(crate) fn moment_in(text: &[u8]) -> Option<Moment>
    ensures { result ≡ rule.moment_in text.now }
{
    let number = number_in(text, LAST_MOMENT)?;
    Moment::new(number as i64)
}
