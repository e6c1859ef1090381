//! The times that clients send (RFC 2244 section 8). No call here takes memory.
ghost use Rattle.std.specs.Prelude.{◌≡◌, ◌+◌, ◌-◌, ◌≤◌, ◌<◌, true, pos, length};
ghost use Rattle.std.specs.List.{list_all};
ghost use Rattle.std.specs.Char.{is_ascii_digit};
ghost use Rattle.jiff_core.specs.Calendar.{days_in_month as month_length};
ghost use Rattle.acap_entries.specs.Stamp as calendar;
ghost use Rattle.acap_entries.specs.Times as time;

use crate::moment::Moment;
use crate::stamps::Civil;
use jiff_core::civil::{Date, days_in_month};

// The microseconds of a day.
const DAY: u64 = 86_400_000_000;

/// The moment that a client's text stands for: `None` exactly where it is no time (RFC 2244 section 8).
#[tactic(auto, unfolding(crate::specs::Times::time_of, crate::specs::Times::is_time))]
pub fn read_time(text: &[u8]) -> Option<Moment>
    ensures { result ≡ time.time_of text.now }
{
    if text.len() < 14 || !are_digits(text) {
        return None;
    }
    let civil = settle(read_civil(&twenty(text)));
    if is_civil(civil) {
        Some(moment_at(civil))
    } else {
        None
    }
}

// Whether each octet is a decimal digit.
fn are_digits(text: &[u8]) -> bool
    ensures { result ≡ list_all is_ascii_digit text.now }
{
    text.iter().all(|octet| octet.is_ascii_digit())
}

// The first twenty digits, with zeros for those that are not there.
fn twenty(text: &[u8]) -> [u8; 20]
    requires { 14 ≤ length text.now }
    ensures { result ≡ time.twenty text.now }
{
    let mut digits = [b'0'; 20];
    let count = text.len().min(20);
    digits[..count].copy_from_slice(&text[..count]);
    digits
}

// The number that a digit writes.
fn digit(octet: u8) -> u32
    requires { is_ascii_digit octet ≡ true }
    ensures value { result ≡ octet - 48 }
    ensures bound { result < 10 }
{
    (octet - b'0') as u32
}

// The number that two digits write.
fn two(digits: &[u8; 20], from: usize) -> u32
    requires digits { list_all is_ascii_digit digits.now ≡ true }
    requires within { from + 2 ≤ 20 }
    ensures value { result ≡ time.field from 2 digits.now }
    ensures bound { result < 100 }
{
    10 * digit(digits[from]) + digit(digits[from + 1])
}

// The number that four digits write.
fn four(digits: &[u8; 20], from: usize) -> u32
    requires digits { list_all is_ascii_digit digits.now ≡ true }
    requires within { from + 4 ≤ 20 }
    ensures value { result ≡ time.field from 4 digits.now }
    ensures bound { result < 10_000 }
{
    100 * two(digits, from) + two(digits, from + 2)
}

// The number that six digits write.
fn six(digits: &[u8; 20], from: usize) -> u32
    requires digits { list_all is_ascii_digit digits.now ≡ true }
    requires within { from + 6 ≤ 20 }
    ensures value { result ≡ time.field from 6 digits.now }
    ensures bound { result < 1_000_000 }
{
    100 * four(digits, from) + two(digits, from + 4)
}

// The date and time of day that twenty digits write.
fn read_civil(digits: &[u8; 20]) -> Civil
    requires { list_all is_ascii_digit digits.now ≡ true }
    ensures { result ≡ time.civil_of digits.now }
{
    Civil {
        year: four(digits, 0) as u16,
        month: two(digits, 4) as u8,
        day: two(digits, 6) as u8,
        hour: two(digits, 8) as u8,
        minute: two(digits, 10) as u8,
        second: two(digits, 12) as u8,
        micros: six(digits, 14),
    }
}

// A leap second as the last microsecond of its minute, and any other time as it is.
fn settle(civil: Civil) -> Civil
    ensures { result ≡ time.without_leap civil }
{
    if civil.second == 60 {
        Civil {
            second: 59,
            micros: 999_999,
            ..civil
        }
    } else {
        civil
    }
}

// The last day of the month.
fn last_day(civil: Civil) -> u8
    requires { civil.year ≤ 9999 }
    ensures { result ≡ month_length (pos civil.year) civil.month }
{
    days_in_month(civil.year as i16, civil.month)
}

// Whether the calendar has the date and the day the time.
#[tactic(auto, unfolding(crate::specs::Times::is_civil))]
fn is_civil(civil: Civil) -> bool
    ensures { result ≡ time.is_civil civil }
{
    civil.year <= 9999
        && matches!(civil.month, 1..=12)
        && 1 <= civil.day
        && civil.day <= last_day(civil)
        && civil.hour < 24
        && civil.minute < 60
        && civil.second < 60
        && civil.micros < 1_000_000
}

// The days from 1 January of the year 0000 to the date: fewer than the 25 times 146,097 of 10,000 years.
fn days_of(civil: Civil) -> u64
    requires { calendar.IsCivil civil }
    ensures value { result ≡ calendar.days_of civil }
    ensures bound { result < 3_652_425 }
{
    let date = Date {
        year: civil.year as i16,
        month: civil.month,
        day: civil.day,
    };
    (date.days_since_min() - Date::ZERO.days_since_min()) as u64
}

// The microseconds from midnight to the time of day.
fn clock_of(civil: Civil) -> u64
    requires { calendar.IsCivil civil }
    ensures value { result ≡ calendar.clock_of civil }
    ensures bound { result < 86_400_000_000 }
{
    let minutes = civil.hour as u64 * 60 + civil.minute as u64;
    let seconds = minutes * 60 + civil.second as u64;
    seconds * 1_000_000 + civil.micros as u64
}

// The moment at which that date and time begin.
fn moment_at(civil: Civil) -> Moment
    requires { calendar.IsCivil civil }
    ensures { result ≡ calendar.moment_of civil }
{
    let since = days_of(civil) * DAY + clock_of(civil);
    Moment::new(Moment::first().micros() + since as i64).unwrap()
}
