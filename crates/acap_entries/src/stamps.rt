//! The printed form of a moment: its date and time (RFC 2244 sections 3.1.1 and 8).
ghost use Rattle.std.specs.Prelude.{◌≡◌, ◌+◌, ◌*◌, ◌<◌, pos, ◌+ℤ◌};
ghost use Rattle.jiff_core.specs.Calendar.{IsBetween, day_count, IsCivilDate};
ghost use Rattle.acap_entries.specs.Moments.{first_moment, IsMoment};
ghost use Rattle.acap_entries.specs.Stamp as calendar;

use crate::moment::Moment;
use jiff_core::civil::Date;

// The microseconds of a day.
const DAY: u64 = 86_400_000_000;

// The days from 1 January of the year 0000 to 1 January 1970, from which the calendar counts.
const DAYS_TO_1970: i64 = 719_528;

/// A date and a time of day in UTC, of the proleptic Gregorian calendar.
#[derive(Clone, Copy, PartialEq, Eq)]
pub struct Civil {
    /// The year, from 0 to 9999.
    pub year: u16,
    /// The month, from 1 to 12.
    pub month: u8,
    /// The day of the month, from 1.
    pub day: u8,
    /// The hour, below 24.
    pub hour: u8,
    /// The minute, below 60.
    pub minute: u8,
    /// The second, below 60.
    pub second: u8,
    /// The microsecond, below 1,000,000.
    pub micros: u32,
}

/// The twenty digits of a moment in UTC: `YYYYMMDDHHMMSS` and the microseconds. Takes no memory.
pub fn stamp(moment: Moment) -> [u8; 20]
    ensures meaning { calendar.IsStamp moment result }
    ensures value { result ≡ calendar.stamp_of moment }
{
    digits(civil_of(moment))
}

/// The date and time of a moment in UTC. Takes no memory.
pub fn civil_of(moment: Moment) -> Civil
    ensures valid { calendar.IsCivil result }
    ensures begins { calendar.moment_of result ≡ moment }
    ensures range { IsMoment moment }
{
    let since = since_first(moment);
    let date = date_after((since / DAY) as u32);
    let clock = since % DAY;
    Civil {
        year: date.year as u16,
        month: date.month,
        day: date.day,
        hour: (clock / 3_600_000_000) as u8,
        minute: (clock / 60_000_000 % 60) as u8,
        second: (clock / 1_000_000 % 60) as u8,
        micros: (clock % 1_000_000) as u32,
    }
}

// The microseconds from the first moment on. The years 0000 to 9999 have 25 times the 146,097 days of 400 years.
fn since_first(moment: Moment) -> u64
    ensures value { moment ≡ first_moment +ℤ pos result }
    ensures bound { result < 3_652_425 * 86_400_000_000 }
    ensures range { IsMoment moment }
{
    (moment.micros() - Moment::first().micros()) as u64
}

// The date that many days after 1 January of the year 0000.
fn date_after(days: u32) -> Date
    requires { days < 3_652_425 }
    ensures value { day_count result.year result.month result.day ≡ day_count (pos 0) 1 1 + days }
    ensures date { IsCivilDate result.year result.month result.day }
    ensures year { IsBetween (pos 0) (pos 9999) result.year }
{
    Date::from_unix_epoch_day(days as i64 - DAYS_TO_1970).unwrap()
}

// The decimal digit of a number below ten.
fn digit(number: u32) -> u8
    requires { number < 10 }
    ensures { result ≡ 48 + number }
{
    b'0' + number as u8
}

// The digits of a date and time.
fn digits(civil: Civil) -> [u8; 20]
    requires { calendar.IsCivil civil }
    ensures { result ≡ calendar.text_of civil }
{
    let year = civil.year as u32;
    let month = civil.month as u32;
    let day = civil.day as u32;
    let hour = civil.hour as u32;
    let minute = civil.minute as u32;
    let second = civil.second as u32;
    let micros = civil.micros;
    [
        digit(year / 100 / 10),
        digit(year / 100 % 10),
        digit(year % 100 / 10),
        digit(year % 100 % 10),
        digit(month / 10),
        digit(month % 10),
        digit(day / 10),
        digit(day % 10),
        digit(hour / 10),
        digit(hour % 10),
        digit(minute / 10),
        digit(minute % 10),
        digit(second / 10),
        digit(second % 10),
        digit(micros / 10_000 / 10),
        digit(micros / 10_000 % 10),
        digit(micros % 10_000 / 100 / 10),
        digit(micros % 10_000 / 100 % 10),
        digit(micros % 10_000 % 100 / 10),
        digit(micros % 10_000 % 100 % 10),
    ]
}
