//! `Moment`: when a change was made, in microseconds.
ghost use Rattle.std.specs.Prelude.{◌≡◌, ◌↔◌, IsSome, IfSome};
ghost use Rattle.acap_entries.specs.Moments.{IsMoment, moment_after, first_moment};

use acap_ordmap::{Copying, Memory};
use std::marker::Model;

/// A count of microseconds from the start of 1970 in UTC, within the years 0000 to 9999: what `modtime` says (RFC 2244 section 3.1.1).
#[derive(Clone, Copy, PartialEq, Eq, PartialOrd, Ord)]
pub struct Moment {
    micros: i64,
}

impl Model for Moment {
    ghost use Rattle.std.specs.Prelude.{ℤ};
    ghost use Rattle.acap_entries.specs.Moments.{IsMoment};

    ghost Value = { ℤ };

    ghost view = { λ m. m.micros };

    ghost invariant = { λ m. IsMoment m.micros };

    ghost inverse = { λ z. record { micros = z } };
}

impl Moment {
    /// The first microsecond of the year 0000.
    const START: i64 = -62_167_219_200_000_000;

    /// The last microsecond of the year 9999.
    const END: i64 = 253_402_300_799_999_999;

    /// The moment of a count of microseconds from 1970: `None` exactly outside the years 0000 to 9999.
    pub fn new(micros: i64) -> Option<Moment>
        ensures valid { IsSome result ↔ IsMoment micros }
        ensures value { IfSome result (λ moment. moment ≡ micros) }
    {
        if matches!(micros, Moment::START..=Moment::END) {
            Some(Moment { micros })
        } else {
            None
        }
    }

    /// The first of all moments.
    pub fn first() -> Moment
        ensures { result ≡ first_moment }
    {
        Moment {
            micros: Moment::START,
        }
    }

    /// The count of microseconds from 1970.
    pub fn micros(self) -> i64
        ensures value { result ≡ self }
        ensures bound { IsMoment self }
    {
        self.micros
    }

    /// The moment of a change after this one, made when the clock shows `now`: the greater of the clock
    /// and the next microsecond, and `None` exactly where this is the last moment.
    pub fn after(self, now: Moment) -> Option<Moment>
        ensures { result ≡ moment_after self now }
    {
        if self.micros == Moment::END {
            None
        } else if self.micros < now.micros {
            Some(now)
        } else {
            Some(Moment {
                micros: self.micros + 1,
            })
        }
    }
}

impl Copying for Moment {
    fn copy(&self) -> Result<Moment, Memory> {
        Ok(*self)
    }
}
