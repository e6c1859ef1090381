//! `Seat`: the number of a session's place at the machine.
ghost use Rattle.std.specs.Prelude.{◌≡◌, ◌<◌, ◌↔◌, IsSome, IfSome};

use acap_ordmap::{Copying, Memory};
use std::marker::Model;

/// The place of a session at the server: a number from 0 to 63.
#[derive(Clone, Copy, PartialEq, Eq, PartialOrd, Ord)]
pub struct Seat {
    number: u8,
}

impl Model for Seat {
    ghost use Rattle.std.specs.Prelude.{ℕ, ◌<◌};

    ghost Value = { ℕ };

    ghost view = { λ s. s.number };

    ghost invariant = { λ s. s.number < 64 };

    ghost inverse = { λ n. record { number = n } };
}

impl Seat {
    /// The seat with that number: `None` exactly from 64 on.
    pub fn new(number: u8) -> Option<Seat>
        ensures valid { IsSome result ↔ (number < 64) }
        ensures value { IfSome result (λ seat. seat ≡ number) }
    {
        if number < 64 {
            Some(Seat { number })
        } else {
            None
        }
    }

    /// The number, from 0 to 63.
    pub fn number(self) -> u8
        ensures value { result ≡ self }
        ensures bound { self < 64 }
    {
        self.number
    }
}

impl Copying for Seat {
    fn copy(&self) -> Result<Seat, Memory> {
        Ok(*self)
    }
}
