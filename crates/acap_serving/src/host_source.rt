//! `HostSource`: moments of the system's clock, and random nonces.
ghost use Rattle.std.specs.Prelude.{◌≡◌, None};
ghost use Rattle.acap_entries.specs.Moments.{IsMoment};
ghost use Rattle.acap_serving.specs.Devices.{silent_source};

use acap_entries::Moment;
use acap_task::Source;
use rand::rngs::StdRng;
use rand::{Rng, make_rng};
use std::io;
use std::random::RandomSource;
use std::time::{Clock, SystemTime, UNIX_EPOCH};

/// The last of all moments.
const LAST: i64 = 253_402_300_799_999_999;

/// Moments of the system's clock, and nonces of a generator of its own. No clause says what the system shows.
#[derive(Drop)]
pub struct HostSource<'a, R: Clock> {
    clock: &'a R,
    shown: Moment,
    nonces: StdRng,
}

// The moment of a count of microseconds from 1970, or the one that is nearest to it.
fn nearest(micros: i64) -> Moment
    ensures { IsMoment micros → result ≡ micros }
{
    match Moment::new(micros) {
        Some(moment) => moment,
        None if micros < 0 => Moment::first(),
        None => Moment::new(LAST).unwrap(),
    }
}

// What the clock shows, in microseconds from 1970. `None` where it can't be read.
fn read<R: Clock>(clock: &R) -> Option<i64> {
    let now = SystemTime::now(clock).ok()?;
    match now.duration_since(UNIX_EPOCH) {
        Ok(since) => Some(i64::try_from(since.as_micros()).unwrap_or(i64::MAX)),
        Err(before) => {
            let micros = i64::try_from(before.duration().as_micros()).unwrap_or(i64::MAX);
            Some(0 - micros)
        }
    }
}

impl<'a, R: Clock> HostSource<'a, R> {
    /// A source over that clock. Fails where the system gives no random octets to begin with.
    pub fn new<A: RandomSource>(clock: &'a R, random: &A) -> io::Result<HostSource<'a, R>> {
        let nonces = make_rng(random)?;
        Ok(HostSource {
            clock,
            shown: Moment::new(0).unwrap(),
            nonces,
        })
    }
}

impl<R: Clock> Source for HostSource<'_, R> {
    ghost told = { λ _. silent_source };

    fn moment(&mut self) -> Moment {
        if let Some(micros) = read(self.clock) {
            self.shown = nearest(micros);
        }
        self.shown
    }

    fn nonce(&mut self) -> u64 {
        self.nonces.next_u64()
    }
}
