//! Wires whose sessions wait for one another.
ghost use Rattle.std.specs.Prelude.{◌≡◌, ◌≤◌, ◌==◌, if◌then◌else◌, length};
ghost use Rattle.acap_task.specs.Told.{up};
ghost use Rattle.acap_serving.specs.Devices.{silent_wire};

use acap_entries::Moment;
use acap_task::{Source, Wire, WireFault, count_up};
use futures::task::{Context, Poll};
use std::sync::atomic::{AtomicBool, Ordering};
use std::thread;

/// The most times that a reader is polled, or looks, for another session.
const TIMES: u64 = 1_000_000;

/// A source of one moment and one nonce, which reports none.
#[derive(Drop)]
pub(crate) struct OneMoment;

impl Source for OneMoment {
    ghost use Rattle.std.specs.Prelude.{None};

    ghost told = { λ _. record { moments = None; nonces = None } };

    fn moment(&mut self) -> Moment {
        Moment::first()
    }

    fn nonce(&mut self) -> u64 {
        0
    }
}

/// Where a reader waits for the other session's flag, if anywhere.
#[derive(Clone, Copy, PartialEq, Eq)]
pub(crate) enum Stop {
    /// Nowhere.
    Nowhere,
    /// At this place of its text, from poll to poll: it isn't ready until the flag is set.
    At(usize),
    /// At this place of its text, within one poll: it looks again and again.
    Within(usize),
}

/// When a wire sets its own flag.
#[derive(Clone, Copy, PartialEq, Eq)]
pub(crate) enum Sign {
    /// When its reader first waits.
    Waiting,
    /// When it has written this.
    Written(&'static [u8]),
}

impl Sign {
    // Whether the flag is to be set after such an output.
    fn is_given(self, output: &[u8]) -> bool {
        match self {
            Sign::Waiting => false,
            Sign::Written(end) => output.ends_with(end),
        }
    }
}

/// A wire over a text. It reports none of its octets.
#[derive(Drop)]
pub(crate) struct WaitingWire<'a> {
    text: &'a [u8],
    stop: Stop,
    sign: Sign,
    mine: &'a AtomicBool,
    other: &'a AtomicBool,
    pub(crate) output: Vec<u8>,
    ended: bool,
    faults: u64,
    write_faults: u64,
    waits: u64,
}

impl<'a> WaitingWire<'a> {
    /// A wire that waits so, and sets its flag then. The flags are its own and that of the other session.
    pub(crate) fn new(
        text: &'a [u8],
        stop: Stop,
        sign: Sign,
        flags: (&'a AtomicBool, &'a AtomicBool),
        output: Vec<u8>,
    ) -> WaitingWire<'a>
        ensures { ⟦<WaitingWire<'a> as Wire>⟧.told result ≡ silent_wire }
    {
        let (mine, other) = flags;
        WaitingWire {
            text,
            stop,
            sign,
            mine,
            other,
            output,
            ended: false,
            faults: 0,
            write_faults: 0,
            waits: 0,
        }
    }

    // Reads up to the place where it stops, and says how many octets.
    fn take(&mut self, buffer: &mut [u8]) -> usize
        ensures count { result ≤ length buffer.new }
        ensures kept { (self.new.ended ≡ self.old.ended) × (self.new.faults ≡ self.old.faults)
            × (self.new.write_faults ≡ self.old.write_faults) × (self.new.waits ≡ self.old.waits) }
    {
        let most = match self.stop {
            Stop::At(place) | Stop::Within(place) => place,
            Stop::Nowhere => self.text.len(),
        };
        let count = most.min(self.text.len()).min(buffer.len());
        let (now, later) = self.text.split_at(count);
        buffer[..count].copy_from_slice(now);
        self.text = later;
        self.stop = match self.stop {
            Stop::At(place) => Stop::At(place - count),
            Stop::Within(place) => Stop::Within(place - count),
            Stop::Nowhere => Stop::Nowhere,
        };
        count
    }
}

// Whether a flag is set, looked at again and again while other threads run.
fn is_seen(flag: &AtomicBool) -> bool {
    for _ in 0..TIMES {
        if flag.load(Ordering::SeqCst) {
            return true;
        }
        thread::yield_now();
    }
    false
}

/// Whether a reader may go on.
#[derive(Clone, Copy)]
enum Gate {
    Open,
    Waits,
    Never,
}

// Whether a reader that has waited `waits` times may go on at one poll, while other threads run.
fn look(flag: &AtomicBool, waits: u64) -> Gate {
    if flag.load(Ordering::SeqCst) {
        return Gate::Open;
    }
    thread::yield_now();
    if waits < TIMES {
        Gate::Waits
    } else {
        Gate::Never
    }
}

impl WaitingWire<'_> {
    // Whether it may go on, after it has done what it does while it waits.
    fn gate(&mut self) -> Gate
        ensures kept { (self.new.ended ≡ self.old.ended) × (self.new.faults ≡ self.old.faults)
            × (self.new.write_faults ≡ self.old.write_faults) × (self.new.waits ≡ self.old.waits) }
    {
        if !matches!(self.stop, Stop::At(0) | Stop::Within(0)) {
            return Gate::Open;
        }
        if self.sign == Sign::Waiting {
            self.mine.store(true, Ordering::SeqCst);
        }
        let gate = match self.stop {
            Stop::Within(_) if is_seen(self.other) => Gate::Open,
            Stop::Within(_) => Gate::Never,
            Stop::At(_) | Stop::Nowhere => look(self.other, self.waits),
        };
        if matches!(gate, Gate::Open) {
            self.stop = Stop::Nowhere;
        }
        gate
    }
}

// How often a writer has failed, once it has taken `count` octets: one that takes none has failed.
fn faults_after(faults: u64, count: usize) -> u64
    ensures { result ≡ (if count == 0 then up faults else faults) }
{
    if count == 0 { count_up(faults) } else { faults }
}

impl Wire for WaitingWire<'_> {
    ghost told = { λ w. record silent_wire {
      ended = w.ended;
      read_faults = w.faults;
      write_faults = w.write_faults;
      read_waits = w.waits;
    } };

    fn poll_read(
        &mut self,
        cx: &mut Context<'_>,
        buffer: &mut [u8],
    ) -> Poll<Result<usize, WireFault>> {
        match self.gate() {
            Gate::Open => {
                let count = self.take(buffer);
                self.ended = self.ended | (count == 0);
                Poll::Ready(Ok(count))
            }
            Gate::Waits => {
                self.waits = count_up(self.waits);
                cx.yield_now()
            }
            Gate::Never => {
                self.faults = count_up(self.faults);
                Poll::Ready(Err(WireFault))
            }
        }
    }

    fn poll_write(
        &mut self,
        _cx: &mut Context<'_>,
        octets: &[u8],
    ) -> Poll<Result<usize, WireFault>> {
        if self.output.extend_from_slice(octets).is_err() {
            self.write_faults = count_up(self.write_faults);
            return Poll::Ready(Err(WireFault));
        }
        if self.sign.is_given(&self.output) {
            self.mine.store(true, Ordering::SeqCst);
        }
        self.write_faults = faults_after(self.write_faults, octets.len());
        Poll::Ready(Ok(octets.len()))
    }
}
