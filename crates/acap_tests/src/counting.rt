//! A reader and a writer that are no `Read` and no `Write`, and count how often they were asked and how often
//! they failed.

use acap_session::{Input, Output, ReadFailed, WriteFailed};

/// The octets that are read or written at a time.
const PIECE: usize = 7;

/// A reader of octets in memory, whose call of one number fails.
#[derive(Drop)]
pub(crate) struct Source<'a> {
    /// What it will give.
    pub(crate) left: &'a [u8],
    /// The call that fails, counted from 1.
    pub(crate) fails_at: u64,
    /// How often it was asked.
    pub(crate) reads: u64,
    /// How often it failed.
    pub(crate) failures: u64,
}

impl<'a> Input for Source<'a> {
    ghost use Rattle.std.specs.Prelude.{Some};

    ghost told = { λ s. Some (record { reads = s.reads; failures = s.failures }) };

    fn read_front(&mut self, buf: &mut [u8]) -> Result<usize, ReadFailed> {
        self.reads = self.reads.saturating_add(1);
        if self.reads == self.fails_at {
            self.failures = self.failures.saturating_add(1);
            return Err(ReadFailed);
        }
        let count = self.left.len().min(PIECE).min(buf.len());
        let (given, left) = self.left.split_at(count);
        buf[..count].copy_from_slice(given);
        self.left = left;
        Ok(count)
    }
}

/// A writer into memory, whose call of one number fails.
#[derive(Drop)]
pub(crate) struct Sink {
    /// What it took.
    pub(crate) text: Vec<u8>,
    /// The call that fails, counted from 1.
    pub(crate) fails_at: u64,
    /// How often it was asked.
    pub(crate) writes: u64,
    /// How often it failed.
    pub(crate) failures: u64,
}

impl Output for Sink {
    ghost use Rattle.std.specs.Prelude.{Some};

    ghost told = { λ s. Some (record { writes = s.writes; failures = s.failures }) };

    fn write_prefix(&mut self, octets: &[u8]) -> Result<usize, WriteFailed> {
        let (taken, _) = octets.split_at(octets.len().min(PIECE));
        self.writes = self.writes.saturating_add(1);
        if self.writes == self.fails_at || self.text.extend_from_slice(taken).is_err() {
            self.failures = self.failures.saturating_add(1);
            return Err(WriteFailed);
        }
        Ok(taken.len())
    }

    fn hand_on(&mut self) -> Result<(), WriteFailed> {
        self.writes = self.writes.saturating_add(1);
        if self.writes == self.fails_at {
            self.failures = self.failures.saturating_add(1);
            return Err(WriteFailed);
        }
        Ok(())
    }
}
