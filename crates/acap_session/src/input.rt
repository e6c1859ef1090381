//! `Input`: what a session or a script reads from.

ghost use Rattle.std.specs.Prelude.{◌≡◌, ℕ, List, Option, None, is_ok, option_map};
ghost use Rattle.std.specs.Io.{ReadsAtMost};
ghost use Rattle.std.specs.Io.KnownBytes.{ReadConsumes};

use std::io::Read;

/// A read failed.
#[derive(Clone, Copy, PartialEq, Eq)]
pub struct ReadFailed;

/// A reader that may report how often it was asked, and how often it failed.
pub trait Input {
    ghost use Rattle.acap_session.specs.Streams.{ReaderTold, after_read};

    // The octets that reads will give from here on, where they are known.
    ghost remaining: { Self → Option (List ℕ) } = { λ _. None };

    // How often it was asked and how often it failed, where it reports that.
    ghost told: { Self → Option ReaderTold } = { λ _. None };

    /// Reads octets into the beginning of a buffer, and says how many: 0 at the end, or where there is no room.
    fn read_front(&mut self, buf: &mut [u8]) -> Result<usize, ReadFailed>
        ensures bound { ReadsAtMost result buf.new }
        ensures bytes { ReadConsumes (remaining self.old) (remaining self.new) result buf.new }
        ensures told { told self.new ≡ option_map (after_read (is_ok result)) (told self.old) };
}

/// What std reads from reports nothing of its failures.
impl<R: Read> Input for R {
    ghost remaining = { λ r. R.remaining r };

    fn read_front(&mut self, buf: &mut [u8]) -> Result<usize, ReadFailed> {
        match self.read(buf) {
            Ok(count) => Ok(count),
            Err(_) => Err(ReadFailed),
        }
    }
}
