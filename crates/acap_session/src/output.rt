//! `Output`: what a session or a script writes to.

ghost use Rattle.std.specs.Prelude.{◌≡◌, ◌≤◌, ◌<◌, ℕ, List, Option, None, length, take, is_ok, option_map, IfOk, OnOk, OnErr};
ghost use Rattle.acap_session.specs.Streams.{HasEndedWrites, HasTaken, IfTold, Sends, SendsFront};
ghost use Rattle.std.specs.Io.KnownBytes.{Appends, Keeps};

use std::io::{ErrorKind, Write};

/// A write failed.
#[derive(Clone, Copy, PartialEq, Eq)]
pub struct WriteFailed;

/// A writer that may report how often it was asked, and how often it failed.
pub trait Output {
    ghost use Rattle.acap_session.specs.Streams.{WriterTold, after_write};

    // The octets that it has, where they are known.
    ghost contents: { Self → Option (List ℕ) } = { λ _. None };

    // How often it was asked and how often it failed, where it reports that.
    ghost told: { Self → Option WriterTold } = { λ _. None };

    /// Takes a prefix of octets, and says how many: 0 where it is to be asked again, as after an interruption. One
    /// that takes no more has failed.
    fn write_prefix(&mut self, octets: &[u8]) -> Result<usize, WriteFailed>
        requires { 0 < length octets.now }
        ensures sent { IfOk result (λ count.
            Appends (contents self.old) (contents self.new) (take count octets.now)) }
        ensures bound { IfOk result (λ count. count ≤ length octets.now) }
        ensures none { OnErr result (Keeps (contents self.old) (contents self.new)) }
        ensures told { told self.new ≡ option_map (after_write (is_ok result)) (told self.old) };

    /// Hands on what it took.
    fn hand_on(&mut self) -> Result<(), WriteFailed>
        ensures kept { Keeps (contents self.old) (contents self.new) }
        ensures told { told self.new ≡ option_map (after_write (is_ok result)) (told self.old) };
}

/// What std writes to reports nothing of its failures.
impl<W: Write> Output for W {
    ghost contents = { λ w. W.contents w };

    fn write_prefix(&mut self, octets: &[u8]) -> Result<usize, WriteFailed> {
        match self.write(octets) {
            Ok(0) => Err(WriteFailed),
            Ok(count) => Ok(count),
            Err(error) => {
                if error.kind() == ErrorKind::Interrupted {
                    return Ok(0);
                }
                Err(WriteFailed)
            }
        }
    }

    fn hand_on(&mut self) -> Result<(), WriteFailed> {
        match self.flush() {
            Ok(()) => Ok(()),
            Err(_) => Err(WriteFailed),
        }
    }
}

// Writes all octets.
fn write_all<W: Output>(writer: &mut W, octets: &[u8]) -> Result<(), WriteFailed>
    ensures sent { OnOk result (Sends W.contents writer.old writer.new octets.now) }
    ensures front { OnErr result (SendsFront (W.contents writer.old) (W.contents writer.new) octets.now) }
    ensures taken { OnOk result (IfTold HasTaken (W.told writer.old) (W.told writer.new)) }
    ensures failed { OnErr result (IfTold HasEndedWrites (W.told writer.old) (W.told writer.new)) }
{
    let mut rest = octets;
    'writes: for time in 0..u64::MAX {
        if rest.is_empty() {
            return Ok(());
        }
        let count = writer.write_prefix(rest)?;
        let (_, behind) = rest.split_at(count);
        rest = behind;
    }
    Err(WriteFailed)
}

/// Writes all octets, so that whoever waits for them has them. An interrupted write is tried again. Where it fails a prefix of
/// them was written, and the writer counts a failure, or was asked 2^64 - 1 times.
pub fn send_all<W: Output>(writer: &mut W, octets: &[u8]) -> Result<(), WriteFailed>
    ensures sent { OnOk result (Sends W.contents writer.old writer.new octets.now) }
    ensures front { OnErr result (SendsFront (W.contents writer.old) (W.contents writer.new) octets.now) }
    ensures taken { OnOk result (IfTold HasTaken (W.told writer.old) (W.told writer.new)) }
    ensures failed { OnErr result (IfTold HasEndedWrites (W.told writer.old) (W.told writer.new)) }
{
    write_all(writer, octets)?;
    writer.hand_on()
}
