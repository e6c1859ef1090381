//! `run_script`: a script between a reader and a writer.

ghost use Rattle.std.specs.Prelude.{◌≡◌, ◌+◌, ◌^◌, ◌<◌, ◌≤◌, length, IfErr, IfNone, IfOk, IfSome, OnErr};
ghost use Rattle.std.specs.Prelude.{OnOk};
ghost use Rattle.acap_session.specs.ScriptRun.{EndsAt, IsLine, IsUnread, RunsFrom, RunsLastTo};
ghost use Rattle.acap_session.specs.ScriptRun.{RunsLineTo, RunsPiece};
ghost use Rattle.acap_session.specs.ScriptRun.{ScriptReads, ScriptWrites};
ghost use Rattle.acap_session.specs.ScriptTaking.{IsReached};
ghost use Rattle.acap_session.specs.Streams.{Sends, SendsFront};
ghost use Rattle.acap_session.specs.declared.script_fault.ScriptFault.TheVariants as faults;

use crate::input::Input;
use crate::output::{Output, send_all};
use crate::script::{Script, ScriptProgress};
use crate::script_doing::{begin, do_text};
use crate::script_fault::ScriptFault;
use acap_entries::{Memory, Steps};
use acap_script::LineFault;
use std::alloc::Global;
use std::sync::ledger::Ledger;

/// The reads after which a script ends as if the reader had failed.
const READS: u32 = 1_000_000_000;

// Where the first LF stands.
fn end_of(text: &[u8]) -> Option<usize>
    ensures some { IfSome result (EndsAt text.now) }
    ensures none { IfNone result (IsLine text.now) }
{
    for place in 0..text.len() {
        if text[place] == b'\n' {
            return Some(place);
        }
    }
    None
}

// Writes all that is to be written, so that whoever waits for it has it.
fn send<W: Output>(writer: &mut W, out: &[u8]) -> Result<(), ScriptFault>
    ensures sent { OnOk result (Sends W.contents writer.old writer.new out.now) }
    ensures front { OnErr result (SendsFront (W.contents writer.old) (W.contents writer.new) out.now) }
    ensures fault { IfErr result (λ fault. fault ≡ faults.Write) }
    ensures writes { ScriptWrites (W.told writer.old) (W.told writer.new) result }
{
    match send_all(writer, out) {
        Ok(()) => Ok(()),
        Err(_) => Err(ScriptFault::Write),
    }
}

// Does the line with that number, and writes what it says.
fn run_line<W: Output, L: Ledger>(
    alloc: Global,
    script: &mut Script,
    text: &[u8],
    number: u64,
    writer: &mut W,
    steps: &mut Steps<L>,
) -> Result<(), ScriptFault>
    requires { IsReached script.old }
    ensures ran { RunsLineTo text.now number script.old script.new W.contents writer.old writer.new result }
    ensures writes { ScriptWrites (W.told writer.old) (W.told writer.new) result }
{
    match do_text(alloc, script, text, steps) {
        Ok(out) => send(writer, out.as_slice()),
        Err(LineFault::Wrong) => Err(ScriptFault::Line(number)),
        Err(LineFault::Memory) => Err(ScriptFault::Memory),
    }
}

// Does the lines that a piece ends, the first of which begins with what is held, and holds what stands after them.
fn run_lines<W: Output, L: Ledger>(
    alloc: Global,
    progress: &mut ScriptProgress,
    piece: &[u8],
    writer: &mut W,
    steps: &mut Steps<L>,
) -> Result<(), ScriptFault>
    requires reached { IsReached progress.old.script }
    requires line { IsLine progress.old.held.items }
    requires count { progress.old.number + length piece.now < 2 ^ 64 }
    ensures ran { RunsPiece piece.now progress.old progress.new W.contents writer.old writer.new result }
    ensures count { OnOk result (progress.new.number ≤ progress.old.number + length piece.now) }
    ensures writes { ScriptWrites (W.told writer.old) (W.told writer.new) result }
{
    let mut rest = piece;
    'lines: while let Some(place) = end_of(rest) {
        let (front, _) = rest.split_at(place);
        let (_, behind) = rest.split_at(place + 1);
        let Ok(()) = progress.held.extend_from_slice(front) else {
            return Err(ScriptFault::Memory);
        };
        progress.number += 1;
        run_line(
            alloc,
            &mut progress.script,
            progress.held.as_slice(),
            progress.number,
            writer,
            steps,
        )?;
        progress.held.clear();
        rest = behind;
    }
    let Ok(()) = progress.held.extend_from_slice(rest) else {
        return Err(ScriptFault::Memory);
    };
    Ok(())
}

// Does the last line, which has no LF, if there is one.
fn run_last<W: Output, L: Ledger>(
    alloc: Global,
    script: &mut Script,
    text: &[u8],
    number: u64,
    writer: &mut W,
    steps: &mut Steps<L>,
) -> Result<(), ScriptFault>
    requires { IsReached script.old }
    ensures ran { RunsLastTo text.now number script.old script.new W.contents writer.old writer.new result }
    ensures writes { ScriptWrites (W.told writer.old) (W.told writer.new) result }
{
    if text.is_empty() {
        return Ok(());
    }
    run_line(alloc, script, text, number, writer, steps)
}

// A script of which nothing was read.
fn begin_reading(alloc: Global) -> Result<ScriptProgress, Memory>
    ensures { IfOk result IsUnread }
{
    let script = begin(alloc)?;
    Ok(ScriptProgress {
        script,
        held: Vec::new(alloc),
        number: 0,
    })
}

// Does the lines of all that is read.
fn run_all<R: Input, W: Output, L: Ledger>(
    alloc: Global,
    progress: &mut ScriptProgress,
    reader: &mut R,
    writer: &mut W,
    steps: &mut Steps<L>,
) -> Result<(), ScriptFault>
    requires { IsUnread progress.old }
    ensures runs { RunsFrom R.remaining reader.old reader.new W.contents writer.old writer.new result }
    ensures reads { ScriptReads (R.told reader.old) (R.told reader.new) result }
    ensures writes { ScriptWrites (W.told writer.old) (W.told writer.new) result }
{
    let mut buffer = [0u8; 4096];
    'reads: for time in 0..READS {
        let Ok(count) = reader.read_front(&mut buffer) else {
            return Err(ScriptFault::Read);
        };
        if count == 0 {
            return run_last(
                alloc,
                &mut progress.script,
                progress.held.as_slice(),
                progress.number + 1,
                writer,
                steps,
            );
        }
        let piece = &buffer[..count];
        run_lines(alloc, progress, piece, writer, steps)?;
    }
    Err(ScriptFault::Read)
}

/// Runs the script that is read, over a world of its own, and writes what its sessions say: what a line says is written
/// before the next line is read. Where the reader fails, or has given 1,000,000,000 times, the lines that had ended by then
/// are done; where a line is wrong, those before it. Where no event is refused memory, what it writes is a function of what
/// it reads (`laws::script_law`). After a fault of the writer or of memory a prefix of the lines is done; what they say is
/// written where memory was refused, and a prefix of it where the writer failed. Each entry that a search looks at counts as
/// a step.
pub fn run_script<R: Input, W: Output, L: Ledger>(
    alloc: Global,
    reader: &mut R,
    writer: &mut W,
    steps: &mut Steps<L>,
) -> Result<(), ScriptFault>
    ensures runs { RunsFrom R.remaining reader.old reader.new W.contents writer.old writer.new result }
    ensures reads { ScriptReads (R.told reader.old) (R.told reader.new) result }
    ensures writes { ScriptWrites (W.told writer.old) (W.told writer.new) result }
{
    let mut progress = begin_reading(alloc)?;
    run_all(alloc, &mut progress, reader, writer, steps)
}
