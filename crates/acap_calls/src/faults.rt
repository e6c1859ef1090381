//! Prints the usage line, or the line of a fault, on standard error.

ghost use Rattle.acap_calls.specs.Faults.{line_of, usage};
ghost use Rattle.acap_calls.specs.Printing.{PrintsTo, SendsTo};
ghost use Rattle.acap_calls.specs.declared.fault.Fault.TheVariants as faults;

use crate::fault::Fault;
use acap_session::{Output, WriteFailed, send_all};
use itoa::Buffer;

/// The line that a call with no or wrong arguments is answered by.
const USAGE: &[u8] = b"usage: acapd pipe USER | script | serve FILE\n";

/// The status of a call with no or wrong arguments.
const USAGE_STATUS: u8 = 2;

/// The status of a fault.
const FAULT_STATUS: u8 = 1;

// Writes a line.
fn write<W: Output>(out: &mut W, line: &[u8]) -> Result<(), WriteFailed>
    ensures { SendsTo W.contents W.told line.now out.old out.new result }
{
    send_all(out, line)
}

// Writes the line of a wrong line of a script.
fn write_number<W: Output>(out: &mut W, number: u64) -> Result<(), WriteFailed>
    ensures { SendsTo W.contents W.told (line_of (faults.Line number)) out.old out.new result }
{
    let mut digits = Buffer::new();
    write(out, b"acapd: bad script line ")?;
    write(out, digits.format(number).as_bytes())?;
    write(out, b"\n")
}

// Writes the line of a fault.
fn write_line<W: Output>(fault: Fault, out: &mut W) -> Result<(), WriteFailed>
    ensures { SendsTo W.contents W.told (line_of fault) out.old out.new result }
{
    match fault {
        Fault::Read => write(out, b"acapd: cannot read\n"),
        Fault::Write => write(out, b"acapd: cannot write\n"),
        Fault::Memory => write(out, b"acapd: no memory\n"),
        Fault::Line(number) => write_number(out, number),
        Fault::Settings => write(out, b"acapd: bad settings\n"),
        Fault::Listen => write(out, b"acapd: cannot listen\n"),
        Fault::Unequal => write(out, b"acapd: history unequal\n"),
    }
}

/// Answers a call with no or wrong arguments: prints the usage line and nothing else, for status 2. Fails only
/// where the writer fails.
pub(crate) fn refuse<W: Output>(out: &mut W) -> Result<u8, WriteFailed>
    ensures { PrintsTo W.contents W.told usage 2 out.old out.new result }
{
    write(out, USAGE)?;
    Ok(USAGE_STATUS)
}

/// Reports a fault: prints its line and nothing else, for status 1. Fails only where the writer fails.
pub(crate) fn report<W: Output>(fault: Fault, out: &mut W) -> Result<u8, WriteFailed>
    ensures { PrintsTo W.contents W.told (line_of fault) 1 out.old out.new result }
{
    write_line(fault, out)?;
    Ok(FAULT_STATUS)
}
