//! Octets that pass between a terminal and a server, whose lines end in CR LF (RFC 2244 section 2.2).

ghost use Rattle.std.specs.Prelude.{◌≡◌, ◌++◌, OnOk, flat_map};
ghost use Rattle.acap_shell.specs.Streams.{printed, printed_stream, sent, sent_lines};

use crate::escapes::escape;
use crate::form::Form;
use acap_entries::Memory;

/// Adds an octet of a line as it is sent.
fn send(out: &mut Vec<u8>, c: u8) -> Result<(), Memory>
    ensures { OnOk result (out.new.items ≡ out.old.items ++ sent c) }
{
    match c {
        b'\n' => out.extend_from_slice(b"\r\n")?,
        b'\r' => {}
        _ => out.push(c)?,
    }
    Ok(())
}

/// Adds lines as they are sent, each ended by CR LF, whether they end in LF or in CR LF. Fails only for want of memory.
pub fn sent_lines(out: &mut Vec<u8>, lines: &[u8]) -> Result<(), Memory>
    ensures { OnOk result (out.new.items ≡ out.old.items ++ sent_lines lines.now) }
{
    for c in lines {
        send(out, *c)?;
    }
    Ok(())
}

/// Adds an octet of a server's lines as it is printed.
fn print(out: &mut Vec<u8>, c: u8) -> Result<(), Memory>
    ensures { OnOk result (out.new.items ≡ out.old.items ++ printed c) }
{
    match c {
        b'\n' => out.push(c)?,
        b'\r' => {}
        _ => escape(out, c)?,
    }
    Ok(())
}

/// Adds lines of a server as they are printed, each ended by LF.
fn print_lines(out: &mut Vec<u8>, lines: &[u8]) -> Result<(), Memory>
    ensures { OnOk result (out.new.items ≡ out.old.items ++ flat_map printed lines.now) }
{
    for c in lines {
        print(out, *c)?;
    }
    Ok(())
}

/// Adds lines of a server as they are printed. Fails only for want of memory, and then some octets were added.
pub fn print_stream(out: &mut Vec<u8>, form: Form, lines: &[u8]) -> Result<(), Memory>
    ensures { OnOk result (out.new.items ≡ out.old.items ++ printed_stream form lines.now) }
{
    match form {
        Form::Escaped => print_lines(out, lines),
        Form::Raw => {
            out.extend_from_slice(lines)?;
            Ok(())
        }
    }
}
