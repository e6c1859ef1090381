//! Escapes octets that aren't printable, as in `\x0a`.

ghost use Rattle.std.specs.Prelude.{◌≡◌, ◌<◌, ◌++◌, OnOk, flat_map};
ghost use Rattle.acap_shell.specs.Escapes.{columns_by, escape, escape_column};
ghost use Rattle.acap_shell.specs.Escapes.{hex_digit, is_plain, printed_by, printed_value};

use crate::form::Form;
use acap_entries::Memory;

/// Whether an octet is printed as it is: printable ASCII but the backslash.
fn is_plain(c: u8) -> bool
    ensures { result ≡ is_plain c }
{
    (b' '..=b'~').contains(&c) && c != b'\\'
}

/// A hex digit, in lower case.
fn hex_digit(n: u8) -> u8
    requires { n < 16 }
    ensures { result ≡ hex_digit n }
{
    if n < 10 { b'0' + n } else { b'a' + (n - 10) }
}

/// Adds an octet as it is printed.
pub(crate) fn escape(out: &mut Vec<u8>, c: u8) -> Result<(), Memory>
    ensures { OnOk result (out.new.items ≡ out.old.items ++ escape c) }
{
    if is_plain(c) {
        out.push(c)?;
        return Ok(());
    }
    let code = [b'\\', b'x', hex_digit(c / 16), hex_digit(c % 16)];
    out.extend_from_slice(&code)?;
    Ok(())
}

/// Adds octets with those that aren't printable escaped.
fn escape_all(out: &mut Vec<u8>, octets: &[u8]) -> Result<(), Memory>
    ensures { OnOk result (out.new.items ≡ out.old.items ++ printed_value octets.now) }
{
    for c in octets {
        escape(out, *c)?;
    }
    Ok(())
}

/// Adds octets as they are printed. Fails only for want of memory, and then some were added.
pub fn print_octets(out: &mut Vec<u8>, form: Form, octets: &[u8]) -> Result<(), Memory>
    ensures { OnOk result (out.new.items ≡ out.old.items ++ printed_by form octets.now) }
{
    match form {
        Form::Escaped => escape_all(out, octets),
        Form::Raw => {
            out.extend_from_slice(octets)?;
            Ok(())
        }
    }
}

/// Adds an octet as it is printed, a TAB as it is.
fn escape_column(out: &mut Vec<u8>, c: u8) -> Result<(), Memory>
    ensures { OnOk result (out.new.items ≡ out.old.items ++ escape_column c) }
{
    if c == b'\t' {
        out.push(c)?;
        return Ok(());
    }
    escape(out, c)
}

/// Adds octets as they are printed, TABs as they are. Fails only for want of memory, and then some were added.
pub(crate) fn print_columns(out: &mut Vec<u8>, form: Form, octets: &[u8]) -> Result<(), Memory>
    ensures { OnOk result (out.new.items ≡ out.old.items ++ columns_by form octets.now) }
{
    match form {
        Form::Escaped => escape_columns(out, octets),
        Form::Raw => {
            out.extend_from_slice(octets)?;
            Ok(())
        }
    }
}

/// Adds octets with those that aren't printable escaped, but for TABs.
fn escape_columns(out: &mut Vec<u8>, octets: &[u8]) -> Result<(), Memory>
    ensures { OnOk result (out.new.items ≡ out.old.items ++ flat_map escape_column octets.now) }
{
    for c in octets {
        escape_column(out, *c)?;
    }
    Ok(())
}
