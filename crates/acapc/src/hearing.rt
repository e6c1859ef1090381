//! Looks for refusals and for BYE in the server's lines, where octets are passed on.

use crate::failure::{Failure, Problem};
use acap_client::{Ending, Heard, Line, ReadFault, Reader, Response};
use acap_entries::Memory;
use acap_shell::{Form, print_name, print_octets};

/// Adds a line of a refusal: the tag of the command and the server's text, a TAB between them.
fn print_refusal(
    out: &mut Vec<u8>,
    form: Form,
    tag: Option<&[u8]>,
    text: &[u8],
) -> Result<(), Memory> {
    print_octets(out, form, tag.unwrap_or(b"*"))?;
    out.push(b'\t')?;
    print_name(out, form, text)
}

/// Adds a line for a refusal, if a response is one. Whether it is.
pub(crate) fn print_if_refused(
    out: &mut Vec<u8>,
    form: Form,
    response: &Response,
) -> Result<bool, Memory> {
    match response.line() {
        Some(Line::Completion(tag, Ending::Failed | Ending::Wrong, _, text)) => {
            print_refusal(out, form, tag, text)?;
            Ok(true)
        }
        Some(Line::Bye(_, text)) => {
            print_refusal(out, form, None, text)?;
            Ok(true)
        }
        _ => Ok(false),
    }
}

/// Adds a line for each refusal among the lines that have come. Whether there was one.
pub(crate) fn print_refusals(
    out: &mut Vec<u8>,
    reader: &mut Reader,
    form: Form,
) -> Result<bool, Failure> {
    let mut is_refused = false;
    for _ in 0..u64::MAX {
        match reader.next()? {
            Heard::More => break,
            Heard::Line(response) => {
                let refused = print_if_refused(out, form, &response);
                drop(response);
                is_refused |= refused?;
            }
            Heard::Fault(_) => return Err(Failure::Other(Problem::NoLine)),
        }
    }
    Ok(is_refused)
}

/// Whether the server takes its leave in a response.
fn is_farewell(response: &Response) -> bool {
    match response.line() {
        Some(Line::Bye(_, _)) => true,
        _ => false,
    }
}

/// Whether the server takes its leave among the lines that have come.
pub(crate) fn says_bye(reader: &mut Reader) -> Result<bool, Memory> {
    let mut is_bye = false;
    for _ in 0..u64::MAX {
        match reader.next()? {
            Heard::Line(response) => is_bye |= is_farewell(&response),
            Heard::Fault(ReadFault::Unknown) => {}
            Heard::More | Heard::Fault(_) => break,
        }
    }
    Ok(is_bye)
}
