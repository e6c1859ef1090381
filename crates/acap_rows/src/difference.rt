//! Prints the first line in which wanted and actual octets differ.

use acap_entries::Memory;
use std::alloc::Global;

/// The most octets of a line that are printed before the first that differs, and from there on.
const SHOWN: usize = 60;

/// Two lines, as a row file has them.
#[derive(Drop)]
pub(crate) struct Lines {
    pub(crate) wanted: String,
    pub(crate) got: String,
}

// How many octets two texts begin with that are the same.
fn same_length(one: &[u8], other: &[u8]) -> usize {
    one.iter()
        .zip(other.iter())
        .take_while(|(a, b)| a == b)
        .count()
}

// Where the line begins that a place is in, or 60 octets before that place.
fn line_start(text: &[u8], place: usize) -> usize {
    let behind_end = match text.iter().take(place).rposition(|octet| *octet == b'\n') {
        Some(end) => end.saturating_add(1),
        None => 0,
    };
    behind_end.max(place.saturating_sub(SHOWN))
}

// Adds an octet as a row file has it.
fn add_printed(octet: u8, out: &mut String) -> Result<(), Memory> {
    match octet {
        b'\\' => out.push_str("\\\\"),
        b'\n' => out.push_str("\\n"),
        b'\r' => out.push_str("\\r"),
        b'\t' => out.push_str("\\t"),
        b' '..=b'~' => out.push(octet as char),
        _ => {
            let digits = format!(in *out.allocator(); "\\x{octet:02x}")?;
            out.push_str(digits.as_str())
        }
    }
}

// The line from a place on, as a row file has it, up to 60 octets after another place.
fn print_line(alloc: Global, text: &[u8], start: usize, place: usize) -> Result<String, Memory> {
    let behind = text.get(start..).unwrap_or(b"");
    let most = place.saturating_sub(start).saturating_add(SHOWN);
    let end = match behind.iter().position(|octet| *octet == b'\n') {
        Some(end) => end.saturating_add(1).min(most),
        None => behind.len().min(most),
    };
    let line = behind.get(..end).unwrap_or(behind);
    let mut text = String::new(alloc);
    for octet in line {
        add_printed(*octet, &mut text)?;
    }
    Ok(text)
}

/// The first line in which two texts differ.
pub(crate) fn first_lines(alloc: Global, wanted: &[u8], got: &[u8]) -> Result<Lines, Memory> {
    let place = same_length(wanted, got);
    let start = line_start(wanted, place);
    Ok(Lines {
        wanted: print_line(alloc, wanted, start, place)?,
        got: print_line(alloc, got, start, place)?,
    })
}
