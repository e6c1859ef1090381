//! Prints what a session says, as a script shows it.

ghost use Rattle.std.specs.Prelude.{◌≡◌, ◌++◌, IfOk, OnOk, length, ◌<◌};
ghost use Rattle.acap_session.specs.ScriptOutput.{part_line, IsFirstPart, Shows};

use acap_entries::{Memory, Seat};
use memchr::memmem;
use std::alloc::Global;

// What stands before the first CR LF and what after it, or all.
fn first_part(said: &[u8]) -> (&[u8], &[u8])
    requires { 0 < length said.now }
    ensures parts { IsFirstPart said.now result.0.now result.1.now }
    ensures fewer { length result.1.now < length said.now }
{
    match memmem::find(said, b"\r\n") {
        Some(place) => {
            let (part, _) = said.split_at(place);
            let (_, behind) = said.split_at(place + 2);
            (part, behind)
        }
        None => said.split_at(said.len()),
    }
}

// A part, after the number of its seat.
fn append_part(seat: Seat, part: &[u8], out: &mut Vec<u8>) -> Result<(), Memory>
    ensures { OnOk result (out.new.items ≡ out.old.items ++ part_line seat part.now) }
{
    let label = format!(in *out.allocator(); "{}: ", seat.number())?;
    out.extend_from_slice(label.as_bytes())?;
    out.extend_from_slice(part)?;
    out.push(b'\n')?;
    Ok(())
}

/// What is written of what the session of a seat says.
pub(crate) fn show(alloc: Global, seat: Seat, said: &[u8]) -> Result<Vec<u8>, Memory>
    ensures { IfOk result (λ out. Shows seat said.now out.items) }
{
    let mut out = Vec::new(alloc);
    let mut rest = said;
    'parts: while !rest.is_empty() {
        let (part, behind) = first_part(rest);
        append_part(seat, part, &mut out)?;
        rest = behind;
    }
    Ok(out)
}
