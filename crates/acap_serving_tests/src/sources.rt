//! Whether a server's nonces differ, and whether its moments are those of a clock.
use crate::client::Client;
use acap_entries::read_time;
use std::alloc::Global;
use std::time::{Clock, Duration, Instant};
use std::{io, thread};

/// How many microseconds a client waits between two STOREs.
const PAUSE: i64 = 1_000_000;

/// By how many microseconds two clocks may differ for as long as a test runs.
const SLACK: i64 = 100_000;

// The nonce of a challenge `<NONCE.SECONDS@HOST>`.
fn nonce_in(challenge: &[u8]) -> Option<&[u8]> {
    let inner = challenge.strip_prefix(b"<")?;
    let end = inner.iter().position(|octet| *octet == b'.')?;
    inner.get(..end)
}

// Asks to log in, and cancels that: the nonce of the challenge.
fn nonce_for(alloc: Global, client: &mut Client) -> io::Result<Vec<u8>> {
    let challenge = client.challenge()?;
    client.send(b"*\r\n")?;
    let _cancelled = client.line()?;
    match nonce_in(&challenge) {
        Some(nonce) => Ok(Vec::from_slice(alloc, nonce)?),
        None => Err(io::Error::other("no nonce")),
    }
}

/// Whether no nonce comes twice where the clients with these numbers ask to log in, one after the other.
pub(crate) fn are_challenged(
    alloc: Global,
    clients: &mut [Client],
    numbers: &[usize],
) -> io::Result<bool> {
    let mut nonces = Vec::new(alloc);
    for number in numbers {
        let Some(client) = clients.get_mut(*number) else {
            return Ok(false);
        };
        let nonce = nonce_for(alloc, client)?;
        if nonces.contains(&nonce) {
            return Ok(false);
        }
        nonces.push(nonce)?;
    }
    Ok(true)
}

// The moment in a line that shows an entry, in microseconds.
fn moment_in(line: &[u8]) -> Option<i64> {
    let stamp = line.strip_prefix(b"T2 ENTRY \"date\" \"")?;
    let moment = read_time(stamp.strip_suffix(b"\"\r\n")?)?;
    Some(moment.micros())
}

// Stores an entry, and asks for its moment.
fn stored_at(client: &mut Client) -> io::Result<i64> {
    client.send(b"T1 STORE (\"/option/~/date\" \"option.value\" \"now\")\r\n")?;
    client.send(
        b"T2 SEARCH \"/option/~/\" RETURN (\"modtime\") EQUAL \"entry\" \"i;octet\" \"date\"\r\n",
    )?;
    let _stored = client.line()?;
    let entry = client.line()?;
    let (_modtime, _found) = (client.line()?, client.line()?);
    match moment_in(&entry) {
        Some(moment) => Ok(moment),
        None => Err(io::Error::other("no moment")),
    }
}

// Whether one moment is after another by what was waited at least, and by what has passed at most, but for the slack.
fn is_after(first: i64, second: i64, passed: i64) -> bool {
    let apart = second.saturating_sub(first);
    apart >= PAUSE - SLACK && apart <= passed.saturating_add(SLACK)
}

/// Whether the moments of two STOREs, between which a client waits a second, are as far apart as the two were.
pub(crate) fn is_dated<R: Clock>(rt: &R, client: &mut Client) -> io::Result<bool> {
    let begin = Instant::now(rt)?;
    let first = stored_at(client)?;
    thread::sleep(rt, Duration::from_secs(1));
    let second = stored_at(client)?;
    let passed = i64::try_from(begin.elapsed(rt)?.as_micros()).unwrap_or(i64::MAX);
    Ok(is_after(first, second, passed))
}
