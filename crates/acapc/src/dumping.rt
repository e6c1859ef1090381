//! `dump`: what a server holds, written as the commands that make it again.

use crate::asking::{ask_all, need_administrator};
use crate::failure::{Failure, Operation, Problem};
use crate::session::{Session, end_of};
use crate::shown::write_out;
use crate::stores::Stores;
use acap_client::{Line, Response, Row};
use std::fs::File;
use std::io::Write;

/// What no dump keeps.
pub(crate) const LOST: &[u8] =
    b"not kept: moments, remembered deletions, NIL and deletions over a base, and lists without a value\n";

/// What comes of a dump into a file.
#[derive(Clone, Copy)]
pub(crate) struct Dumped {
    /// Whether a dataset inherits.
    pub(crate) has_heirs: bool,
    /// How many items and entries couldn't be written.
    pub(crate) left_out: u64,
}

/// Writes on standard error.
fn complain(rt: &HostRuntime, line: &[u8]) -> Result<(), Failure> {
    match rt.stderr().write_all(line) {
        Ok(()) => Ok(()),
        Err(error) => Err(Failure::System(Operation::Print, error)),
    }
}

/// Prints the STOREs that were collected, and on standard error what can't be written.
fn print(rt: &HostRuntime, stores: &mut Stores) -> Result<(), Failure> {
    write_out(rt, &mut stores.lines)?;
    complain(rt, &stores.complaints)?;
    stores.complaints.clear();
    Ok(())
}

/// Collects the STOREs of a response. Whether it ends the answer.
fn hear(stores: &mut Stores, response: &Response) -> Result<bool, Failure> {
    let Some(line) = response.line() else {
        return Ok(false);
    };
    if let Line::Entry(_, name, items) = &line {
        stores.add_entry(*name, items)?;
    }
    match end_of(b"A2", &line) {
        Some(Ok(())) => Ok(true),
        Some(Err(failure)) => Err(failure),
        None => Ok(false),
    }
}

/// Prints the STOREs of all entries that are found.
fn print_entries(
    rt: &HostRuntime,
    session: &mut Session,
    stores: &mut Stores,
) -> Result<(), Failure> {
    for _ in 0..u64::MAX {
        let response = session.hear()?;
        let is_end = hear(stores, &response);
        drop(response);
        if is_end? {
            break;
        }
        if stores.is_full() {
            print(rt, stores)?;
        }
    }
    Ok(())
}

/// Prints what comes after the entries.
fn finish(rt: &HostRuntime, stores: &mut Stores) -> Result<(), Failure> {
    stores.add_heirs()?;
    print(rt, stores)?;
    complain(rt, LOST)?;
    if stores.left_out == 0 {
        Ok(())
    } else {
        Err(Failure::Other(Problem::NotWhole))
    }
}

/// Prints what a server holds as STOREs.
pub(crate) fn print_dump(
    rt: &HostRuntime,
    session: &mut Session,
    user: &str,
) -> Result<(), Failure> {
    need_administrator(rt.alloc(), session, user.as_bytes())?;
    ask_all(rt.alloc(), session)?;
    let mut stores = Stores::new(rt.alloc());
    match print_entries(rt, session, &mut stores) {
        Ok(()) => finish(rt, &mut stores),
        Err(failure) => Err(failure),
    }
}

/// Writes the STOREs that were collected into a file. What can't be written is named on standard error, if that is wanted.
fn write_into(
    rt: &HostRuntime,
    file: &File,
    stores: &mut Stores,
    names_these: bool,
) -> Result<(), Failure> {
    let mut file = file;
    if names_these {
        complain(rt, &stores.complaints)?;
    }
    stores.complaints.clear();
    match file.write_all(&stores.lines) {
        Ok(()) => {
            stores.lines.clear();
            Ok(())
        }
        Err(error) => Err(Failure::System(Operation::WriteKept, error)),
    }
}

/// Writes the STOREs of the entries of rows into a file.
fn write_rows(
    rt: &HostRuntime,
    file: &File,
    stores: &mut Stores,
    rows: &[Row],
    names_these: bool,
) -> Result<(), Failure> {
    for row in rows {
        stores.add_entry(row.name(), &row.items())?;
        if stores.is_full() {
            write_into(rt, file, stores, names_these)?;
        }
    }
    Ok(())
}

/// Writes what datasets inherit from into a file, after all entries, and says what comes of it.
fn end_file(
    rt: &HostRuntime,
    file: &File,
    stores: &mut Stores,
    names_these: bool,
) -> Result<Dumped, Failure> {
    let has_heirs = stores.has_heirs();
    stores.add_heirs()?;
    write_into(rt, file, stores, names_these)?;
    Ok(Dumped {
        has_heirs,
        left_out: stores.left_out,
    })
}

/// Writes what a server holds as STOREs into a file: these rows of a SEARCH for all. What can't be written is named on standard error,
/// if that is wanted.
pub(crate) fn dump_into(
    rt: &HostRuntime,
    file: &File,
    rows: &[Row],
    names_these: bool,
) -> Result<Dumped, Failure> {
    let mut stores = Stores::new(rt.alloc());
    match write_rows(rt, file, &mut stores, rows, names_these) {
        Ok(()) => end_file(rt, file, &mut stores, names_these),
        Err(failure) => Err(failure),
    }
}
