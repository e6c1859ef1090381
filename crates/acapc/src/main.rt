//! The program `acapc`: a client of ACAP servers (RFC 2244) for the command line.
#![tactic(auto)]

mod arguments;
mod asking;
mod beside;
mod contents;
mod doing;
mod dumping;
mod failure;
mod hearing;
mod judging;
mod keeper;
mod keeping;
mod kept_file;
mod meaning;
mod objects;
mod polling;
mod relaying;
mod restoring;
mod secret;
mod session;
mod shown;
mod states;
mod stores;
mod verbs;
mod watching;

use crate::arguments::program;
use crate::doing::run;
use crate::failure::report;
use clap::Error;
use std::process::ExitCode;
use std::{env, io};

/// The words of the call.
fn words(rt: &HostRuntime) -> io::Result<Vec<String>> {
    let mut words = Vec::new(rt.alloc());
    for word in env::args(rt)? {
        words.push(word)?;
    }
    Ok(words)
}

/// Prints what the words of the call ask of the program itself, or why they can't be read.
fn explain(rt: &HostRuntime, error: &Error) -> io::Result<ExitCode> {
    error.print(rt)?;
    let status = if error.use_stderr() { 2 } else { 0 };
    Ok(ExitCode::from(status))
}

/// Parses the words of the call and does what they say.
fn main(rt: HostRuntime) -> io::Result<ExitCode> {
    let words = words(&rt)?;
    let command = program(rt.alloc())?;
    match command.try_get_matches_from(words.as_slice()) {
        Ok(matches) => match run(&rt, &matches) {
            Ok(()) => Ok(ExitCode::SUCCESS),
            Err(failure) => report(&rt, matches.get_str("HOST:PORT").unwrap_or(""), &failure),
        },
        Err(error) => explain(&rt, &error),
    }
}
