//! The secret of the user, which is no word of the call.

use crate::failure::{Failure, Operation, Problem, Wanted};
use acap_entries::Memory;
use clap::ArgMatches;
use std::alloc::Global;
use std::env::VarError;
use std::{env, fs};

/// A secret without the end of its line, if it has one.
fn without_end(alloc: Global, secret: &[u8]) -> Result<Vec<u8>, Memory> {
    let secret = secret.strip_suffix(b"\n").unwrap_or(secret);
    let secret = secret.strip_suffix(b"\r").unwrap_or(secret);
    Ok(Vec::from_slice(alloc, secret)?)
}

/// The secret that a file has.
fn from_file(rt: &HostRuntime, file: &str) -> Result<Vec<u8>, Failure> {
    match fs::read(rt, file) {
        Ok(octets) => Ok(without_end(rt.alloc(), &octets)?),
        Err(error) => Err(Failure::System(Operation::ReadSecret, error)),
    }
}

/// The secret that the environment has.
fn from_environment(rt: &HostRuntime) -> Result<Vec<u8>, Failure> {
    match env::var(rt, "ACAP_SECRET") {
        Ok(secret) => Ok(Vec::from_slice(rt.alloc(), secret.as_bytes())?),
        Err(VarError::NotPresent) => Err(Failure::Word(Wanted::Secret)),
        Err(VarError::NotUnicode) => Err(Failure::Other(Problem::SecretText)),
        Err(VarError::OutOfMemory) => Err(Failure::Memory),
    }
}

/// The secret, from the file that a call names or else from the environment.
pub(crate) fn secret(rt: &HostRuntime, matches: &ArgMatches) -> Result<Vec<u8>, Failure> {
    match matches.get_str("secret-file") {
        Some(file) => from_file(rt, file),
        None => from_environment(rt),
    }
}
