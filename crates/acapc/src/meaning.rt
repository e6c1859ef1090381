//! The command that the words of a call stand for.

use crate::beside::{beside, both};
use crate::failure::{Failure, Operation, Wanted};
use crate::objects::{access_list, grant, my_rights, revoke};
use crate::shown::Shown;
use acap_commands::Command;
use acap_entries::{Attribute, Dataset, EntryName, Memory, Path, Value};
use acap_shell as shell;
use acap_shell::line_of;
use clap::ArgMatches;
use std::alloc::Global;
use std::io::Read;

/// Lines of commands, and what is printed of their answers.
#[derive(Drop)]
pub(crate) struct Meaning<'a> {
    /// The line of the command.
    pub(crate) line: Vec<u8>,
    /// That of the command after it, if there is one.
    pub(crate) next: Option<Vec<u8>>,
    /// What is printed.
    pub(crate) shown: Shown<'a>,
}

/// A word that is there.
fn word<'a>(matches: &ArgMatches<'a>, name: &str) -> &'a [u8] {
    matches.get_str(name).unwrap_or("").as_bytes()
}

/// The dataset that a word names.
pub(crate) fn dataset_of(alloc: Global, word: &[u8]) -> Result<Dataset, Failure> {
    match Dataset::read(alloc, word) {
        Ok(dataset) => Ok(dataset),
        Err(fault) => Err(Failure::of_word(Wanted::Dataset, fault)),
    }
}

/// The entry that a word names.
pub(crate) fn entry_of(alloc: Global, word: &[u8]) -> Result<EntryName, Failure> {
    match EntryName::read(alloc, word) {
        Ok(name) => Ok(name),
        Err(fault) => Err(Failure::of_word(Wanted::Entry, fault)),
    }
}

/// The attribute that a word names.
pub(crate) fn attribute_of(alloc: Global, word: &[u8]) -> Result<Attribute, Failure> {
    match Attribute::read(alloc, word) {
        Ok(attribute) => Ok(attribute),
        Err(fault) => Err(Failure::of_word(Wanted::Attribute, fault)),
    }
}

/// The dataset of a call.
pub(crate) fn dataset(alloc: Global, matches: &ArgMatches) -> Result<Dataset, Failure> {
    dataset_of(alloc, word(matches, "DATASET"))
}

/// The entry of a call.
fn entry(alloc: Global, matches: &ArgMatches) -> Result<EntryName, Failure> {
    entry_of(alloc, word(matches, "ENTRY"))
}

/// The attribute of a call.
fn attribute(alloc: Global, matches: &ArgMatches) -> Result<Attribute, Failure> {
    attribute_of(alloc, word(matches, "ATTRIBUTE"))
}

/// The entry of a call, if it has one.
fn entry_if_there(alloc: Global, matches: &ArgMatches) -> Result<Option<EntryName>, Failure> {
    match matches.get_str("ENTRY") {
        Some(word) => Ok(Some(entry_of(alloc, word.as_bytes())?)),
        None => Ok(None),
    }
}

/// The attribute that a word of a call names, if it is there.
pub(crate) fn attribute_if_there(
    alloc: Global,
    matches: &ArgMatches,
    name: &str,
) -> Result<Option<Attribute>, Failure> {
    match matches.get_str(name) {
        Some(word) => Ok(Some(attribute_of(alloc, word.as_bytes())?)),
        None => Ok(None),
    }
}

/// Where the entry of a call is.
fn path(alloc: Global, matches: &ArgMatches) -> Result<Path, Failure> {
    let (dataset, name) = both(dataset(alloc, matches), entry(alloc, matches))?;
    Ok(Path { dataset, name })
}

/// The value that a word stands for: `-` stands for what standard input has.
fn value(rt: &HostRuntime, word: &str) -> Result<Value, Failure> {
    if word != "-" {
        return Ok(Value::from_slice(rt.alloc(), word.as_bytes())?);
    }
    let mut octets = Vec::new(rt.alloc());
    match rt.stdin().read_to_end(&mut octets) {
        Ok(_) => Ok(Value::from_slice(rt.alloc(), &octets)?),
        Err(error) => Err(Failure::System(Operation::ReadInput, error)),
    }
}

/// The values of a call.
fn values(rt: &HostRuntime, matches: &ArgMatches) -> Result<Vec<Value>, Failure> {
    let mut values = Vec::new(rt.alloc());
    if let Some(words) = matches.get_strs("VALUE") {
        for word in words {
            values.push(value(rt, word)?)?;
        }
    }
    Ok(values)
}

/// `get`.
fn get(alloc: Global, matches: &ArgMatches) -> Result<Command, Failure> {
    let dataset = dataset(alloc, matches);
    let entry = entry_if_there(alloc, matches);
    let attribute = attribute_if_there(alloc, matches, "ATTRIBUTE");
    let (dataset, (entry, attribute)) = both(dataset, both(entry, attribute))?;
    Ok(shell::get(alloc, dataset, entry, attribute)?)
}

/// `list`.
fn list(alloc: Global, matches: &ArgMatches) -> Result<Command, Failure> {
    let dataset = dataset(alloc, matches)?;
    let depth = matches.get_one::<u32>("depth");
    Ok(shell::list(alloc, dataset, depth)?)
}

/// `find`, of a value.
fn find_value(alloc: Global, of: (Dataset, Attribute), value: &Value) -> Result<Command, Memory> {
    let (dataset, attribute) = of;
    shell::find(alloc, dataset, attribute, value.as_slice())
}

/// `find`.
fn find(rt: &HostRuntime, matches: &ArgMatches) -> Result<Command, Failure> {
    let alloc = rt.alloc();
    let of = both(dataset(alloc, matches), attribute(alloc, matches))?;
    let value = value(rt, matches.get_str("VALUE").unwrap_or(""));
    let (of, value) = beside(of, value)?;
    Ok(find_value(alloc, of, &value)?)
}

/// `set`.
fn set(rt: &HostRuntime, matches: &ArgMatches) -> Result<Command, Failure> {
    let alloc = rt.alloc();
    let of = both(path(alloc, matches), attribute(alloc, matches))?;
    let ((path, attribute), values) = beside(of, values(rt, matches))?;
    Ok(shell::set(alloc, path, attribute, values)?)
}

/// `unset`.
fn unset(alloc: Global, matches: &ArgMatches) -> Result<Command, Failure> {
    let attribute = attribute_if_there(alloc, matches, "ATTRIBUTE");
    let (path, attribute) = both(path(alloc, matches), attribute)?;
    Ok(shell::unset(alloc, path, attribute)?)
}

/// The command of a call, of those that need no loop of their own.
fn command(rt: &HostRuntime, verb: &str, matches: &ArgMatches) -> Result<Command, Failure> {
    let alloc = rt.alloc();
    match verb {
        "get" => get(alloc, matches),
        "list" => list(alloc, matches),
        "find" => find(rt, matches),
        "set" => set(rt, matches),
        "unset" => unset(alloc, matches),
        "acl" => my_rights(alloc, matches),
        "grant" => grant(alloc, matches),
        "revoke" => revoke(alloc, matches),
        _ => Err(Failure::Word(Wanted::Verb)),
    }
}

/// The line of the command after that, if there is one.
fn next(alloc: Global, verb: &str, matches: &ArgMatches) -> Result<Option<Vec<u8>>, Failure> {
    match verb {
        "acl" => Ok(Some(line_of(alloc, b"A2", access_list(alloc, matches)?)?)),
        _ => Ok(None),
    }
}

/// What is printed of the answers.
fn shown<'a>(verb: &str, matches: &ArgMatches<'a>) -> Shown<'a> {
    match verb {
        "get" => match matches.get_str("ATTRIBUTE") {
            Some(attribute) => Shown::Values(attribute.as_bytes()),
            None => Shown::Attributes,
        },
        "list" | "find" => Shown::Names,
        "acl" => Shown::Rights,
        _ => Shown::Nothing,
    }
}

/// What the words of a call stand for, of those that need no loop of their own. The tags are `A1` and `A2`.
pub(crate) fn read_meaning<'a>(
    rt: &HostRuntime,
    verb: &str,
    matches: &ArgMatches<'a>,
) -> Result<Meaning<'a>, Failure> {
    let line = line_of(rt.alloc(), b"A1", command(rt, verb, matches)?)?;
    let next = next(rt.alloc(), verb, matches)?;
    Ok(Meaning {
        line,
        next,
        shown: shown(verb, matches),
    })
}
