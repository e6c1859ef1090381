//! The commands of `acl`, `grant` and `revoke`.

use crate::beside::both;
use crate::failure::{Failure, Wanted};
use crate::meaning::{attribute_of, dataset_of, entry_of};
use acap_commands::{Command, ObjectName};
use acap_shell as shell;
use clap::ArgMatches;
use std::alloc::Global;

/// The object that words name: a dataset, an attribute in it, or that of one entry.
fn object(alloc: Global, words: &[&str]) -> Result<ObjectName, Failure> {
    match words {
        [dataset] => Ok(ObjectName::Dataset {
            dataset: dataset_of(alloc, dataset.as_bytes())?,
        }),
        [dataset, attribute] => attribute_object(alloc, dataset, attribute),
        [dataset, attribute, name] => entry_object(alloc, dataset, attribute, name),
        _ => Err(Failure::Word(Wanted::Object)),
    }
}

/// An attribute in a dataset.
fn attribute_object(alloc: Global, dataset: &str, attribute: &str) -> Result<ObjectName, Failure> {
    let (dataset, attribute) = both(
        dataset_of(alloc, dataset.as_bytes()),
        attribute_of(alloc, attribute.as_bytes()),
    )?;
    Ok(ObjectName::attribute(alloc, dataset, attribute)?)
}

/// An attribute of one entry.
fn entry_object(
    alloc: Global,
    dataset: &str,
    attribute: &str,
    name: &str,
) -> Result<ObjectName, Failure> {
    let (dataset, (attribute, name)) = both(
        dataset_of(alloc, dataset.as_bytes()),
        both(
            attribute_of(alloc, attribute.as_bytes()),
            entry_of(alloc, name.as_bytes()),
        ),
    )?;
    Ok(ObjectName::entry(alloc, dataset, attribute, name)?)
}

/// The words of a call that name an object, and those after them.
fn words<'m>(matches: &'m ArgMatches) -> &'m [&'m str] {
    matches.get_strs("WORD").unwrap_or(&[])
}

/// `acl`: first my rights.
pub(crate) fn my_rights(alloc: Global, matches: &ArgMatches) -> Result<Command, Failure> {
    let object = object(alloc, words(matches))?;
    Ok(shell::my_rights(alloc, object)?)
}

/// `acl`: then the access list.
pub(crate) fn access_list(alloc: Global, matches: &ArgMatches) -> Result<Command, Failure> {
    let object = object(alloc, words(matches))?;
    Ok(shell::access_list(alloc, object)?)
}

/// `grant`: the last two words are an identifier and rights.
pub(crate) fn grant(alloc: Global, matches: &ArgMatches) -> Result<Command, Failure> {
    match words(matches) {
        [words @ .., identifier, rights] => {
            let object = object(alloc, words)?;
            Ok(shell::grant(alloc, object, identifier.as_bytes(), rights.as_bytes())?)
        }
        _ => Err(Failure::Word(Wanted::Object)),
    }
}

/// `revoke`: of an identifier, which is the last word, or of the whole list.
pub(crate) fn revoke(alloc: Global, matches: &ArgMatches) -> Result<Command, Failure> {
    match (matches.get_flag("all"), words(matches)) {
        (true, words) => {
            let object = object(alloc, words)?;
            Ok(shell::revoke_all(alloc, object)?)
        }
        (false, [words @ .., identifier]) => {
            let object = object(alloc, words)?;
            Ok(shell::revoke(alloc, object, identifier.as_bytes())?)
        }
        _ => Err(Failure::Word(Wanted::Object)),
    }
}
