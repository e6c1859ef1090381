//! Datasets and objects of access lists, as they are written in a command.

ghost use Rattle.std.specs.Prelude.{◌≡◌, OnOk};
ghost use Rattle.acap_grammar.specs.Spelling as spelling;
ghost use Rattle.acap_client.specs.Parts.{parts};
ghost use Rattle.acap_client.specs.Writing.{Writes};

use crate::writing::{Writing, close, open, string};
use acap_commands::ObjectName;
use acap_entries::{Boxed, Dataset, Label, Memory};

/// A dataset, without its closing slash unless that is all of it.
pub(crate) fn dataset_text(dataset: &Dataset) -> &[u8]
    ensures { result.now ≡ spelling.dataset_text dataset.now }
{
    let octets = dataset.as_slice();
    if octets.len() <= 1 {
        return octets;
    }
    &octets[..octets.len() - 1]
}

/// A dataset.
pub(crate) fn dataset(writing: &mut Writing, dataset: &Dataset) -> Result<(), Memory>
    ensures { OnOk result (Writes (spelling.dataset dataset.now) writing.old writing.new) }
{
    string(writing, dataset_text(dataset))
}

/// A string that may be left out.
pub(crate) fn string_if_there(
    writing: &mut Writing,
    text: &Option<Boxed<Label>>,
) -> Result<(), Memory>
    ensures { OnOk result (Writes (spelling.if_there spelling.string text.now) writing.old writing.new) }
{
    match text {
        None => Ok(()),
        Some(text) => string(writing, text.get().as_slice()),
    }
}

/// What an object is, without its parentheses.
fn object_parts(writing: &mut Writing, object: &ObjectName) -> Result<(), Memory>
    ensures { OnOk result (Writes (parts object.now) writing.old writing.new) }
{
    match object {
        ObjectName::Dataset { dataset: name } => dataset(writing, name),
        ObjectName::Attribute {
            dataset: name,
            attribute,
        } => {
            dataset(writing, name)?;
            string(writing, attribute.get().as_slice())
        }
        ObjectName::Entry {
            dataset: of,
            attribute,
            name,
        } => {
            dataset(writing, of)?;
            string(writing, attribute.get().as_slice())?;
            string(writing, name.get().as_slice())
        }
    }
}

/// An object (RFC 2244 section 6.7).
pub(crate) fn object(writing: &mut Writing, object: &ObjectName) -> Result<(), Memory>
    ensures { OnOk result (Writes (spelling.object object.now) writing.old writing.new) }
{
    open(writing)?;
    object_parts(writing, object)?;
    close(writing)
}
