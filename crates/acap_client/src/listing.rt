//! Lists of strings and of context names, as they are written in a command.

ghost use Rattle.std.specs.Prelude.{OnOk};
ghost use Rattle.acap_grammar.specs.Spelling as spelling;
ghost use Rattle.acap_client.specs.Writing.{Writes};

use crate::writing::{Writing, string};
use acap_entries::{ContextName, Memory, Value};

/// Values, one after the other.
pub(crate) fn values(writing: &mut Writing, values: &[Value]) -> Result<(), Memory>
    ensures { OnOk result (Writes (spelling.each spelling.string values.now) writing.old writing.new) }
{
    for value in values {
        string(writing, value.as_slice())?;
    }
    Ok(())
}

/// The names of contexts, one after the other.
pub(crate) fn contexts(writing: &mut Writing, names: &[ContextName]) -> Result<(), Memory>
    ensures { OnOk result (Writes (spelling.each spelling.string names.now) writing.old writing.new) }
{
    for name in names {
        string(writing, name.as_slice())?;
    }
    Ok(())
}
