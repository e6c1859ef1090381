//! Prints strings, lists of strings and paths.

ghost use Rattle.acap_lexer.specs.Printing.{printed_form};
ghost use Rattle.acap_grammar.specs.Appending.{Appends};
ghost use Rattle.acap_grammar.specs.Replies.{behind_spaces, list_form};
ghost use Rattle.acap_grammar.specs.Refusals.{path_form};

use acap_entries::{Memory, Path, Value};
use acap_lexer::print_string;

pub(crate) fn append_string(text: &[u8], out: &mut Vec<u8>) -> Result<(), Memory>
    ensures { Appends result out.old.items out.new.items (printed_form text.now) }
{
    match print_string(text, out) {
        Ok(()) => Ok(()),
        Err(_) => Err(Memory),
    }
}

/// Each after a space.
pub(crate) fn append_spaced(values: &[Value], out: &mut Vec<u8>) -> Result<(), Memory>
    ensures { Appends result out.old.items out.new.items (behind_spaces printed_form values.now) }
{
    for value in values {
        out.push(b' ')?;
        append_string(value.as_slice(), out)?;
    }
    Ok(())
}

#[tactic(auto, unfolding(crate::specs::Replies::list_form))]
pub(crate) fn append_values(values: &[Value], out: &mut Vec<u8>) -> Result<(), Memory>
    ensures { Appends result out.old.items out.new.items (list_form printed_form values.now) }
{
    out.push(b'(')?;
    if let Some((first, others)) = values.split_first() {
        append_string(first.as_slice(), out)?;
        append_spaced(others, out)?;
    }
    out.push(b')')?;
    Ok(())
}

#[tactic(auto, unfolding(crate::specs::Refusals::path_form))]
pub(crate) fn append_path(path: &Path, out: &mut Vec<u8>) -> Result<(), Memory>
    ensures { Appends result out.old.items out.new.items (path_form path.now) }
{
    let mut whole = Vec::from_slice(*out.allocator(), path.dataset.as_slice())?;
    whole.extend_from_slice(path.name.as_slice())?;
    append_string(&whole, out)
}
