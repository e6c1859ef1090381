//! Prints the codes of refusals (RFC 2244 section 3.6).

ghost use Rattle.std.specs.Prelude.{◌∷◌};
ghost use Rattle.acap_lexer.specs.Printing.{printed_form};
ghost use Rattle.acap_grammar.specs.Appending.{Appends};
ghost use Rattle.acap_grammar.specs.Refusals.{object_form, permission_code, code_of};

use crate::strings::{append_path, append_string};
use acap_commands::{ObjectName, Refusal};
use acap_entries::{Attribute, Dataset, Memory, Path};

fn append_argument(text: &[u8], out: &mut Vec<u8>) -> Result<(), Memory>
    ensures { Appends result out.old.items out.new.items (32 ∷ printed_form text.now) }
{
    out.push(b' ')?;
    append_string(text, out)?;
    Ok(())
}

#[tactic(auto, unfolding(crate::specs::Refusals::object_form))]
fn append_object(object: &ObjectName, out: &mut Vec<u8>) -> Result<(), Memory>
    ensures { Appends result out.old.items out.new.items (object_form object.now) }
{
    out.push(b'(')?;
    match object {
        ObjectName::Dataset { dataset } => append_string(dataset.as_slice(), out)?,
        ObjectName::Attribute { dataset, attribute } => {
            append_string(dataset.as_slice(), out)?;
            append_argument(attribute.get().as_slice(), out)?;
        }
        ObjectName::Entry {
            dataset,
            attribute,
            name,
        } => {
            append_string(dataset.as_slice(), out)?;
            append_argument(attribute.get().as_slice(), out)?;
            append_argument(name.get().as_slice(), out)?;
        }
    }
    out.push(b')')?;
    Ok(())
}

fn append_permission(object: &ObjectName, out: &mut Vec<u8>) -> Result<(), Memory>
    ensures { Appends result out.old.items out.new.items (permission_code object.now) }
{
    out.extend_from_slice(b"(PERMISSION ")?;
    append_object(object, out)?;
    out.extend_from_slice(b") ")?;
    Ok(())
}

#[tactic(auto, unfolding(crate::specs::Refusals::code_of))]
fn append_no_exist(dataset: &Dataset, out: &mut Vec<u8>) -> Result<(), Memory>
    ensures { Appends result out.old.items out.new.items (code_of (Refusal.NoExist dataset.now)) }
{
    out.extend_from_slice(b"(NOEXIST ")?;
    append_string(dataset.as_slice(), out)?;
    out.extend_from_slice(b") ")?;
    Ok(())
}

#[tactic(auto, unfolding(crate::specs::Refusals::code_of))]
fn append_modified(path: &Path, out: &mut Vec<u8>) -> Result<(), Memory>
    ensures { Appends result out.old.items out.new.items (code_of (Refusal.Modified path.now)) }
{
    out.extend_from_slice(b"(MODIFIED ")?;
    append_path(path, out)?;
    out.extend_from_slice(b") ")?;
    Ok(())
}

#[tactic(auto, unfolding(crate::specs::Refusals::code_of))]
fn append_invalid(path: &Path, attribute: &Attribute, out: &mut Vec<u8>) -> Result<(), Memory>
    ensures { Appends result out.old.items out.new.items (code_of (Refusal.Invalid path.now attribute.now)) }
{
    out.extend_from_slice(b"(INVALID (")?;
    append_path(path, out)?;
    out.push(b' ')?;
    append_string(attribute.as_slice(), out)?;
    out.extend_from_slice(b")) ")?;
    Ok(())
}

fn append_word(word: &[u8], out: &mut Vec<u8>) -> Result<(), Memory>
    ensures { Appends result out.old.items out.new.items word.now }
{
    out.extend_from_slice(word)?;
    Ok(())
}

/// The code of a refusal and the space after it, where it has one.
#[tactic(auto, unfolding(crate::specs::Refusals::code_of))]
pub(crate) fn append_code(refusal: &Refusal, out: &mut Vec<u8>) -> Result<(), Memory>
    ensures { Appends result out.old.items out.new.items (code_of refusal.now) }
{
    match refusal {
        Refusal::Permission(object) => append_permission(object.get(), out),
        Refusal::NoExist(dataset) => append_no_exist(dataset, out),
        Refusal::Modified(path) => append_modified(path.get(), out),
        Refusal::Invalid(path, attribute) => append_invalid(path.get(), attribute, out),
        Refusal::TooOld => append_word(b"(TOOOLD) ", out),
        Refusal::WayTooMany => append_word(b"(WAYTOOMANY) ", out),
        Refusal::TryFreeContext => append_word(b"(TRYFREECONTEXT) ", out),
        Refusal::Memory | Refusal::HistoryFull => append_word(b"(TRYLATER) ", out),
        _ => append_word(b"", out),
    }
}
