//! Makes the strings of a list, and lists of them.
ghost use Rattle.std.specs.Prelude.{◌≡◌, ◌∷◌, [], IfOk};
ghost use Rattle.acap_rights.specs.Pairs as rule;
ghost use Rattle.acap_rights.specs.Homes.{default_list};

use crate::homes::home_of;
use acap_entries::{Copying, Memory, Octets, Sequence, Value, is_user_name};
use std::alloc::Global;

/// The string of an identifier and letters. Fails only for want of memory.
pub(crate) fn form_of(alloc: Global, identifier: &[u8], letters: &[u8]) -> Result<Value, Memory>
    ensures { IfOk result (λ text. text ≡ rule.string_of identifier.now letters.now) }
{
    let mut text = Vec::with_capacity(alloc, identifier.len() + 1 + letters.len())?;
    text.extend_from_slice(identifier)?;
    text.push(b'\t')?;
    text.extend_from_slice(letters)?;
    Value::new(Octets::from_vec(text))
}

/// The same strings, in a list of its own. Fails only for want of memory.
pub(crate) fn copy_of(alloc: Global, strings: &[Value]) -> Result<Sequence<Value>, Memory>
    ensures { IfOk result (λ made. made ≡ strings.now) }
{
    let mut made = Sequence::new(alloc);
    for text in strings {
        made.push(text.copy()?)?;
    }
    Ok(made)
}

// The list of one pair.
fn one(alloc: Global, identifier: &[u8], letters: &[u8]) -> Result<Sequence<Value>, Memory>
    ensures { IfOk result (λ made. made ≡ rule.string_of identifier.now letters.now ∷ []) }
{
    let mut made = Sequence::new(alloc);
    made.push(form_of(alloc, identifier, letters)?)?;
    Ok(made)
}

/// The list that decides in a dataset where none is stored. Fails only for want of memory.
#[tactic(auto, unfolding(crate::specs::Homes::default_list))]
pub(crate) fn default_list(alloc: Global, dataset: &[u8]) -> Result<Sequence<Value>, Memory>
    ensures { IfOk result (λ made. made ≡ default_list dataset.now) }
{
    match home_of(dataset) {
        Some(name) => {
            if is_user_name(name) {
                one(alloc, name, b"xrwia")
            } else {
                Ok(Sequence::new(alloc))
            }
        }
        None => one(alloc, b"anyone", b"xr"),
    }
}
