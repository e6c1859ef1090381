//! `Acl`: an access control list, read, and edited by SETACL and DELETEACL.
ghost use Rattle.std.specs.Prelude.{◌≡◌, ◌↔◌, IfOk, OnOk, IsTrue, Err, false};
ghost use Rattle.std.specs.List.{position};
ghost use Rattle.acap_rights.specs.Pairs as rule;
ghost use Rattle.acap_rights.specs.Edits as edit;
ghost use Rattle.acap_rights.specs.declared.acl_fault.AclFault.TheVariants as AclFault;

use crate::acl_fault::AclFault;
use crate::forms::{copy_of, form_of};
use crate::pairs::{is_acl, pair_of};
use acap_entries::{Copying, Memory, Sequence, Value, Values};
use std::alloc::Global;
use std::marker::Model;

/// An access control list (RFC 2244 section 3.5), as the strings that were sent.
#[derive(Clone, PartialEq, Eq, Drop)]
pub struct Acl {
    strings: Sequence<Value>,
}

impl Model for Acl {
    ghost use Rattle.std.specs.Prelude.{ℕ, List};

    ghost Value = { List (List ℕ) };

    ghost view = { λ acl. acl.strings };

    ghost inverse = { λ strings. record { strings = strings } };
}

impl Acl {
    /// Any strings as they are, in the memory that they have. `is_acl` says whether they are a list.
    pub fn new(strings: Sequence<Value>) -> Acl
        ensures { result ≡ strings }
    {
        Acl { strings }
    }

    /// Reads a list. `BadAcl` exactly where a string is not an identifier, TAB and letters.
    pub fn read(alloc: Global, strings: &[Value]) -> Result<Acl, AclFault>
        ensures good { OnOk result (IsTrue (rule.is_acl strings.now)) }
        ensures value { IfOk result (λ acl. acl ≡ strings.now) }
        ensures bad { (result ≡ Err AclFault.BadAcl) ↔ (rule.is_acl strings.now ≡ false) }
    {
        if !is_acl(strings) {
            return Err(AclFault::BadAcl);
        }
        let strings = copy_of(alloc, strings)?;
        Ok(Acl { strings })
    }

    /// The strings in their order.
    pub fn as_slice(&self) -> &[Value]
        ensures { result.now ≡ self.now }
    {
        self.strings.as_slice()
    }

    /// The strings as they are stored, in the memory that they have. Fails only for want of memory.
    pub fn into_values(self) -> Result<Values, Memory>
        ensures { IfOk result (λ values. values ≡ self) }
    {
        Values::new(self.strings)
    }

    /// The list that SETACL makes (RFC 2244 section 6.7): the letters stand for the identifier in the place of its first string,
    /// or after all others where it has none, and nothing else of it stays. Whether identifier and letters make a string of a
    /// list says `is_pair`. Fails only for want of memory.
    #[tactic(auto, unfolding(crate::specs::Edits::with_pair))]
    pub fn with_pair(self, identifier: &[u8], letters: &[u8]) -> Result<Acl, Memory>
        ensures { IfOk result (λ acl. acl ≡ edit.with_pair identifier.now letters.now self) }
    {
        let mut strings = self.strings.into_vec();
        let text = form_of(*strings.allocator(), identifier, letters)?;
        let place = place_in(strings.as_slice(), identifier);
        drop_about(&mut strings, identifier);
        strings.insert(place, text)?;
        Ok(Acl {
            strings: Sequence::from_vec(strings),
        })
    }

    /// The list that DELETEACL makes (RFC 2244 section 6.7): nothing of the identifier stays. Takes no memory.
    pub fn without(self, identifier: &[u8]) -> Acl
        ensures { result ≡ edit.without identifier.now self }
    {
        let mut strings = self.strings.into_vec();
        drop_about(&mut strings, identifier);
        Acl {
            strings: Sequence::from_vec(strings),
        }
    }
}

impl Copying for Acl {
    fn copy(&self) -> Result<Acl, Memory> {
        self.clone()
    }
}

// Whether a string says something of an identifier.
fn is_about(text: &Value, identifier: &[u8]) -> bool
    ensures { result ≡ edit.is_about identifier.now text.now }
{
    match pair_of(text.as_slice()) {
        Some((known, _)) => known == identifier,
        None => false,
    }
}

// Takes the strings out that say something of an identifier.
#[tactic(auto, unfolding(crate::specs::Edits::without))]
fn drop_about(strings: &mut Vec<Value>, identifier: &[u8])
    ensures { strings.new.items ≡ edit.without identifier.now strings.old.items }
{
    strings.retain(|text| !is_about(text, identifier));
}

// Where the first string stands that says something of an identifier.
fn first_about(strings: &[Value], identifier: &[u8]) -> Option<usize>
    ensures { result ≡ position (edit.is_about identifier.now) strings.now }
{
    strings.iter().position(|text| is_about(text, identifier))
}

// The same, or how many strings there are where none does.
#[tactic(auto, using(crate::proofs::ListLemmas::place_is))]
fn place_in(strings: &[Value], identifier: &[u8]) -> usize
    ensures { result ≡ edit.place_in identifier.now strings.now }
{
    first_about(strings, identifier).unwrap_or(strings.len())
}
