//! The texts of a server: attributes, entries, users, contexts and labels, each a string of octets of its own
//! kind.
ghost use Rattle.std.specs.Prelude.{◌≡◌, ◌↔◌, ◌++◌, [], ℕ, List, Bool, nat_eq, refl};
ghost use Rattle.std.specs.Prelude.{IfOk, OnOk, IsTrue, Err, Some, true, false};
ghost use Rattle.std.specs.Cmp.Lexicographic.{pointwise, slice_cmp, texts_ties, texts_po};
ghost use Rattle.std.specs.Cmp.Lexicographic.{nat_list_eq_equiv, nat_list_cmp_total};
ghost use Rattle.std.specs.Cmp.{partial_equiv_from_equiv};
ghost use Rattle.std.specs.Ordering.{nat_cmp};
ghost use Rattle.acap_entries.specs.Names as name;

use crate::compact::Compact;
use crate::comparing::{compare, is_same};
use crate::name_fault::NameFault;
use crate::names;
use crate::octets::Octets;
use acap_ordmap::{Copying, Memory};
use std::alloc::Global;
use std::cmp::Ordering;
use std::marker::{Model, PhantomData};

/// The name of an attribute (RFC 2244 section 3.1.1).
pub type Attribute = Text<AttributeKind>;

/// The name of an entry in its dataset, empty for the management entry (RFC 2244 section 3.1).
pub type EntryName = Text<EntryKind>;

/// The name of a context (RFC 2244 section 3.3).
pub type ContextName = Text<ContextKind>;

/// The name of a user.
pub type UserName = Text<UserKind>;

/// Octets that are only printed or compared, as the name of a row or an identifier: no value that is kept.
/// Few of them stand in place, and take no memory of their own.
pub type Label = Text<LabelKind>;

/// The octets of a dataset's name.
pub(crate) type DatasetText = Text<DatasetKind>;

/// The names of attributes.
#[derive(Drop)]
pub struct AttributeKind;

/// The names of entries.
#[derive(Drop)]
pub struct EntryKind;

/// The names of contexts.
#[derive(Drop)]
pub struct ContextKind;

/// The names of users.
#[derive(Drop)]
pub struct UserKind;

/// What is only printed or compared.
#[derive(Drop)]
pub struct LabelKind;

/// The names of datasets.
#[derive(Drop)]
pub struct DatasetKind;

/// A kind of texts: which octets such a text may have.
pub trait TextKind {
    ghost may_be: { List ℕ → Bool };
}

/// A kind of texts that any octets are.
pub trait AnyOctets: TextKind {
    ghost any: { (octets : List ℕ) → Self.may_be octets ≡ true };
}

/// A kind of texts that are read: which octets are a name of this kind.
pub trait Named: TextKind {
    ghost is_name: { List ℕ → Bool };

    /// Whether the octets are such a name. Takes no memory.
    fn is_name(octets: &[u8]) -> bool
        ensures { result ≡ is_name octets.now };

    ghost names_are: { (octets : List ℕ) → is_name octets ≡ true → Self.may_be octets ≡ true };
}

/// Octets that are of a kind, ordered octet by octet with a proper prefix first.
#[derive(Drop)]
pub struct Text<K: TextKind> {
    octets: Compact,
    kind: PhantomData<K>,
}

impl<K: TextKind> Model for Text<K> {
    ghost use Rattle.std.specs.Prelude.{ℕ, List, IsTrue};

    ghost Value = { List ℕ };

    ghost view = { λ v. v.octets };

    ghost invariant = { λ v. IsTrue (K.may_be v.octets) };
}

impl<K: Named> Text<K> {
    /// Reads a name of this kind. `BadName` exactly where the octets are none.
    pub fn read(alloc: Global, octets: &[u8]) -> Result<Text<K>, NameFault>
        ensures good { OnOk result (IsTrue (K.is_name octets.now)) }
        ensures value { IfOk result (λ made. made ≡ octets.now) }
        ensures bad { (result ≡ Err NameFault.BadName) ↔ (K.is_name octets.now ≡ false) }
    {
        if !K::is_name(octets) {
            return Err(NameFault::BadName);
        }
        Ok(Text::copy_octets(alloc, octets)?)
    }
}

impl<K: AnyOctets> Text<K> {
    /// Any octets as they are. Takes no memory, and keeps that which they have, if they are many.
    pub fn new(octets: Octets) -> Text<K>
        ensures { result ≡ octets }
    {
        Text::of(Compact::from_vec(octets.into_vec()))
    }

    /// Any octets as they are, copied. Fails only for want of memory.
    pub fn from_slice(alloc: Global, octets: &[u8]) -> Result<Text<K>, Memory>
        ensures { IfOk result (λ made. made ≡ octets.now) }
    {
        Text::copy_octets(alloc, octets)
    }

    /// The octets of four texts, one after the other. Fails only for want of memory.
    pub(crate) fn join(
        alloc: Global,
        first: &[u8],
        second: &[u8],
        third: &[u8],
        fourth: &[u8],
    ) -> Result<Text<K>, Memory>
        ensures { IfOk result (λ made. made ≡ first.now ++ second.now ++ third.now ++ fourth.now) }
    {
        let octets = Compact::join(alloc, first, second, third, fourth)?;
        Ok(Text::of(octets))
    }
}

impl EntryName {
    /// The name of the management entry, which is empty. Takes no memory.
    pub fn of_management(alloc: Global) -> EntryName
        ensures { result ≡ [] }
    {
        Text::of(Compact::from_vec(Vec::new(alloc)))
    }
}

impl<K: TextKind> Text<K> {
    // The text of these octets, which are of the kind.
    #[inline]
    fn of(octets: Compact) -> Text<K>
        requires { IsTrue (K.may_be octets) }
        ensures { result ≡ octets }
    {
        Text {
            octets,
            kind: PhantomData,
        }
    }

    /// The text of octets that are of the kind, copied. Fails only for want of memory.
    pub(crate) fn copy_octets(alloc: Global, octets: &[u8]) -> Result<Text<K>, Memory>
        requires { IsTrue (K.may_be octets.now) }
        ensures { IfOk result (λ made. made ≡ octets.now) }
    {
        let octets = Compact::from_slice(alloc, octets)?;
        Ok(Text::of(octets))
    }

    /// The allocator that keeps them.
    pub(crate) fn allocator(&self) -> Global {
        self.octets.allocator()
    }

    /// The octets.
    #[inline]
    pub fn as_slice(&self) -> &[u8]
        ensures { result.now ≡ self.now }
    {
        self.octets.as_slice()
    }

    /// Each text is of its kind: does nothing.
    #[inline]
    pub fn form_law(&self)
        ensures { IsTrue (K.may_be self.now) }
    {
        let _ = &self.octets;
    }
}

impl<K: TextKind> Clone for Text<K> {
    ghost is_clone = { λ x y. y ≡ x };

    fn clone(&self) -> Result<Text<K>, Memory> {
        self.form_law();
        Text::copy_octets(self.allocator(), self.as_slice())
    }
}

impl<K: TextKind> Copying for Text<K> {
    fn copy(&self) -> Result<Text<K>, Memory> {
        self.clone()
    }
}

impl<K: TextKind> PartialEq for Text<K> {
    ghost eq = { pointwise nat_eq };

    ghost laws = { partial_equiv_from_equiv nat_list_eq_equiv };

    fn eq(&self, other: &Text<K>) -> bool {
        is_same(self.as_slice(), other.as_slice())
    }
}

impl<K: TextKind> Eq for Text<K> {
    ghost laws = { nat_list_eq_equiv };
}

impl<K: TextKind> PartialOrd for Text<K> {
    ghost partial_cmp = { λ x y. Some (slice_cmp nat_cmp x y) };

    ghost laws = { texts_po };

    fn partial_cmp(&self, other: &Text<K>) -> Option<Ordering> {
        Some(self.cmp(other))
    }
}

impl<K: TextKind> Ord for Text<K> {
    ghost cmp = { slice_cmp nat_cmp };

    ghost total = { nat_list_cmp_total };

    ghost matches_partial_cmp = { λ x y. refl };

    ghost matches_eq = { texts_ties };

    fn cmp(&self, other: &Text<K>) -> Ordering {
        compare(self.as_slice(), other.as_slice())
    }
}

impl TextKind for AttributeKind {
    ghost may_be = { λ octets. true };
}

impl AnyOctets for AttributeKind {
    ghost any = { λ octets. refl };
}

impl Named for AttributeKind {
    ghost is_name = { name.is_attribute };

    ghost names_are = { λ octets good. refl };

    fn is_name(octets: &[u8]) -> bool {
        names::is_attribute(octets)
    }
}

impl TextKind for EntryKind {
    ghost may_be = { name.is_entry_name };
}

impl Named for EntryKind {
    ghost is_name = { name.is_entry_name };

    ghost names_are = { λ octets good. good };

    fn is_name(octets: &[u8]) -> bool {
        names::is_entry_name(octets)
    }
}

impl TextKind for ContextKind {
    ghost may_be = { name.is_context_name };
}

impl Named for ContextKind {
    ghost is_name = { name.is_context_name };

    ghost names_are = { λ octets good. good };

    fn is_name(octets: &[u8]) -> bool {
        names::is_context_name(octets)
    }
}

impl TextKind for UserKind {
    ghost may_be = { name.is_user_name };
}

impl Named for UserKind {
    ghost is_name = { name.is_user_name };

    ghost names_are = { λ octets good. good };

    fn is_name(octets: &[u8]) -> bool {
        names::is_user_name(octets)
    }
}

impl TextKind for LabelKind {
    ghost may_be = { λ octets. true };
}

impl AnyOctets for LabelKind {
    ghost any = { λ octets. refl };
}

impl TextKind for DatasetKind {
    ghost may_be = { λ octets. true };
}

impl AnyOctets for DatasetKind {
    ghost any = { λ octets. refl };
}
