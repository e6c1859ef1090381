//! `Value`: a stored string, which several owners share by reference count.
ghost use Rattle.std.specs.Prelude.{◌≡◌, IfOk, Some, refl, nat_eq};
ghost use Rattle.std.specs.Cmp.Lexicographic.{pointwise, slice_cmp, texts_ties, texts_po};
ghost use Rattle.std.specs.Cmp.Lexicographic.{nat_list_eq_equiv, nat_list_cmp_total};
ghost use Rattle.std.specs.Cmp.{partial_equiv_from_equiv};
ghost use Rattle.std.specs.Ordering.{nat_cmp};

use crate::comparing::compare;
use crate::octets::Octets;
use acap_ordmap::{Copying, Memory};
use bytes::Bytes;
use std::alloc::Global;
use std::cmp::Ordering;
use std::marker::Model;

/// A string of octets that an attribute may have (RFC 2244 section 3.1), ordered octet by octet with a proper
/// prefix first. A copy holds the same octets.
#[derive(Drop)]
pub struct Value {
    octets: Bytes,
}

impl Model for Value {
    ghost use Rattle.std.specs.Prelude.{ℕ, List};

    ghost Value = { List ℕ };

    ghost view = { λ v. v.octets };
}

impl Value {
    /// Any octets as they are, in the memory that they have and a count beside them. Fails only for want of
    /// memory.
    pub fn new(octets: Octets) -> Result<Value, Memory>
        ensures { IfOk result (λ made. made ≡ octets) }
    {
        let octets = Bytes::from_vec(octets.into_vec())?;
        Ok(Value { octets })
    }

    /// The same octets, copied. Fails only for want of memory.
    pub fn from_slice(alloc: Global, octets: &[u8]) -> Result<Value, Memory>
        ensures { IfOk result (λ made. made ≡ octets.now) }
    {
        let octets = Bytes::copy_from_slice(alloc, octets)?;
        Ok(Value { octets })
    }

    /// Octets of the program itself. Takes no memory.
    pub fn from_static(octets: &'static [u8]) -> Value
        ensures { result ≡ octets.now }
    {
        Value {
            octets: Bytes::from_static(octets),
        }
    }

    /// The octets.
    #[inline]
    pub fn as_slice(&self) -> &[u8]
        ensures { result.now ≡ self.now }
    {
        self.octets.as_slice()
    }

    /// The octets, as they are shared. Takes no memory.
    #[inline]
    pub fn shared(&self) -> &Bytes
        ensures { result.now ≡ self.now }
    {
        &self.octets
    }
}

impl Clone for Value {
    ghost is_clone = { λ x y. y ≡ x };

    fn clone(&self) -> Result<Value, Memory> {
        let octets = self.octets.clone()?;
        Ok(Value { octets })
    }
}

impl Copying for Value {
    fn copy(&self) -> Result<Value, Memory> {
        self.clone()
    }
}

impl PartialEq for Value {
    ghost eq = { pointwise nat_eq };

    ghost laws = { partial_equiv_from_equiv nat_list_eq_equiv };

    fn eq(&self, other: &Value) -> bool {
        self.as_slice() == other.as_slice()
    }
}

impl Eq for Value {
    ghost laws = { nat_list_eq_equiv };
}

impl PartialOrd for Value {
    ghost partial_cmp = { λ x y. Some (slice_cmp nat_cmp x y) };

    ghost laws = { texts_po };

    fn partial_cmp(&self, other: &Value) -> Option<Ordering> {
        Some(self.cmp(other))
    }
}

impl Ord for Value {
    ghost cmp = { slice_cmp nat_cmp };

    ghost total = { nat_list_cmp_total };

    ghost matches_partial_cmp = { λ x y. refl };

    ghost matches_eq = { texts_ties };

    fn cmp(&self, other: &Value) -> Ordering {
        compare(self.as_slice(), other.as_slice())
    }
}
