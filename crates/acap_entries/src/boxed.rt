//! `Boxed`: a value on the heap, so that what holds it stays small.
ghost use Rattle.std.specs.Prelude.{◌≡◌, IfOk};

use acap_ordmap::{Copying, Memory};
use std::alloc::Global;
use std::cmp::Ordering;
use std::marker::Model;

/// A value in memory of its own, which contracts see as the value.
#[derive(Drop)]
pub struct Boxed<T> {
    held: Box<T>,
}

impl<T> Model for Boxed<T> {
    ghost Value = { T };

    ghost view = { λ b. b.held.value };
}

impl<T: Drop> Boxed<T> {
    /// The value in a box. Fails only for want of memory.
    pub fn new(alloc: Global, value: T) -> Result<Boxed<T>, Memory>
        ensures { IfOk result (λ made. made ≡ value) }
    {
        let held = Box::new(alloc, value)?;
        Ok(Boxed { held })
    }

    /// The value.
    pub fn get(&self) -> &T
        ensures { result.now ≡ self.now }
    {
        &self.held
    }

    /// The value, out of its box. Takes no memory.
    pub fn into_value(self) -> T
        ensures { result ≡ self }
    {
        Box::into_inner(self.held)
    }
}

impl<T: PartialEq> PartialEq for Boxed<T> {
    ghost eq = { T.eq };

    ghost laws = { T.laws };

    fn eq(&self, other: &Boxed<T>) -> bool {
        *self.held == *other.held
    }
}

impl<T: Eq> Eq for Boxed<T> {
    ghost laws = { T.Eq.laws };
}

impl<T: PartialOrd> PartialOrd for Boxed<T> {
    ghost partial_cmp = { T.partial_cmp };

    ghost laws = { T.PartialOrd.laws };

    fn partial_cmp(&self, other: &Boxed<T>) -> Option<Ordering> {
        self.held.partial_cmp(&other.held)
    }
}

impl<T: Ord> Ord for Boxed<T> {
    ghost cmp = { T.cmp };

    ghost total = { T.total };

    ghost matches_partial_cmp = { T.matches_partial_cmp };

    ghost matches_eq = { T.matches_eq };

    fn cmp(&self, other: &Boxed<T>) -> Ordering {
        self.held.cmp(&other.held)
    }
}

impl<T: Copying + Drop> Clone for Boxed<T> {
    ghost is_clone = { λ x y. y ≡ x };

    fn clone(&self) -> Result<Boxed<T>, Memory> {
        let value = self.held.copy()?;
        Boxed::new(*Box::allocator(&self.held), value)
    }
}

impl<T: Copying + Drop> Copying for Boxed<T> {
    fn copy(&self) -> Result<Boxed<T>, Memory> {
        self.clone()
    }
}
