//! `Shared`: a list that several owners share by reference count.
ghost use Rattle.std.specs.Prelude.{◌≡◌, ◌==◌, [], IfOk, MatchResult, length};
ghost use Rattle.std.specs.Arc.{arc_value};
ghost use Rattle.std.specs.Cmp.Lexicographic.{pointwise, lists_per, lists_equiv};

use crate::sequence::Sequence;
use crate::value::Value;
use acap_ordmap::{Copying, Memory};
use std::alloc::Global;
use std::marker::Model;
use std::sync::Arc;

/// A list of strings, as a multi-valued attribute or an access control list has (RFC 2244 section 3.1).
pub type Values = Shared<Value>;

/// Items one after the other, which contracts see as their list. A copy holds the same list, whatever its
/// length. No items take no memory.
#[derive(Drop)]
pub struct Shared<T> {
    held: Option<Arc<Sequence<T>, Global>>,
}

impl<T> Model for Shared<T> {
    ghost use Rattle.std.specs.Prelude.{List, []};
    ghost use Rattle.std.specs.Arc.{arc_value};
    ghost use Rattle.std.specs.Option.{option_map_or};

    ghost Value = { List T };

    ghost view = { λ v. option_map_or arc_value v.held [] };
}

impl<T: Drop> Shared<T> {
    /// None. Takes no memory.
    pub fn none() -> Shared<T>
        ensures { result ≡ [] }
    {
        Shared { held: None }
    }

    /// These items, in the memory that they have and a count beside them. Fails only for want of memory.
    pub fn new(items: Sequence<T>) -> Result<Shared<T>, Memory>
        ensures { IfOk result (λ made. made ≡ items) }
    {
        match Shared::hold(items) {
            Ok(made) => Ok(made),
            Err(_) => Err(Memory),
        }
    }

    /// The same, which hands the items back where memory is refused.
    pub fn hold(items: Sequence<T>) -> Result<Shared<T>, Sequence<T>>
        ensures { MatchResult result (λ made. made ≡ items) (λ same. same ≡ items) }
    {
        if items.is_empty() {
            return Ok(Shared::none());
        }
        match Arc::new(items.allocator(), items) {
            Ok(held) => Ok(Shared { held: Some(held) }),
            Err(refused) => Err(refused.value),
        }
    }

    /// The items in their order.
    pub fn as_slice(&self) -> &[T]
        ensures { result.now ≡ self.now }
    {
        match &self.held {
            None => &[],
            Some(held) => (&**held).as_slice(),
        }
    }

    /// Whether there are none.
    pub fn is_empty(&self) -> bool
        ensures { result ≡ (length self.now == 0) }
    {
        self.as_slice().is_empty()
    }
}

impl<T: Copying + Drop> Shared<T> {
    /// The items themselves where nobody else holds them, and else copies. Fails only for want of memory, and
    /// hands the list back then.
    pub fn into_own(self, alloc: Global) -> Result<Sequence<T>, Shared<T>>
        ensures { MatchResult result (λ items. items ≡ self) (λ same. same ≡ self) }
    {
        let Some(held) = self.held else {
            return Ok(Sequence::new(alloc));
        };
        match Arc::try_unwrap(held) {
            Ok(items) => Ok(items),
            Err(held) => copy_held(held),
        }
    }
}

// Copies of items that somebody else holds too, or the list itself.
fn copy_held<T: Copying + Drop>(held: Arc<Sequence<T>, Global>) -> Result<Sequence<T>, Shared<T>>
    ensures { MatchResult result (λ items. items ≡ arc_value held) (λ same. same ≡ arc_value held) }
{
    match (&*held).copy() {
        Ok(items) => Ok(items),
        Err(_) => Err(Shared { held: Some(held) }),
    }
}

impl<T: Drop> Clone for Shared<T> {
    ghost is_clone = { λ x y. y ≡ x };

    fn clone(&self) -> Result<Shared<T>, Memory> {
        let Some(held) = &self.held else {
            return Ok(Shared::none());
        };
        let held = Arc::try_clone(held)?;
        Ok(Shared { held: Some(held) })
    }
}

impl<T: Drop> Copying for Shared<T> {
    fn copy(&self) -> Result<Shared<T>, Memory> {
        self.clone()
    }
}

impl<T: PartialEq + Drop> PartialEq for Shared<T> {
    ghost eq = { pointwise T.eq };

    ghost laws = { lists_per T.laws };

    fn eq(&self, other: &Shared<T>) -> bool {
        self.as_slice() == other.as_slice()
    }
}

impl<T: Eq + Drop> Eq for Shared<T> {
    ghost laws = { lists_equiv T.Eq.laws };
}
