//! One test of a key: an attribute, a comparator and a value.
ghost use Rattle.std.specs.Prelude.{◌≡◌, ◌↔◌, IsTrue};

use acap_entries::{Attribute, Copying, Label, Memory, Moment};
use acap_order::Comparator;

/// How a value is to stand to the string of a key (RFC 2244 section 6.4.1).
#[derive(Clone, Copy, PartialEq, Eq)]
pub enum Relation {
    /// EQUAL: neither is before the other.
    Equal,
    /// COMPARE: the value isn't before the string.
    AtLeast,
    /// COMPARESTRICT: the value is after the string.
    Greater,
    /// PREFIX: the value begins with the string.
    Begins,
    /// SUBSTRING: the string stands in the value.
    Contains,
}

/// What a key asks of an entry (RFC 2244 section 6.4.1).
#[derive(Clone, PartialEq, Eq, Drop)]
pub enum Test {
    /// ALL: nothing.
    All,
    /// EQUAL with NIL: the attribute has no value.
    IsNil(Attribute, Comparator),
    /// EQUAL, COMPARE, COMPARESTRICT, PREFIX or SUBSTRING: a value of the attribute stands so to the string.
    Meets(Relation, Attribute, Comparator, Label),
    /// RANGE: the entry stands in the context at a position from the first to the second, and no position was sent
    /// anew since that time.
    Range(u32, u32, Moment),
}

impl Test {
    /// Whether two of them are equal, as `==` says it. Takes no memory.
    pub fn equals(&self, other: &Test) -> bool
        ensures { IsTrue result ↔ (self.now ≡ other.now) }
    {
        *self == *other
    }
}

impl Copying for Test {
    fn copy(&self) -> Result<Test, Memory> {
        self.clone()
    }
}
