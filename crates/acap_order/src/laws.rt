//! Laws of comparators, from the definitions alone: each function does nothing, and its contract is the law.
ghost use Rattle.acap_order.specs.Laws.{OrderLaw, ReverseLaw, EqualityLaw, Examples};

/// Each comparator's order is total and transitive (RFC 2244, section 3.4).
pub fn order_law()
    ensures { OrderLaw }
{}

/// `-` reverses a comparator's order (RFC 2244, section 3.4).
pub fn reverse_law()
    ensures { ReverseLaw }
{}

/// Strings are equal to a comparator if neither is before the other, whatever its sign.
pub fn equality_law()
    ensures { EqualityLaw }
{}

/// The order of some texts, computed from the definitions alone.
pub fn example_law()
    ensures { Examples }
{}
