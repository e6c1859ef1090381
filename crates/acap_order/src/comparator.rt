//! Comparators: how two strings are ordered, and when they are equal (RFC 2244 section 3.4).
use crate::{casemap, numbers, octets};
use std::cmp::Ordering;

/// What a comparator compares two strings by (RFC 2244, section 3.4).
#[derive(Clone, Copy, PartialEq, Eq)]
pub enum Collation {
    /// `i;octet`: the octets of a string.
    Octet,
    /// `i;ascii-casemap`: the octets of a string, with each ASCII letter in upper case.
    AsciiCasemap,
    /// `i;ascii-numeric`: the whole number that a string begins with.
    AsciiNumeric,
}

/// Whether a comparator orders strings as its collation does, or the other way round.
#[derive(Clone, Copy, PartialEq, Eq)]
pub enum Direction {
    /// The order of the collation, named with `+` or no sign.
    Ascending,
    /// The reverse of that order, named with `-`.
    Descending,
}

/// A way to order and to match strings of octets (RFC 2244, section 3.4).
#[derive(Clone, Copy, PartialEq, Eq)]
pub struct Comparator {
    /// What strings are compared by.
    pub collation: Collation,
    /// Whether their order is reversed.
    pub direction: Direction,
}

impl Collation {
    ghost use Rattle.std.specs.Prelude.{◌≡◌};
    ghost use Rattle.acap_order.specs.Spellings.{collation_of};

    /// The collation that has this name, in any case.
    fn read(name: &[u8]) -> Option<Collation>
        ensures { result ≡ collation_of name.now }
    {
        if name.eq_ignore_ascii_case(b"i;octet") {
            Some(Collation::Octet)
        } else if name.eq_ignore_ascii_case(b"i;ascii-casemap") {
            Some(Collation::AsciiCasemap)
        } else if name.eq_ignore_ascii_case(b"i;ascii-numeric") {
            Some(Collation::AsciiNumeric)
        } else {
            None
        }
    }
}

impl Comparator {
    ghost use Rattle.std.specs.Prelude.{◌≡◌, ◌≢◌, ◌↔◌, IsTrue};
    ghost use Rattle.acap_order.specs.Ranks.{rank_of, is_numeric, comparator_cmp, comparator_eq};
    ghost use Rattle.acap_order.specs.Matching.{has_prefix, has_substring, HasPrefix, HasSubstring};
    ghost use Rattle.acap_order.specs.Spellings.{collation_of, directed_as, comparator_of};
    ghost use Rattle.acap_order.specs.declared.comparator.Collation.TheVariants.{AsciiNumeric};

    /// The comparator of this name (RFC 2244, section 3.4): `i;octet`, `i;ascii-casemap` or
    /// `i;ascii-numeric` in any case, after `+`, `-` or no sign. `None` for any other text.
    pub fn read(text: &[u8]) -> Option<Comparator>
        ensures { result ≡ comparator_of text.now }
    {
        match text.split_first() {
            Some((b'+', name)) => Comparator::of_name(name, Direction::Ascending),
            Some((b'-', name)) => Comparator::of_name(name, Direction::Descending),
            _ => Comparator::of_name(text, Direction::Ascending),
        }
    }

    /// The comparator of a collation's name, without sign, and a direction.
    fn of_name(name: &[u8], direction: Direction) -> Option<Comparator>
        ensures { result ≡ directed_as direction (collation_of name.now) }
    {
        let collation = Collation::read(name)?;
        Some(Comparator {
            collation,
            direction,
        })
    }

    /// How `a` stands to `b` (RFC 2244, section 3.4): the order of their ranks, which `-` reverses.
    pub fn cmp(&self, a: &[u8], b: &[u8]) -> Ordering
        ensures { result ≡ comparator_cmp self.now a.now b.now }
    {
        let order = match self.collation {
            Collation::Octet => a.cmp(&b),
            Collation::AsciiCasemap => casemap::compare(a, b),
            Collation::AsciiNumeric => numbers::compare(a, b),
        };
        match self.direction {
            Direction::Ascending => order,
            Direction::Descending => order.reverse(),
        }
    }

    /// Whether neither string is before the other, that is, whether their ranks are one
    /// (EQUAL of RFC 2244, section 6.4.1). A sign changes nothing.
    pub fn equal(&self, a: &[u8], b: &[u8]) -> bool
        ensures value { result ≡ comparator_eq self.now a.now b.now }
        ensures same_rank { IsTrue result
            ↔ (rank_of self.now.collation a.now ≡ rank_of self.now.collation b.now) }
    {
        self.cmp(a, b).is_eq()
    }

    /// Whether strings are compared as numbers; such a comparator has no `prefix` and no
    /// `substring` (RFC 2244, section 3.4).
    pub fn is_numeric(&self) -> bool
        ensures value { result ≡ is_numeric self.now.collation }
        ensures collation { IsTrue result ↔ (self.now.collation ≡ AsciiNumeric) }
    {
        self.collation == Collation::AsciiNumeric
    }

    /// Whether `text` begins with `pattern` (PREFIX of RFC 2244, section 6.4.1).
    pub fn prefix(&self, text: &[u8], pattern: &[u8]) -> bool
        requires { self.now.collation ≢ AsciiNumeric }
        ensures value { result ≡ has_prefix self.now text.now pattern.now }
        ensures begins { IsTrue result ↔ HasPrefix self.now text.now pattern.now }
    {
        match self.collation {
            Collation::Octet => octets::begins_with(text, pattern),
            Collation::AsciiCasemap => casemap::begins_with(text, pattern),
            Collation::AsciiNumeric => unreachable!(),
        }
    }

    /// Whether `pattern` stands somewhere in `text` (SUBSTRING of RFC 2244, section 6.4.1).
    /// The empty pattern stands in every text. It takes time by the text's length, but for a text of
    /// more than 65,536 octets without regard to case: that may take its length times the pattern's.
    pub fn substring(&self, text: &[u8], pattern: &[u8]) -> bool
        requires { self.now.collation ≢ AsciiNumeric }
        ensures value { result ≡ has_substring self.now text.now pattern.now }
        ensures stands { IsTrue result ↔ HasSubstring self.now text.now pattern.now }
    {
        match self.collation {
            Collation::Octet => octets::contains(text, pattern),
            Collation::AsciiCasemap => casemap::contains(text, pattern),
            Collation::AsciiNumeric => unreachable!(),
        }
    }
}
