//! Borrowed octets that stand for a path or an attribute in a look-up.
ghost use Rattle.std.specs.Prelude.{◌≡◌, ◌++◌, []};
ghost use Rattle.acap_entries.specs.Orders.{octets_cmp};

use crate::comparing::compare;
use crate::path::Path;
use crate::text::Attribute;
use acap_ordmap::Probe;
use std::cmp::Ordering;

/// The octets of an attribute's name.
#[derive(Drop)]
pub struct AttributeText<'a> {
    /// The octets.
    pub octets: &'a [u8],
}

impl<'a> Probe<Attribute> for AttributeText<'a> {
    ghost key = { λ p. p.octets.now };

    fn compare(&self, known: &Attribute) -> Ordering {
        compare(self.octets, known.as_slice())
    }
}

/// The octets of a path's dataset and name.
#[derive(Drop)]
pub struct PathText<'a> {
    /// The dataset.
    pub dataset: &'a [u8],
    /// The entry's name.
    pub name: &'a [u8],
}

impl<'a> Probe<Path> for PathText<'a> {
    ghost key = { λ p. record { dataset = p.dataset.now; name = p.name.now } };

    fn compare(&self, known: &Path) -> Ordering {
        match compare(self.dataset, known.dataset.as_slice()) {
            Ordering::Equal => compare(self.name, known.name.as_slice()),
            unequal => unequal,
        }
    }
}

/// The management entry of a name that is an octet after another one's octets: where a run of datasets begins or ends.
#[derive(Drop)]
pub(crate) struct Edge<'a> {
    /// The octets but for the last.
    pub(crate) front: &'a [u8],
    /// The last octet, if there is one.
    pub(crate) last: &'a [u8],
}

impl<'a> Probe<Path> for Edge<'a> {
    ghost key = { λ p. record { dataset = p.front.now ++ p.last.now; name = [] } };

    fn compare(&self, known: &Path) -> Ordering {
        match cmp_joined(self.front, self.last, known.dataset.as_slice()) {
            Ordering::Equal => compare(b"", known.name.as_slice()),
            unequal => unequal,
        }
    }
}

/// The octets of an attribute's name, one part after the other.
#[derive(Drop)]
pub struct JoinedText<'a> {
    /// The first part of the octets.
    pub front: &'a [u8],
    /// The rest of the octets.
    pub rest: &'a [u8],
}

impl<'a> Probe<Attribute> for JoinedText<'a> {
    ghost key = { λ p. p.front.now ++ p.rest.now };

    fn compare(&self, known: &Attribute) -> Ordering {
        cmp_joined(self.front, self.rest, known.as_slice())
    }
}

/// How octets that are given in two parts compare with others.
pub(crate) fn cmp_joined(front: &[u8], rest: &[u8], other: &[u8]) -> Ordering
    ensures { result ≡ octets_cmp (front.now ++ rest.now) other.now }
{
    if other.len() < front.len() {
        return compare(front, other);
    }
    let (begin, behind) = other.split_at(front.len());
    let order = compare(front, begin);
    if order.is_eq() {
        compare(rest, behind)
    } else {
        order
    }
}

// How octets that are given in two parts compare with others that are, wherever these are parted.
fn cmp_apart(front: &[u8], rest: &[u8], other_front: &[u8], other_rest: &[u8]) -> Ordering
    ensures { result ≡ octets_cmp (front.now ++ rest.now) (other_front.now ++ other_rest.now) }
{
    if other_front.starts_with(front) {
        let (_, between) = other_front.split_at(front.len());
        return cmp_joined(between, other_rest, rest).reverse();
    }
    if front.starts_with(other_front) {
        let (_, between) = front.split_at(other_front.len());
        return cmp_joined(between, rest, other_rest);
    }
    compare(front, other_front)
}

/// How octets that are given in two parts compare with others that are. Their first parts are often the same.
pub(crate) fn cmp_pairs(
    front: &[u8],
    rest: &[u8],
    other_front: &[u8],
    other_rest: &[u8],
) -> Ordering
    ensures { result ≡ octets_cmp (front.now ++ rest.now) (other_front.now ++ other_rest.now) }
{
    if compare(front, other_front).is_eq() {
        return compare(rest, other_rest);
    }
    cmp_apart(front, rest, other_front, other_rest)
}
