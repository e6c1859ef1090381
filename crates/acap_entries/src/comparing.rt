//! The order and equality of octets, eight at a time.
ghost use Rattle.std.specs.Prelude.{◌≡◌, ◌<◌, length, IfSome};
ghost use Rattle.std.specs.Ordering.{ordering_then};
ghost use Rattle.acap_entries.specs.Orders.{octets_cmp, octets_eq};

use std::cmp::Ordering;

// How eight octets compare with others: as the numbers that they are with the first octet as the highest.
#[inline]
fn by_word(a: &[u8; 8], b: &[u8; 8]) -> Ordering
    ensures { result ≡ octets_cmp a.now b.now }
{
    u64::from_be_bytes(*a).cmp(&u64::from_be_bytes(*b))
}

// How four octets compare with others, in the same way.
#[inline]
fn by_half(a: &[u8; 4], b: &[u8; 4]) -> Ordering
    ensures { result ≡ octets_cmp a.now b.now }
{
    u32::from_be_bytes(*a).cmp(&u32::from_be_bytes(*b))
}

// How two texts compare by their first octets, and what is left of both.
#[derive(Clone, Copy)]
struct Step<'a> {
    order: Ordering,
    left: &'a [u8],
    right: &'a [u8],
}

// How two texts of at least eight octets compare by the first eight.
#[inline]
fn step_by_word<'a>(a: &'a [u8], b: &'a [u8]) -> Option<Step<'a>>
    ensures order { IfSome result
        (λ step. ordering_then step.order (octets_cmp step.left.now step.right.now) ≡ octets_cmp a.now b.now) }
    ensures shorter { IfSome result (λ step. length step.left.now < length a.now) }
{
    let (first, left) = a.split_first_chunk::<8>()?;
    let (second, right) = b.split_first_chunk::<8>()?;
    Some(Step {
        order: by_word(first, second),
        left,
        right,
    })
}

// How two texts of at least four octets compare by the first four.
#[inline]
fn step_by_half<'a>(a: &'a [u8], b: &'a [u8]) -> Option<Step<'a>>
    ensures { IfSome result
        (λ step. ordering_then step.order (octets_cmp step.left.now step.right.now) ≡ octets_cmp a.now b.now) }
{
    let (first, left) = a.split_first_chunk::<4>()?;
    let (second, right) = b.split_first_chunk::<4>()?;
    Some(Step {
        order: by_half(first, second),
        left,
        right,
    })
}

// How octets compare with others, one after the other.
fn by_octets(a: &[u8], b: &[u8]) -> Ordering
    ensures { result ≡ octets_cmp a.now b.now }
{
    let mut left = a;
    let mut right = b;
    'octets: while let Some((x, others)) = left.split_first() {
        let Some((y, rest)) = right.split_first() else {
            return Ordering::Greater;
        };
        if x != y {
            return x.cmp(y);
        }
        left = others;
        right = rest;
    }
    if right.is_empty() {
        Ordering::Equal
    } else {
        Ordering::Less
    }
}

/// How octets compare with others, octet by octet with a proper prefix first. Takes no memory.
pub(crate) fn compare(a: &[u8], b: &[u8]) -> Ordering
    ensures { result ≡ octets_cmp a.now b.now }
{
    let mut left = a;
    let mut right = b;
    'words: while let Some(step) = step_by_word(left, right) {
        if step.order.is_ne() {
            return step.order;
        }
        left = step.left;
        right = step.right;
    }
    match step_by_half(left, right) {
        Some(step) => step.order.then_with(|| by_octets(step.left, step.right)),
        None => by_octets(left, right),
    }
}

/// Whether octets are the same, word by word: quicker than slices are where they are few. Takes no memory.
pub fn is_same(a: &[u8], b: &[u8]) -> bool
    ensures { result ≡ octets_eq a.now b.now }
{
    a.len() == b.len() && compare(a, b).is_eq()
}
