//! Octets with ASCII letters in upper case, compared as they are read, or searched in a copy on the stack.
ghost use Rattle.std.specs.Prelude.{◌≡◌, ◌≤◌, length, nat_eq};
ghost use Rattle.std.specs.List.{starts_with};
ghost use Rattle.acap_order.specs.Ranks.{upper_case_of, upper_case, octets_cmp};
ghost use Rattle.acap_order.specs.Matching.{stands};

use crate::octets;
use std::cmp::Ordering;

/// An octet, or the capital of a small letter.
fn to_upper_case(octet: u8) -> u8
    ensures { result ≡ upper_case_of octet }
{
    octet.to_ascii_uppercase()
}

/// The order of two texts in upper case.
pub(crate) fn compare(a: &[u8], b: &[u8]) -> Ordering
    ensures { result ≡ octets_cmp (upper_case a.now) (upper_case b.now) }
{
    let mut left = a;
    let mut right = b;
    while let Some((x, xs)) = left.split_first() {
        match right.split_first() {
            Some((y, ys)) => {
                match to_upper_case(*x).cmp(&to_upper_case(*y)) {
                    Ordering::Equal => {}
                    other => return other,
                }
                left = xs;
                right = ys;
            }
            None => return Ordering::Greater,
        }
    }
    if right.is_empty() {
        Ordering::Equal
    } else {
        Ordering::Less
    }
}

/// Whether the text begins with the pattern, both in upper case.
pub(crate) fn begins_with(text: &[u8], pattern: &[u8]) -> bool
    ensures { result ≡ starts_with nat_eq (upper_case text.now) (upper_case pattern.now) }
{
    let mut left = text;
    let mut wanted = pattern;
    while let Some((y, ys)) = wanted.split_first() {
        match left.split_first() {
            Some((x, xs)) if to_upper_case(*x) == to_upper_case(*y) => {
                left = xs;
                wanted = ys;
            }
            _ => return false,
        }
    }
    true
}

/// Whether the pattern stands somewhere in the text, both in upper case. A text of up to 65,536 octets, which is what
/// the store takes, takes time by its length; a longer one may take its length times the pattern's.
#[inline(never)]
pub(crate) fn contains(text: &[u8], pattern: &[u8]) -> bool
    ensures { result ≡ stands (upper_case text.now) (upper_case pattern.now) }
{
    let length = text.len();
    if pattern.len() > length {
        false
    } else if length <= 64 || length > 65_536 {
        contains_by_places(text, pattern)
    } else if length <= 1_024 {
        contains_by_copy::<1_024>(text, pattern)
    } else if length <= 8_192 {
        contains_by_copy::<8_192>(text, pattern)
    } else {
        contains_by_copy::<65_536>(text, pattern)
    }
}

/// The same, by a look at each place: in time by the text's length times the pattern's.
fn contains_by_places(text: &[u8], pattern: &[u8]) -> bool
    ensures { result ≡ stands (upper_case text.now) (upper_case pattern.now) }
{
    let Some((first, others)) = pattern.split_first() else {
        return true;
    };
    let first = to_upper_case(*first);
    let mut rest = text;
    while let Some((octet, after)) = rest.split_first() {
        if to_upper_case(*octet) == first && begins_with(after, others) {
            return true;
        }
        rest = after;
    }
    false
}

/// The same for a text of at most `N` octets, by a search in copies of both: in time by `N`. It stays a call, since a
/// function takes time for all its room at each call.
#[inline(never)]
fn contains_by_copy<const N: usize>(text: &[u8], pattern: &[u8]) -> bool
    requires room { N ≤ 65536 }
    requires fits { length text.now ≤ N }
    requires shorter { length pattern.now ≤ length text.now }
    ensures { result ≡ stands (upper_case text.now) (upper_case pattern.now) }
{
    let mut text_room = [0; N];
    let mut pattern_room = [0; N];
    octets::contains(
        copy_upper(text, &mut text_room),
        copy_upper(pattern, &mut pattern_room),
    )
}

/// The text in upper case, written to the beginning of the room.
fn copy_upper<'a>(text: &[u8], room: &'a mut [u8]) -> &'a [u8]
    requires { length text.now ≤ length room.old }
    ensures { result.now ≡ upper_case text.now }
{
    let front = &mut room[..text.len()];
    front.copy_from_slice(text);
    front.make_ascii_uppercase();
    front
}
