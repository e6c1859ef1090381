//! PREFIX and SUBSTRING of octets as they are.
ghost use Rattle.std.specs.Prelude.{◌≡◌, nat_eq};
ghost use Rattle.std.specs.List.{starts_with};
ghost use Rattle.acap_order.specs.Matching.{stands};

use memchr::memmem;

/// Whether the text begins with the pattern.
pub(crate) fn begins_with(text: &[u8], pattern: &[u8]) -> bool
    ensures { result ≡ starts_with nat_eq text.now pattern.now }
{
    text.starts_with(pattern)
}

/// Whether the pattern stands somewhere in the text, in time by the text's length: a longer pattern isn't looked at. It
/// stays a call, since whoever compares in another way needs none of its room.
#[inline(never)]
pub(crate) fn contains(text: &[u8], pattern: &[u8]) -> bool
    ensures { result ≡ stands text.now pattern.now }
{
    if pattern.len() > text.len() {
        return false;
    }
    memmem::find(text, pattern).is_some()
}
