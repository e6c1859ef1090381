//! Which octets may stand in a word, in a tag and in a quoted string.

ghost use Rattle.std.specs.Prelude.{◌≡◌};
ghost use Rattle.acap_lexer.specs.Octets.{is_word, is_tag, is_quotable, is_plain, is_escaped, is_digit};

/// Where each octet may stand: `0` nowhere as itself, `1` in a quoted string, `2` there as a character alone, `3` in a word too,
/// `4` in a tag too.
static CLASSES: [u8; 256] = *b"\
    02222222220220222222222222222222\
    24044444223344444444444444444444\
    44444444444444444444444444440444\
    44444444444444444444444444424442\
    11111111111111111111111111111111\
    11111111111111111111111111111111\
    11111111111111111111111111111111\
    11111111111111111111111111111111";

#[inline]
pub(crate) fn is_word(c: u8) -> bool
    ensures { result ≡ is_word c }
{
    CLASSES[c as usize] >= b'3'
}

#[inline]
pub(crate) fn is_tag(c: u8) -> bool
    ensures { result ≡ is_tag c }
{
    CLASSES[c as usize] == b'4'
}

#[inline]
pub(crate) fn is_quotable(c: u8) -> bool
    ensures { result ≡ is_quotable c }
{
    CLASSES[c as usize] != b'0'
}

#[inline]
pub(crate) fn is_plain(c: u8) -> bool
    ensures { result ≡ is_plain c }
{
    CLASSES[c as usize] >= b'2'
}

#[tactic(auto, unfolding(crate::specs::Octets::is_escaped))]
pub(crate) fn is_escaped(c: u8) -> bool
    ensures { result ≡ is_escaped c }
{
    matches!(c, b'"' | b'\\')
}

#[tactic(auto, unfolding(crate::specs::Octets::is_digit))]
pub(crate) fn is_digit(c: u8) -> bool
    ensures { result ≡ is_digit c }
{
    c.is_ascii_digit()
}
