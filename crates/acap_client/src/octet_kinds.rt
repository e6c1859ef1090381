//! Which octets may stand in a word, in a quoted string and after a backslash.

ghost use Rattle.std.specs.Prelude.{◌≡◌};
ghost use Rattle.acap_lexer.specs.Octets.{is_word, is_quotable, is_escaped, is_digit};

/// Whether the octet may stand in a word.
#[inline]
#[tactic(auto, unfolding(acap_lexer::specs::Octets::is_word))]
pub(crate) fn is_word(c: u8) -> bool
    ensures { result ≡ is_word c }
{
    matches!(c, 0x21 | 0x23..=0x27 | 0x2A..=0x5B | 0x5D..=0x7A | 0x7C..=0x7E)
}

/// Whether the octet may stand between quotes as itself.
#[inline]
#[tactic(auto, unfolding(acap_lexer::specs::Octets::is_quotable))]
pub(crate) fn is_quotable(c: u8) -> bool
    ensures { result ≡ is_quotable c }
{
    !matches!(c, 0 | b'\n' | b'\r' | b'"' | b'\\')
}

/// Whether the octet may follow a backslash.
#[inline]
#[tactic(auto, unfolding(acap_lexer::specs::Octets::is_escaped))]
pub(crate) fn is_escaped(c: u8) -> bool
    ensures { result ≡ is_escaped c }
{
    matches!(c, b'"' | b'\\')
}

/// Whether the octet is a decimal digit.
#[inline]
#[tactic(auto, unfolding(acap_lexer::specs::Octets::is_digit))]
pub(crate) fn is_digit(c: u8) -> bool
    ensures { result ≡ is_digit c }
{
    c.is_ascii_digit()
}
