//! Which strings are written as quoted strings, and which as literals.

ghost use Rattle.std.specs.Prelude.{◌≡◌, nat_le, length, count_by};
ghost use Rattle.std.specs.List.{list_all};
ghost use Rattle.std.specs.Str.{is_utf8};
ghost use Rattle.acap_lexer.specs.Octets.{is_escaped as is_escaped_octet};
ghost use Rattle.acap_lexer.specs.Printing.{escaped_form, is_printable as is_printable_octet, may_quote};

use crate::octet_kinds::is_escaped;

/// The most octets between quotes, backslashes counted (RFC 2244 section 8).
const QUOTED_LIMIT: usize = 1024;

/// How many octets want a backslash.
fn escapes(text: &[u8]) -> usize
    ensures { result ≡ count_by is_escaped_octet text.now }
{
    text.iter().filter(|c| is_escaped(**c)).count()
}

/// Whether the string is short enough with its backslashes.
#[tactic(auto, using(acap_lexer::proofs::PrintedLength::short_rules))]
fn is_short(text: &[u8]) -> bool
    ensures { result ≡ nat_le (length (escaped_form text.now)) 1024 }
{
    text.len() <= QUOTED_LIMIT && text.len() + escapes(text) <= QUOTED_LIMIT
}

fn is_text(text: &[u8]) -> bool
    ensures { result ≡ is_utf8 text.now }
{
    match str::from_utf8(text) {
        Ok(_) => true,
        Err(_) => false,
    }
}

#[tactic(auto, unfolding(acap_lexer::specs::Printing::is_printable))]
fn is_printable(c: u8) -> bool
    ensures { result ≡ is_printable_octet c }
{
    !matches!(c, 0 | b'\n' | b'\r')
}

fn are_printable(text: &[u8]) -> bool
    ensures { result ≡ list_all is_printable_octet text.now }
{
    text.iter().all(|c| is_printable(*c))
}

/// Whether a string may stand between quotes (RFC 2244 section 8).
#[tactic(auto, unfolding(acap_lexer::specs::Printing::may_quote))]
pub(crate) fn may_quote(text: &[u8]) -> bool
    ensures { result ≡ may_quote text.now }
{
    is_short(text) && is_text(text) && are_printable(text)
}
