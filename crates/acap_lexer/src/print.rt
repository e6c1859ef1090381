//! Prints a string as a quoted string or as a literal.

ghost use Rattle.std.specs.Prelude.{◌≡◌, ◌++◌, ◌∷◌, [], OnOk, OnErr, IsTrue, nat_le, length, count_by};
ghost use Rattle.std.specs.List.{list_all};
ghost use Rattle.acap_lexer.specs.Octets.{is_escaped as is_escaped_octet, is_plain as is_plain_octet, quote};
ghost use Rattle.std.specs.Str.{is_utf8};
ghost use Rattle.acap_lexer.specs.Printing.{escaped_form, is_printable, may_quote, quoted_form};
ghost use Rattle.acap_lexer.specs.Printing.{literal, printed_form, Grows};
ghost use Rattle.acap_lexer.specs.Escapes.{SplitsAtEscape};

use crate::fault::Memory;
use crate::octets::{is_escaped, is_plain};
use memchr::{memchr2, memchr3};

const QUOTED_LIMIT: usize = 1024;

/// The most octets of a text that is looked at octet by octet.
const SCANNED: usize = 64;

/// How many octets want a backslash.
fn escapes(text: &[u8]) -> usize
    ensures { result ≡ count_by is_escaped_octet text.now }
{
    text.iter().filter(|c| is_escaped(**c)).count()
}

/// Whether the escaped form is short enough. A text of half that length is, whatever its octets.
#[tactic(auto, using(crate::proofs::PrintedLength::short_rules))]
fn is_short(text: &[u8]) -> bool
    ensures { result ≡ nat_le (length (escaped_form text.now)) 1024 }
{
    if text.len() <= QUOTED_LIMIT / 2 {
        return true;
    }
    text.len() <= QUOTED_LIMIT && text.len() + escapes(text) <= QUOTED_LIMIT
}

fn is_text(text: &[u8]) -> bool
    ensures { result ≡ is_utf8 text.now }
{
    match str::from_utf8(text) {
        Ok(_) => true,
        Err(_) => false,
    }
}

fn all_printable(text: &[u8]) -> bool
    ensures { result ≡ list_all is_printable text.now }
{
    match memchr3(0, b'\n', b'\r', text) {
        None => true,
        Some(_) => false,
    }
}

#[tactic(auto, unfolding(crate::specs::Printing::may_quote))]
fn may_quote(text: &[u8]) -> bool
    ensures { result ≡ may_quote text.now }
{
    is_short(text) && is_text(text) && all_printable(text)
}

/// What stands before the first octet that wants a backslash, that octet, and what stands after it.
fn split_at_escape(text: &[u8]) -> Option<(&[u8], u8, &[u8])>
    ensures { SplitsAtEscape text.now result }
{
    match memchr2(b'"', b'\\', text) {
        None => None,
        Some(at) => {
            let (run, rest) = text.split_at(at);
            let (escape, behind) = rest.split_first()?;
            Some((run, *escape, behind))
        }
    }
}

fn append_escaped(text: &[u8], out: &mut Vec<u8>) -> Result<(), Memory>
    ensures ok { OnOk result (out.new.items ≡ out.old.items ++ escaped_form text.now) }
    ensures grows { Grows out.old.items out.new.items }
{
    let mut left = text;
    'escapes: while let Some((run, escape, behind)) = split_at_escape(left) {
        out.extend_from_slice(run)?;
        out.push(b'\\')?;
        out.push(escape)?;
        left = behind;
    }
    out.extend_from_slice(left)?;
    Ok(())
}

#[tactic(auto, unfolding(crate::specs::Printing::quoted_form))]
fn append_quoted(text: &[u8], out: &mut Vec<u8>) -> Result<(), Memory>
    ensures ok { OnOk result (out.new.items ≡ out.old.items ++ quoted_form text.now) }
    ensures grows { Grows out.old.items out.new.items }
{
    out.reserve(text.len() + 2)?;
    out.push(b'"')?;
    append_escaped(text, out)?;
    out.push(b'"')?;
    Ok(())
}

#[tactic(auto, unfolding(crate::specs::Printing::literal))]
fn append_literal(text: &[u8], out: &mut Vec<u8>) -> Result<(), Memory>
    ensures ok { OnOk result (out.new.items ≡ out.old.items ++ literal text.now) }
    ensures grows { Grows out.old.items out.new.items }
{
    let digits = text.len().to_string(*out.allocator())?;
    out.push(b'{')?;
    out.extend_from_slice(digits.as_bytes())?;
    out.extend_from_slice(b"}\r\n")?;
    out.extend_from_slice(text)?;
    Ok(())
}

#[tactic(auto, unfolding(crate::specs::Printing::printed_form))]
fn append_string(text: &[u8], out: &mut Vec<u8>) -> Result<(), Memory>
    ensures ok { OnOk result (out.new.items ≡ out.old.items ++ printed_form text.now) }
    ensures grows { Grows out.old.items out.new.items }
{
    if is_plain_text(text) {
        append_plain(text, out)
    } else if may_quote(text) {
        append_quoted(text, out)
    } else {
        append_literal(text, out)
    }
}

fn all_plain(text: &[u8]) -> bool
    ensures { result ≡ list_all is_plain_octet text.now }
{
    text.iter().all(|c| is_plain(*c))
}

/// Whether a text is known to stand between quotes as it is.
#[tactic(auto, using(crate::proofs::PlainTexts::plain_form))]
fn is_plain_text(text: &[u8]) -> bool
    ensures { IsTrue result → printed_form text.now ≡ quote ∷ [] ++ text.now ++ quote ∷ [] }
{
    text.len() <= SCANNED && all_plain(text)
}

fn append_plain(text: &[u8], out: &mut Vec<u8>) -> Result<(), Memory>
    ensures ok { OnOk result (out.new.items ≡ out.old.items ++ (quote ∷ [] ++ text.now ++ quote ∷ [])) }
    ensures grows { Grows out.old.items out.new.items }
{
    out.reserve(text.len() + 2)?;
    out.push(b'"')?;
    out.extend_from_slice(text)?;
    out.push(b'"')?;
    Ok(())
}

/// Adds the printed form of the string: the whole of it, or nothing.
pub fn print_string(text: &[u8], out: &mut Vec<u8>) -> Result<(), Memory>
    ensures ok { OnOk result (out.new.items ≡ out.old.items ++ printed_form text.now) }
    ensures err { OnErr result (out.new.items ≡ out.old.items) }
{
    let len = out.len();
    let done = append_string(text, out);
    if done.is_err() {
        out.truncate(len);
    }
    done
}
