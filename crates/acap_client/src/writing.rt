//! A line that is being written, token by token.

ghost use Rattle.std.specs.Prelude.{◌≡◌, [], ◌++◌, true, false, IfOk, OnOk};
ghost use Rattle.acap_lexer.specs.declared.kind.Kind.TheVariants as kinds;
ghost use Rattle.acap_lexer.specs.Printing.{may_quote as may_quote_text};
ghost use Rattle.acap_grammar.specs.Spelling.{number, open_then, shut, string, time, word};
ghost use Rattle.acap_client.specs.Writing.{Writes, line_with, space_after, text_after};

use crate::quoting::may_quote;
use acap_entries::{Memory, Moment, stamp};
use acap_lexer::{Kind, print_string};
use std::alloc::Global;

/// A line that is being written: its octets so far, and what its last token is.
#[derive(Drop)]
pub(crate) struct Writing {
    pub(crate) octets: Vec<u8>,
    pub(crate) last: Kind,
}

/// Begins a line with a tag.
pub(crate) fn tagged(alloc: Global, tag: &[u8]) -> Result<Writing, Memory>
    ensures { IfOk result
        (λ made. (tokens : _) → line_with made tokens ≡ tag.now ++ text_after kinds.Tag tokens) }
{
    let octets = Vec::from_slice(alloc, tag)?;
    Ok(Writing {
        octets,
        last: Kind::Tag,
    })
}

/// Begins a line without a tag.
pub(crate) fn untagged(alloc: Global) -> Writing
    ensures { (tokens : _) → line_with result tokens ≡ text_after kinds.Open tokens }
{
    Writing {
        octets: Vec::new(alloc),
        last: Kind::Open,
    }
}

/// Adds a space, where one may stand after the last token.
fn space(writing: &mut Writing) -> Result<(), Memory>
    ensures octets { OnOk result
        (writing.new.octets.items ≡ writing.old.octets.items ++ space_after writing.old.last) }
    ensures last { writing.new.last ≡ writing.old.last }
{
    if writing.last != Kind::Open {
        writing.octets.push(b' ')?;
    }
    Ok(())
}

/// A word.
pub(crate) fn word(writing: &mut Writing, text: &[u8]) -> Result<(), Memory>
    ensures { OnOk result (Writes (word text.now) writing.old writing.new) }
{
    space(writing)?;
    writing.octets.extend_from_slice(text)?;
    writing.last = Kind::Word;
    Ok(())
}

/// A string, as a literal for which the client doesn't wait.
fn literal(writing: &mut Writing, text: &[u8]) -> Result<(), Memory>
    requires { may_quote_text text.now ≡ false }
    ensures { OnOk result (Writes (string text.now) writing.old writing.new) }
{
    space(writing)?;
    let digits = text.len().to_string(*writing.octets.allocator())?;
    writing.octets.push(b'{')?;
    writing.octets.extend_from_slice(digits.as_bytes())?;
    writing.octets.extend_from_slice(b"+}\r\n")?;
    writing.octets.extend_from_slice(text)?;
    writing.last = Kind::Literal;
    Ok(())
}

/// A string between quotes.
fn quoted(writing: &mut Writing, text: &[u8]) -> Result<(), Memory>
    requires { may_quote_text text.now ≡ true }
    ensures { OnOk result (Writes (string text.now) writing.old writing.new) }
{
    space(writing)?;
    print_string(text, &mut writing.octets)?;
    writing.last = Kind::Quoted;
    Ok(())
}

/// A string: between quotes where it may stand there, else as a literal.
pub(crate) fn string(writing: &mut Writing, text: &[u8]) -> Result<(), Memory>
    ensures { OnOk result (Writes (string text.now) writing.old writing.new) }
{
    if may_quote(text) {
        quoted(writing, text)
    } else {
        literal(writing, text)
    }
}

/// `(`
pub(crate) fn open(writing: &mut Writing) -> Result<(), Memory>
    ensures { OnOk result (Writes open_then writing.old writing.new) }
{
    space(writing)?;
    writing.octets.push(b'(')?;
    writing.last = Kind::Open;
    Ok(())
}

/// `)`
pub(crate) fn close(writing: &mut Writing) -> Result<(), Memory>
    ensures { OnOk result (Writes shut writing.old writing.new) }
{
    writing.octets.push(b')')?;
    writing.last = Kind::Close;
    Ok(())
}

/// A number.
pub(crate) fn number(writing: &mut Writing, n: u32) -> Result<(), Memory>
    ensures { OnOk result (Writes (number n) writing.old writing.new) }
{
    let digits = n.to_string(*writing.octets.allocator())?;
    word(writing, digits.as_bytes())
}

/// A time.
pub(crate) fn time(writing: &mut Writing, moment: Moment) -> Result<(), Memory>
    ensures { OnOk result (Writes (time moment) writing.old writing.new) }
{
    string(writing, &stamp(moment))
}

/// Ends the line.
pub(crate) fn finish(writing: Writing) -> Result<Vec<u8>, Memory>
    ensures { IfOk result (λ line. line.items ≡ line_with writing []) }
{
    let mut octets = writing.octets;
    octets.extend_from_slice(b"\r\n")?;
    Ok(octets)
}
