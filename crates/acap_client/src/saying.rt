//! Reads a line's tokens as what it says.

ghost use Rattle.std.specs.Prelude.{◌≡◌, Some, bytes_eq, option_map};
ghost use Rattle.acap_grammar.specs.Lines.{alone, coded, texted, texts_of, of_entry, added_to};
ghost use Rattle.acap_grammar.specs.Lines.{removed_from, changed};
ghost use Rattle.acap_grammar.specs.Lines.{modtime, tagged, untagged, worded, line_of};
ghost use Rattle.acap_grammar.specs.Lines as lines;
ghost use Rattle.acap_client.specs.Arguments.{data_in};
ghost use Rattle.acap_client.specs.Saying.{Says, ending_of, once, tag_in, twice};

use crate::arguments::{are_texts, coded, number, text_alone};
use crate::data::Data;
use crate::line::{Ending, Line};

/// Whether a word is this one.
fn is(word: &[u8], wanted: &[u8]) -> bool
    ensures { result ≡ bytes_eq word.now wanted.now }
{
    word == wanted
}

// ---- under a tag or `*`

/// The end of a command.
fn completion<'a>(tag: Option<&'a [u8]>, ending: Ending, args: &Data<'a>) -> Option<Line<'a>>
    ensures { Says result
        (coded (lines.Completion (tag_in tag.entry) (ending_of ending)) (data_in args.now)) }
{
    let (code, text) = coded(args)?;
    Some(Line::Completion(tag, ending, code, text))
}

/// An entry that a search finds.
fn entry<'a>(tag: Option<&'a [u8]>, args: &Data<'a>) -> Option<Line<'a>>
    ensures { Says result
        (texted (λ name items. Some (lines.Entry (tag_in tag.entry) name items)) (data_in args.now)) }
{
    let (name, data) = args.text()?;
    Some(Line::Entry(tag, name, data))
}

/// The moment of a search.
fn moment<'a>(tag: Option<&'a [u8]>, args: &Data<'a>) -> Option<Line<'a>>
    ensures { Says result
        (texted (λ stamp. alone (lines.Moment (tag_in tag.entry) stamp)) (data_in args.now)) }
{
    Some(Line::Moment(tag, text_alone(args)?))
}

/// An entry that was deleted.
fn deleted<'a>(tag: Option<&'a [u8]>, args: &Data<'a>) -> Option<Line<'a>>
    ensures { Says result
        (texted (λ name. alone (lines.Deleted (tag_in tag.entry) name)) (data_in args.now)) }
{
    Some(Line::Deleted(tag, text_alone(args)?))
}

/// The rights that the client has.
fn rights<'a>(tag: Option<&'a [u8]>, args: &Data<'a>) -> Option<Line<'a>>
    ensures { Says result
        (texted (λ rights. alone (lines.Rights (tag_in tag.entry) rights)) (data_in args.now)) }
{
    Some(Line::Rights(tag, text_alone(args)?))
}

/// The rights that may be granted.
fn rights_list<'a>(tag: Option<&'a [u8]>, args: &Data<'a>) -> Option<Line<'a>>
    ensures { Says result (option_map (lines.RightsList (tag_in tag.entry)) (texts_of (data_in args.now))) }
{
    if are_texts(args) {
        Some(Line::RightsList(tag, *args))
    } else {
        None
    }
}

/// A line under a tag or `*`, by the word that follows.
fn tagged<'a>(tag: Option<&'a [u8]>, word: &[u8], args: &Data<'a>) -> Option<Line<'a>>
    ensures { Says result (tagged (tag_in tag.entry) word.now (data_in args.now)) }
{
    if is(word, b"OK") {
        completion(tag, Ending::Done, args)
    } else if is(word, b"NO") {
        completion(tag, Ending::Failed, args)
    } else if is(word, b"BAD") {
        completion(tag, Ending::Wrong, args)
    } else if is(word, b"ENTRY") {
        entry(tag, args)
    } else if is(word, b"MODTIME") {
        moment(tag, args)
    } else if is(word, b"DELETED") {
        deleted(tag, args)
    } else if is(word, b"MYRIGHTS") {
        rights(tag, args)
    } else if is(word, b"LISTRIGHTS") {
        rights_list(tag, args)
    } else {
        None
    }
}

// ---- under `*` alone

/// What stands after the name of an entry that has come into a context.
fn added_to<'a>(context: &'a [u8], entry: &'a [u8], args: &Data<'a>) -> Option<Line<'a>>
    ensures { Says result (added_to context.entry.now entry.entry.now (data_in args.now)) }
{
    let (position, data) = number(args)?;
    Some(Line::AddTo(context, entry, position, data))
}

/// An entry that has come into a context.
fn added<'a>(args: &Data<'a>) -> Option<Line<'a>>
    ensures { Says result (of_entry added_to (data_in args.now)) }
{
    let (context, args) = args.text()?;
    let (entry, args) = args.text()?;
    added_to(context, entry, &args)
}

/// What stands after the name of an entry that has gone from a context.
fn removed_from<'a>(context: &'a [u8], entry: &'a [u8], args: &Data<'a>) -> Option<Line<'a>>
    ensures { Says result (removed_from context.entry.now entry.entry.now (data_in args.now)) }
{
    let (position, rest) = number(args)?;
    if rest.is_empty() {
        Some(Line::RemoveFrom(context, entry, position))
    } else {
        None
    }
}

/// An entry that has gone from a context.
fn removed<'a>(args: &Data<'a>) -> Option<Line<'a>>
    ensures { Says result (of_entry removed_from (data_in args.now)) }
{
    let (context, args) = args.text()?;
    let (entry, args) = args.text()?;
    removed_from(context, entry, &args)
}

/// What stands after the name of an entry of a context that has changed.
fn changed_at<'a>(context: &'a [u8], entry: &'a [u8], args: &Data<'a>) -> Option<Line<'a>>
    ensures { Says result (changed context.entry.now entry.entry.now (data_in args.now)) }
{
    let (old, args) = number(args)?;
    let (new, data) = number(&args)?;
    Some(Line::Change(context, entry, old, new, data))
}

/// An entry of a context that has changed.
fn changed<'a>(args: &Data<'a>) -> Option<Line<'a>>
    ensures { Says result (of_entry changed (data_in args.now)) }
{
    let (context, args) = args.text()?;
    let (entry, args) = args.text()?;
    changed_at(context, entry, &args)
}

/// A moment: of a context, if two strings follow.
fn modtime<'a>(args: &Data<'a>) -> Option<Line<'a>>
    ensures { Says result (texted modtime (data_in args.now)) }
{
    let (first, rest) = args.text()?;
    if rest.is_empty() {
        return Some(Line::Moment(None, first));
    }
    Some(Line::UpTo(first, text_alone(&rest)?))
}

/// A text for people.
fn alert<'a>(args: &Data<'a>) -> Option<Line<'a>>
    ensures { Says result (texted (λ text. alone (lines.Alert text)) (data_in args.now)) }
{
    Some(Line::Alert(text_alone(args)?))
}

/// The end of the session.
fn bye<'a>(args: &Data<'a>) -> Option<Line<'a>>
    ensures { Says result (coded lines.Bye (data_in args.now)) }
{
    let (code, text) = coded(args)?;
    Some(Line::Bye(code, text))
}

/// A line that begins with `*`, by the word that follows.
fn untagged<'a>(word: &[u8], args: &Data<'a>) -> Option<Line<'a>>
    ensures { Says result (untagged word.now (data_in args.now)) }
{
    if is(word, b"ADDTO") {
        added(args)
    } else if is(word, b"REMOVEFROM") {
        removed(args)
    } else if is(word, b"CHANGE") {
        changed(args)
    } else if is(word, b"MODTIME") {
        modtime(args)
    } else if is(word, b"ALERT") {
        alert(args)
    } else if is(word, b"BYE") {
        bye(args)
    } else if is(word, b"ACAP") {
        Some(Line::Greeting(*args))
    } else {
        tagged(None, word, args)
    }
}

// ---- a whole line

/// The client may go on.
fn go_on<'a>(args: &Data<'a>) -> Option<Line<'a>>
    ensures { Says result (texted (λ text. alone (lines.GoOn text)) (data_in args.now)) }
{
    Some(Line::GoOn(text_alone(args)?))
}

/// A line that begins with two words.
fn worded_twice<'a>(first: &'a [u8], word: &[u8], args: &Data<'a>) -> Option<Line<'a>>
    ensures { Says result (twice first.entry.now word.now (data_in args.now)) }
{
    if is(first, b"*") {
        untagged(word, args)
    } else {
        tagged(Some(first), word, args)
    }
}

/// A line that begins with a word and something else.
fn worded_once<'a>(first: &'a [u8], args: &Data<'a>) -> Option<Line<'a>>
    ensures { Says result (once first.entry.now (data_in args.now)) }
{
    if is(first, b"+") { go_on(args) } else { None }
}

/// A line that begins with this word.
fn worded<'a>(first: &'a [u8], args: &Data<'a>) -> Option<Line<'a>>
    ensures { Says result (worded first.entry.now (data_in args.now)) }
{
    match args.word() {
        Some((word, rest)) => worded_twice(first, word, &rest),
        None => worded_once(first, args),
    }
}

/// What data say as a line, if they say something.
pub(crate) fn line_of<'a>(args: &Data<'a>) -> Option<Line<'a>>
    ensures { Says result (line_of (data_in args.now)) }
{
    let (first, rest) = args.word()?;
    worded(first, &rest)
}
