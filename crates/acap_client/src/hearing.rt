//! The next octet of a line: what it does, by where the last one left off.

ghost use Rattle.std.specs.Prelude.{◌≡◌, ◌<◌, [], ◌∷◌, ◌==◌, false, length, IfOk};
ghost use Rattle.acap_lexer.specs.Octets.{is_word as is_word_octet};
ghost use Rattle.acap_grammar.specs.Lines.{number_of};
ghost use Rattle.acap_grammar.specs.Listening.{InWord, begun, ended, heard, marked, taking, turned};
ghost use Rattle.acap_client.specs.declared.place.Place.TheVariants as places;
ghost use Rattle.acap_client.specs.Drafting.{IsDraft, client_of, nest_of};
ghost use Rattle.acap_client.specs.Hearing.{Comes, ComesTo, IsEmpty};

use crate::adding::{add_text, add_word, begin, close, open, put};
use crate::counting::{Count, count_within};
use crate::draft::Draft;
use crate::due::Step;
use crate::octet_kinds::{is_digit, is_escaped, is_quotable, is_word};
use crate::place::Place;
use acap_entries::Memory;
use std::alloc::Global;

/// Begins a word.
fn start(draft: &mut Draft, c: u8) -> Result<Step, Memory>
    requires { IsDraft draft.old }
    ensures { IfOk result (λ step. ComesTo (turned (client_of draft.old) (InWord (c ∷ []))) draft.new step) }
{
    begin(draft, Place::InWord);
    put(draft, c, Place::InWord)?;
    Ok(Step::Goes)
}

/// Between two lines.
fn hear_first(draft: &mut Draft, c: u8) -> Result<Step, Memory>
    requires draft { IsDraft draft.old }
    requires place { draft.old.place ≡ places.Between }
    ensures { IfOk result (λ step. ComesTo (heard (client_of draft.old) c) draft.new step) }
{
    if is_word(c) {
        start(draft, c)
    } else {
        Ok(Step::Lost)
    }
}

/// Where a datum may begin, but a word.
fn hear_mark(draft: &mut Draft, c: u8) -> Result<Step, Memory>
    requires draft { IsDraft draft.old }
    requires word { is_word_octet c ≡ false }
    requires shuts { (c == 41) ≡ false }
    ensures { IfOk result (λ step. ComesTo (begun (client_of draft.old) c) draft.new step) }
{
    if c == b'"' {
        begin(draft, Place::InQuotes);
        Ok(Step::Goes)
    } else if c == b'{' {
        begin(draft, Place::Marking);
        Ok(Step::Goes)
    } else if c == b'(' {
        open(draft)?;
        Ok(Step::Goes)
    } else {
        Ok(Step::Lost)
    }
}

/// Where a datum may begin.
fn hear_fresh(draft: &mut Draft, c: u8, is_empty: bool) -> Result<Step, Memory>
    requires draft { IsDraft draft.old }
    requires empty { IsEmpty is_empty (nest_of draft.old.tokens.items).inner }
    ensures { IfOk result (λ step. ComesTo (begun (client_of draft.old) c) draft.new step) }
{
    if is_word(c) {
        start(draft, c)
    } else if c != b')' {
        hear_mark(draft, c)
    } else if is_empty {
        close(draft)
    } else {
        Ok(Step::Lost)
    }
}

/// Where a datum has ended.
fn hear_ended(draft: &mut Draft, c: u8) -> Result<Step, Memory>
    requires draft { IsDraft draft.old }
    requires some { 0 < length (nest_of draft.old.tokens.items).inner }
    ensures { IfOk result (λ step. ComesTo (ended (client_of draft.old) c) draft.new step) }
{
    if c == b' ' {
        draft.place = Place::Fresh;
        Ok(Step::Goes)
    } else if c == b')' {
        close(draft)
    } else if c == b'\r' {
        draft.place = Place::Returned;
        Ok(Step::Goes)
    } else {
        Ok(Step::Lost)
    }
}

/// In a word.
fn hear_in_word(alloc: Global, draft: &mut Draft, c: u8) -> Result<Step, Memory>
    requires draft { IsDraft draft.old }
    requires place { draft.old.place ≡ places.InWord }
    ensures { IfOk result (λ step. ComesTo (heard (client_of draft.old) c) draft.new step) }
{
    if is_word(c) {
        put(draft, c, Place::InWord)?;
        return Ok(Step::Goes);
    }
    add_word(alloc, draft)?;
    hear_ended(draft, c)
}

/// Between quotes.
fn hear_in_quotes(alloc: Global, draft: &mut Draft, c: u8) -> Result<Step, Memory>
    requires draft { IsDraft draft.old }
    requires place { draft.old.place ≡ places.InQuotes }
    ensures { IfOk result (λ step. ComesTo (heard (client_of draft.old) c) draft.new step) }
{
    if c == b'"' {
        add_text(alloc, draft)?;
        Ok(Step::Goes)
    } else if c == b'\\' {
        draft.place = Place::Escaping;
        Ok(Step::Goes)
    } else if is_quotable(c) {
        put(draft, c, Place::InQuotes)?;
        Ok(Step::Goes)
    } else {
        Ok(Step::Lost)
    }
}

/// After a backslash.
fn hear_escaped(draft: &mut Draft, c: u8) -> Result<Step, Memory>
    requires draft { IsDraft draft.old }
    requires place { draft.old.place ≡ places.Escaping }
    ensures { IfOk result (λ step. ComesTo (heard (client_of draft.old) c) draft.new step) }
{
    if is_escaped(c) {
        put(draft, c, Place::InQuotes)?;
        Ok(Step::Goes)
    } else {
        Ok(Step::Lost)
    }
}

/// At the end of a mark, after which `room` octets may come.
fn announce(draft: &mut Draft, room: u32) -> Step
    requires draft { IsDraft draft.old }
    ensures { Comes room (marked (number_of draft.old.word.items) (client_of draft.old)) draft.new result }
{
    match count_within(&draft.word, room) {
        Count::Nothing => Step::Lost,
        Count::TooLarge => Step::TooLong,
        Count::Is(count) => {
            draft.place = Place::Marked(count);
            Step::Goes
        }
    }
}

/// In the mark of a literal, after which `room` octets may come.
fn hear_digit(draft: &mut Draft, c: u8, room: u32) -> Result<Step, Memory>
    requires draft { IsDraft draft.old }
    requires place { draft.old.place ≡ places.Marking }
    ensures { IfOk result (λ step. Comes room (heard (client_of draft.old) c) draft.new step) }
{
    if c == b'}' {
        Ok(announce(draft, room))
    } else if is_digit(c) {
        put(draft, c, Place::Marking)?;
        Ok(Step::Goes)
    } else {
        Ok(Step::Lost)
    }
}

/// After a mark.
fn hear_return(draft: &mut Draft, c: u8, count: u32) -> Step
    requires draft { IsDraft draft.old }
    requires place { draft.old.place ≡ places.Marked count }
    ensures { ComesTo (heard (client_of draft.old) c) draft.new result }
{
    if c == b'\r' {
        draft.place = Place::Opening(count);
        Step::Goes
    } else {
        Step::Lost
    }
}

/// Goes on with a literal, of which `left` octets are still to come.
fn take(alloc: Global, draft: &mut Draft, left: u32) -> Result<Step, Memory>
    requires { IsDraft draft.old }
    ensures { IfOk result
        (λ step. ComesTo (taking left draft.old.word.items (client_of draft.old)) draft.new step) }
{
    if left == 0 {
        add_text(alloc, draft)?;
    } else {
        draft.place = Place::Taking(left - 1);
    }
    Ok(Step::Goes)
}

/// After a mark and its CR.
fn hear_feed(alloc: Global, draft: &mut Draft, c: u8, count: u32) -> Result<Step, Memory>
    requires draft { IsDraft draft.old }
    requires place { draft.old.place ≡ places.Opening count }
    ensures { IfOk result (λ step. ComesTo (heard (client_of draft.old) c) draft.new step) }
{
    if c != b'\n' {
        return Ok(Step::Lost);
    }
    begin(draft, Place::InQuotes);
    take(alloc, draft, count)
}

/// In a literal.
fn hear_octet(alloc: Global, draft: &mut Draft, c: u8, left: u32) -> Result<Step, Memory>
    requires draft { IsDraft draft.old }
    requires place { draft.old.place ≡ places.Taking left }
    ensures { IfOk result (λ step. ComesTo (heard (client_of draft.old) c) draft.new step) }
{
    put(draft, c, Place::InQuotes)?;
    take(alloc, draft, left)
}

/// After the CR that ends a line.
fn hear_last(draft: &Draft, c: u8) -> Step
    requires draft { IsDraft draft.now }
    requires place { draft.now.place ≡ places.Returned }
    ensures { ComesTo (heard (client_of draft.now) c) draft.now result }
{
    if c == b'\n' && draft.depth == 0 {
        Step::Ends
    } else {
        Step::Lost
    }
}

/// Hears the next octet of a line, after which `room` octets may come.
pub(crate) fn hear(alloc: Global, draft: &mut Draft, c: u8, room: u32) -> Result<Step, Memory>
    requires { IsDraft draft.old }
    ensures { IfOk result (λ step. Comes room (heard (client_of draft.old) c) draft.new step) }
{
    match draft.place {
        Place::Between => hear_first(draft, c),
        Place::Fresh => hear_fresh(draft, c, false),
        Place::Opened => hear_fresh(draft, c, true),
        Place::Ended => hear_ended(draft, c),
        Place::InWord => hear_in_word(alloc, draft, c),
        Place::InQuotes => hear_in_quotes(alloc, draft, c),
        Place::Escaping => hear_escaped(draft, c),
        Place::Marking => hear_digit(draft, c, room),
        Place::Marked(count) => Ok(hear_return(draft, c, count)),
        Place::Opening(count) => hear_feed(alloc, draft, c, count),
        Place::Taking(left) => hear_octet(alloc, draft, c, left),
        Place::Returned => Ok(hear_last(draft, c)),
    }
}
