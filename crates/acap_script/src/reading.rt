//! `read_line`: reads a line of a script.

ghost use Rattle.std.specs.Prelude.{◌≡◌, ◌<◌, length, position, option_map, IfSome};
ghost use Rattle.acap_script.specs.Lines as rule;
ghost use Rattle.acap_script.specs.Lines.{Reads};
ghost use Rattle.acap_script.specs.declared.script_line.ScriptLine.TheVariants as line;

use crate::line_fault::LineFault;
use crate::numbers::{moment_in, nonce_in, seat_in};
use crate::script_line::ScriptLine;
use crate::script_word::ScriptWord;
use crate::seat_line::SeatLine;
use acap_entries::{NameFault, Octets, Seat, UserName};
use hex::FromHexError;
use std::alloc::Global;

// Where the first SP stands.
fn place_of(text: &[u8]) -> Option<usize>
    ensures value { result ≡ position rule.is_space text.now }
    ensures within { IfSome result (λ place. place < length text.now) }
{
    text.iter().position(|octet| *octet == b' ')
}

// What stands before the first SP, and what after it.
fn cut_word(text: &[u8]) -> Option<(&[u8], &[u8])>
    ensures { option_map (λ parts. (parts.0.now, parts.1.now)) result ≡ rule.parts_of text.now }
{
    let (before, _) = text.split_at(place_of(text)?);
    let (_, behind) = text.split_at(before.len() + 1);
    Some((before, behind))
}

// A user's name.
fn name_in(alloc: Global, text: &[u8]) -> Result<UserName, LineFault>
    ensures { Reads (rule.name_in text.now) result }
{
    match UserName::read(alloc, text) {
        Ok(name) => Ok(name),
        Err(NameFault::BadName) => Err(LineFault::Wrong),
        Err(NameFault::Memory) => Err(LineFault::Memory),
    }
}

// Octets in hex digits.
fn octets_in(alloc: Global, text: &[u8]) -> Result<Octets, LineFault>
    ensures { Reads (rule.octets_in text.now) result }
{
    match hex::decode(alloc, text) {
        Ok(octets) => Ok(Octets::from_vec(octets)),
        Err(FromHexError::OutOfMemory) => Err(LineFault::Memory),
        Err(_) => Err(LineFault::Wrong),
    }
}

// A line of a seat alone.
fn read_seat(text: &[u8]) -> Result<Seat, LineFault>
    ensures { Reads (rule.seat_in text.now) result }
{
    match seat_in(text) {
        Some(seat) => Ok(seat),
        None => Err(LineFault::Wrong),
    }
}

fn user_line(alloc: Global, text: &[u8]) -> Result<ScriptLine, LineFault>
    ensures { Reads (rule.user_line text.now) result }
{
    let Some((name, secret)) = cut_word(text) else {
        return Err(LineFault::Wrong);
    };
    let name = name_in(alloc, name)?;
    let secret = Octets::from_slice(alloc, secret)?;
    Ok(ScriptLine::User(name, secret))
}

fn group_line(alloc: Global, text: &[u8]) -> Result<ScriptLine, LineFault>
    ensures { Reads (rule.group_line text.now) result }
{
    let Some((name, member)) = cut_word(text) else {
        return Err(LineFault::Wrong);
    };
    let name = name_in(alloc, name)?;
    let member = name_in(alloc, member)?;
    Ok(ScriptLine::Group(name, member))
}

fn clock_line(text: &[u8]) -> Result<ScriptLine, LineFault>
    ensures { Reads (option_map line.Clock (rule.moment_in text.now)) result }
{
    match moment_in(text) {
        Some(moment) => Ok(ScriptLine::Clock(moment)),
        None => Err(LineFault::Wrong),
    }
}

fn nonce_line(text: &[u8]) -> Result<ScriptLine, LineFault>
    ensures { Reads (option_map line.Nonce (rule.nonce_in text.now)) result }
{
    match nonce_in(text) {
        Some(nonce) => Ok(ScriptLine::Nonce(nonce)),
        None => Err(LineFault::Wrong),
    }
}

fn enter_line(alloc: Global, text: &[u8]) -> Result<ScriptLine, LineFault>
    ensures { Reads (rule.enter_line text.now) result }
{
    let Some((seat, name)) = cut_word(text) else {
        return Err(LineFault::Wrong);
    };
    let seat = read_seat(seat)?;
    let name = name_in(alloc, name)?;
    Ok(ScriptLine::At(seat, SeatLine::Enter(name)))
}

fn send_line(alloc: Global, text: &[u8]) -> Result<ScriptLine, LineFault>
    ensures { Reads (rule.send_line text.now) result }
{
    let Some((seat, text)) = cut_word(text) else {
        return Err(LineFault::Wrong);
    };
    let seat = read_seat(seat)?;
    let text = Octets::from_slice(alloc, text)?;
    Ok(ScriptLine::At(seat, SeatLine::Send(text)))
}

fn raw_line(alloc: Global, text: &[u8]) -> Result<ScriptLine, LineFault>
    ensures { Reads (rule.raw_line text.now) result }
{
    let Some((seat, digits)) = cut_word(text) else {
        return Err(LineFault::Wrong);
    };
    let seat = read_seat(seat)?;
    let octets = octets_in(alloc, digits)?;
    Ok(ScriptLine::At(seat, SeatLine::Raw(octets)))
}

fn piece_line(alloc: Global, text: &[u8]) -> Result<ScriptLine, LineFault>
    ensures { Reads (rule.piece_line text.now) result }
{
    let Some((seat, digits)) = cut_word(text) else {
        return Err(LineFault::Wrong);
    };
    let seat = read_seat(seat)?;
    let octets = octets_in(alloc, digits)?;
    Ok(ScriptLine::At(seat, SeatLine::Piece(octets)))
}

// The word with which a line begins.
fn word_of(text: &[u8]) -> Option<ScriptWord>
    ensures { result ≡ rule.word_of text.now }
{
    if text == b"user".as_slice() {
        Some(ScriptWord::User)
    } else if text == b"admin".as_slice() {
        Some(ScriptWord::Admin)
    } else if text == b"group".as_slice() {
        Some(ScriptWord::Group)
    } else if text == b"host".as_slice() {
        Some(ScriptWord::Host)
    } else if text == b"clock".as_slice() {
        Some(ScriptWord::Clock)
    } else if text == b"nonce".as_slice() {
        Some(ScriptWord::Nonce)
    } else {
        seat_word_of(text)
    }
}

// The word with which a line about a seat begins.
fn seat_word_of(text: &[u8]) -> Option<ScriptWord>
    ensures { result ≡ rule.seat_word_of text.now }
{
    if text == b"open".as_slice() {
        Some(ScriptWord::Open)
    } else if text == b"enter".as_slice() {
        Some(ScriptWord::Enter)
    } else if text == b"send".as_slice() {
        Some(ScriptWord::Send)
    } else if text == b"raw".as_slice() {
        Some(ScriptWord::Raw)
    } else if text == b"piece".as_slice() {
        Some(ScriptWord::Piece)
    } else if text == b"turn".as_slice() {
        Some(ScriptWord::Turn)
    } else if text == b"drain".as_slice() {
        Some(ScriptWord::Drain)
    } else if text == b"leave".as_slice() {
        Some(ScriptWord::Leave)
    } else {
        None
    }
}

// What stands after a word and its SP.
fn line_by(alloc: Global, word: ScriptWord, rest: &[u8]) -> Result<ScriptLine, LineFault>
    ensures { Reads (rule.line_by word rest.now) result }
{
    match word {
        ScriptWord::User => user_line(alloc, rest),
        ScriptWord::Admin => Ok(ScriptLine::Admin(name_in(alloc, rest)?)),
        ScriptWord::Group => group_line(alloc, rest),
        ScriptWord::Host => Ok(ScriptLine::Host(Octets::from_slice(alloc, rest)?)),
        ScriptWord::Clock => clock_line(rest),
        ScriptWord::Nonce => nonce_line(rest),
        ScriptWord::Open => Ok(ScriptLine::At(read_seat(rest)?, SeatLine::Open)),
        ScriptWord::Enter => enter_line(alloc, rest),
        ScriptWord::Send => send_line(alloc, rest),
        ScriptWord::Raw => raw_line(alloc, rest),
        ScriptWord::Piece => piece_line(alloc, rest),
        ScriptWord::Turn => Ok(ScriptLine::At(read_seat(rest)?, SeatLine::Turn)),
        ScriptWord::Drain => Ok(ScriptLine::At(read_seat(rest)?, SeatLine::Drain)),
        ScriptWord::Leave => Ok(ScriptLine::At(read_seat(rest)?, SeatLine::Leave)),
    }
}

// Whether a line says nothing: it is empty, or a remark.
fn is_passed(text: &[u8]) -> bool
    ensures { result ≡ rule.is_passed text.now }
{
    match text.first() {
        Some(first) => *first == b'#',
        None => true,
    }
}

/// What the text of a line says. `Wrong` where it says nothing.
#[tactic(auto, unfolding(crate::specs::Lines::line_of))]
pub fn read_line(alloc: Global, text: &[u8]) -> Result<ScriptLine, LineFault>
    ensures { Reads (rule.line_of text.now) result }
{
    if is_passed(text) {
        return Ok(ScriptLine::Pass);
    }
    let Some((word, rest)) = cut_word(text) else {
        return Err(LineFault::Wrong);
    };
    match word_of(word) {
        Some(word) => line_by(alloc, word, rest),
        None => Err(LineFault::Wrong),
    }
}
