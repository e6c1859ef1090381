//! `answers`: all answers of a stream whose octets come in pieces.

ghost use Rattle.std.specs.Prelude.{◌≡◌, ◌<◌, length, IfOk, None};
ghost use Rattle.acap_lexer.specs.Held.{answers_of};
ghost use Rattle.acap_lexer.specs.Owing.{AsksFor, LeavesAsked, LeavesFed, IsReady, how_whole, octets_of};

use crate::fault::Memory;
use crate::lexed::{Lexed, Mode};
use crate::lexer::Lexer;
use crate::outcomes::Answered;
use std::alloc::Global;

/// Whether nothing is read after the item.
fn how_whole(item: &Lexed) -> Answered
    ensures { result ≡ how_whole item.now }
{
    match item {
        Lexed::Fatal(_) => Answered::Closed,
        _ => Answered::Whole,
    }
}

/// Asks for a command in this mode, and adds what is answered.
fn ask(lexer: &mut Lexer, mode: Mode, said: &mut Vec<Lexed>) -> Result<Answered, Memory>
    requires { lexer.old.fatal ≡ None }
    ensures { IfOk result (λ asked. AsksFor mode lexer.old said.old.items lexer.new said.new.items asked) }
{
    'continuations: loop {
        match lexer.next(mode)? {
            Lexed::More => return Ok(Answered::NotYet),
            Lexed::Plus => said.push(Lexed::Plus)?,
            item => {
                let asked = how_whole(&item);
                said.push(item)?;
                return Ok(asked);
            }
        }
    }
}

/// Asks for commands in these modes, as many as are whole, and gives the modes that are left.
fn ask_all<'m>(
    lexer: &mut Lexer,
    modes: &'m [Mode],
    said: &mut Vec<Lexed>,
) -> Result<&'m [Mode], Memory>
    requires { 0 < length modes.now → lexer.old.fatal ≡ None }
    ensures { LeavesAsked modes.now lexer.old said.old.items result lexer.new said.new.items }
{
    let mut left = modes;
    'commands: while let Some((mode, later)) = left.split_first() {
        match ask(lexer, *mode, said)? {
            Answered::NotYet => return Ok(left),
            Answered::Whole => left = later,
            Answered::Closed => return Ok(&[]),
        }
    }
    Ok(left)
}

/// Gives the lexer a piece, and adds what is answered then. Gives the modes that are left.
fn feed<'m>(
    lexer: &mut Lexer,
    modes: &'m [Mode],
    piece: &[u8],
    said: &mut Vec<Lexed>,
) -> Result<&'m [Mode], Memory>
    requires { IsReady modes.now lexer.old }
    ensures { LeavesFed piece.now modes.now lexer.old said.old.items result lexer.new said.new.items }
{
    let mut left = modes;
    let mut rest = piece;
    'parts: loop {
        if left.is_empty() {
            return Ok(&[]);
        }
        if rest.is_empty() {
            return Ok(left);
        }
        let taken = lexer.push(rest)?;
        let (_, behind) = rest.split_at(taken);
        rest = behind;
        left = ask_all(lexer, left, said)?;
    }
}

/// The answers of a stream that comes in these pieces, its commands being asked for in these modes. They are
/// those of the octets joined, however they were divided (RFC 2244, section 2.2).
pub fn answers(alloc: Global, modes: &[Mode], pieces: &[&[u8]]) -> Result<Vec<Lexed>, Memory>
    ensures { IfOk result (λ said. said.items ≡ answers_of modes.now (octets_of pieces.now)) }
{
    let mut lexer = Lexer::new(alloc);
    let mut said = Vec::new(alloc);
    let mut left = modes;
    for piece in pieces {
        left = feed(&mut lexer, left, piece, &mut said)?;
    }
    Ok(said)
}
