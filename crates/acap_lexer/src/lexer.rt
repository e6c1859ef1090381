//! `Lexer`: takes a client's octets in pieces, and gives its commands as tokens.

ghost use Rattle.std.specs.Prelude.{◌≡◌, ◌+◌, ◌-◌, ◌≤◌, [], min, length, drop, IfOk, OnErr};
ghost use Rattle.acap_lexer.specs.Held.{next_of, fatal_of};
ghost use Rattle.acap_lexer.specs.Holding.{held_limit, with_taken};

use crate::advance::{advance, start, turn_to};
use crate::draft::Draft;
use crate::fault::{LexFault, Memory};
use crate::lexed::{Lexed, Mode};
use crate::outcomes::Due;
use crate::scan::Scan;
use crate::tokens::Tokens;
use std::alloc::Global;
use std::marker::Model;

/// The most octets that are held after the last item answered: a command and a part.
const HELD_LIMIT: usize = 270336;

/// The fault after which nothing is read.
fn fatal_of(lexed: &Lexed) -> Option<LexFault>
    ensures { result ≡ fatal_of lexed.now }
{
    match lexed {
        Lexed::Fatal(fault) => Some(*fault),
        _ => None,
    }
}

/// Removes the octets before a place where they are more than the rest, so that each octet is moved once at the
/// most for each that is removed. Gives the place at which the rest then begins.
pub fn compact(text: &mut Vec<u8>, start: usize) -> usize
    requires { start ≤ length text.old.items }
    ensures rest { drop result text.new.items ≡ drop start text.old.items }
    ensures within { result ≤ length text.new.items }
{
    if start <= text.len() - start {
        return start;
    }
    let left = text.len() - start;
    text.copy_within(start.., 0);
    text.truncate(left);
    0
}

/// The octets of a session, as they come, and its commands (RFC 2244, section 2.2). A lexer stands for the octets
/// taken after the last item that it answered, for the number of continuations sent since, and for its fatal
/// fault, if it answered one.
#[derive(Drop)]
pub struct Lexer {
    alloc: Global,
    text: Vec<u8>,
    start: usize,
    told: usize,
    fatal: Option<LexFault>,
    scan: Scan,
}

impl Model for Lexer {
    ghost use Rattle.std.specs.Prelude.{drop};
    ghost use Rattle.acap_lexer.specs.Holding.{Held};

    ghost Value = { Held };

    ghost use Rattle.acap_lexer.specs.Lexing.{IsLexer};

    ghost view = { λ a. record { text = drop a.start a.text.items; told = a.told; fatal = a.fatal } };

    ghost invariant = { λ a. IsLexer a.text.items a.start a.scan };
}

impl Lexer {
    /// A lexer that has taken nothing.
    pub fn new(alloc: Global) -> Lexer
        ensures { result ≡ record { text = []; told = 0; fatal = None } }
    {
        Lexer {
            alloc,
            text: Vec::new(alloc),
            start: 0,
            told: 0,
            fatal: None,
            scan: start(Draft::new(alloc), Mode::Command),
        }
    }

    /// Takes a prefix of the piece, and says how many octets that is: all of it, or as much as keeps the octets
    /// after the last item answered at 270,336.
    pub fn push(&mut self, piece: &[u8]) -> Result<usize, Memory>
        ensures taken { IfOk result (λ n. n ≡ min (length piece.now) (held_limit - length self.old.text)) }
        ensures held { IfOk result (λ n. self.new ≡ with_taken self.old piece.now n) }
        ensures err { OnErr result (self.new ≡ self.old) }
    {
        let taken = piece.len().min(self.room());
        self.start = compact(&mut self.text, self.start);
        self.text.extend_from_slice(&piece[..taken])?;
        Ok(taken)
    }

    /// How many octets there is room for: `push` takes that many of a longer piece, and all of any other.
    pub fn room(&self) -> usize
        ensures { result ≡ held_limit - length self.now.text }
    {
        HELD_LIMIT.saturating_sub(self.text.len() - self.start)
    }

    /// What comes next, where a command that isn't whole is read in this mode from its beginning on: `More` only
    /// where the octets so far have no further answer.
    pub fn next(&mut self, mode: Mode) -> Result<Lexed, Memory>
        ensures answer { IfOk result (λ lexed. lexed ≡ (next_of mode self.old).0) }
        ensures held { IfOk result (λ lexed. self.new ≡ (next_of mode self.old).1) }
        ensures err { OnErr result (self.new ≡ self.old) }
    {
        if let Some(fault) = self.fatal {
            return Ok(Lexed::Fatal(fault));
        }
        turn_to(self.alloc, &mut self.scan, mode);
        let (_, rest) = self.text.split_at(self.start);
        match advance(self.alloc, &mut self.scan, self.told, rest) {
            Err(Memory) => {
                self.scan = start(Draft::new(self.alloc), mode);
                Err(Memory)
            }
            Ok(Due::More) => Ok(Lexed::More),
            Ok(Due::Plus) => {
                self.told += 1;
                Ok(Lexed::Plus)
            }
            Ok(Due::Item(lexed, taken)) => {
                self.fatal = fatal_of(&lexed);
                self.start += taken;
                self.told = 0;
                self.scan = start(Draft::new(self.alloc), mode);
                Ok(lexed)
            }
        }
    }

    /// Takes back the memory of a command's tokens, so that the next command's lie there. What the lexer stands for
    /// stays as it is.
    pub fn take_back(&mut self, tokens: Tokens)
        ensures { self.new ≡ self.old }
    {
        if self.scan.draft.is_empty() {
            self.scan.draft = tokens.clear(self.alloc);
        }
    }
}
