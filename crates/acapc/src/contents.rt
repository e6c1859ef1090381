//! Counts the commands and entries of a file, as a server would read it.

ghost use Rattle.std.specs.Prelude.{◌≤◌, IfOk, length};

use crate::failure::{Failure, Operation};
use acap_entries::Memory;
use acap_lexer::{Kind, Lexed, Lexer, Mode, Tokens};
use std::alloc::Global;
use std::fs::File;
use std::io::{ErrorKind, Read};

/// The most octets that are read at once. A lexer has room for them beside any command that isn't whole.
pub(crate) const PIECE: usize = 8_192;

/// What was read of a file of commands.
#[derive(Drop)]
pub(crate) struct Contents {
    lexer: Lexer,
    // the room of a lexer that holds nothing
    room: usize,
    // the entry that was stored last
    last: Vec<u8>,
    entries: usize,
    commands: usize,
    is_sound: bool,
}

/// Whether the tokens are those of a STORE.
fn is_store(tokens: &Tokens) -> bool {
    tokens.len() > 1 && tokens.value(1).eq_ignore_ascii_case(b"STORE")
}

/// Reads once.
pub(crate) fn read_piece(file: &mut File, piece: &mut [u8]) -> Result<usize, Failure>
    ensures { IfOk result (λ count. count ≤ length piece.new) }
{
    match file.read(piece) {
        Ok(count) => Ok(count),
        Err(error) => Err(Failure::System(Operation::ReadKept, error)),
    }
}

impl Contents {
    /// Nothing was read yet.
    pub(crate) fn new(alloc: Global) -> Contents {
        let lexer = Lexer::new(alloc);
        let room = lexer.room();
        Contents {
            lexer,
            room,
            last: Vec::new(alloc),
            entries: 0,
            commands: 0,
            is_sound: true,
        }
    }

    /// An entry is stored. What is stored in one after the other counts once.
    fn meet(&mut self, path: &[u8]) -> Result<(), Memory> {
        if self.entries == 0 || self.last.as_slice() != path {
            self.entries = self.entries.saturating_add(1);
            self.last.clear();
            self.last.extend_from_slice(path)?;
        }
        Ok(())
    }

    /// Counts the entries of a command, if it is a STORE: each is the string that a parenthesis begins with.
    fn count_entries(&mut self, tokens: &Tokens) -> Result<(), Memory> {
        if !is_store(tokens) {
            return Ok(());
        }
        let mut depth: usize = 0;
        for index in 2..tokens.len() {
            match tokens.kind(index) {
                Kind::Open => depth = depth.saturating_add(1),
                Kind::Close => depth = depth.saturating_sub(1),
                Kind::Quoted | Kind::Literal => {
                    if depth == 1 && tokens.kind(index - 1) == Kind::Open {
                        self.meet(tokens.value(index))?;
                    }
                }
                Kind::Tag | Kind::Word => {}
            }
        }
        Ok(())
    }

    /// Counts the next command, if it is whole. Whether another may be.
    fn count_next(&mut self) -> Result<bool, Memory> {
        match self.lexer.next(Mode::Command)? {
            Lexed::More => Ok(false),
            Lexed::Plus => Ok(true),
            Lexed::Line(tokens) => {
                self.commands = self.commands.saturating_add(1);
                self.count_entries(&tokens)?;
                Ok(true)
            }
            Lexed::Bad(_, _) | Lexed::Fatal(_) => {
                self.is_sound = false;
                Ok(false)
            }
        }
    }

    /// Takes the octets that came next. How many commands end in them.
    pub(crate) fn take(&mut self, octets: &[u8]) -> Result<usize, Memory> {
        let before = self.commands;
        let taken = self.lexer.push(octets)?;
        self.is_sound &= taken == octets.len();
        for _ in 0..u64::MAX {
            if !self.count_next()? {
                break;
            }
        }
        Ok(self.commands.saturating_sub(before))
    }

    /// Reads a file to its end.
    fn read_all(&mut self, file: &mut File) -> Result<(), Failure> {
        let mut piece = [0; PIECE];
        for _ in 0..u64::MAX {
            let count = read_piece(file, &mut piece)?;
            self.take(&piece[..count])?;
            if count == 0 || !self.is_sound {
                break;
            }
        }
        Ok(())
    }

    /// How many entries were stored, if all that was read is whole commands.
    fn entries(&self) -> Option<usize> {
        if self.is_sound && self.lexer.room() == self.room {
            Some(self.entries)
        } else {
            None
        }
    }
}

/// How many entries the commands of a file store, if it has nothing but whole commands: none where there is no file. STOREs in one entry
/// that follow each other count once.
pub(crate) fn entries_of(rt: &HostRuntime, path: &str) -> Result<Option<usize>, Failure> {
    match File::open(rt, path) {
        Ok(mut file) => {
            let mut contents = Contents::new(rt.alloc());
            match contents.read_all(&mut file) {
                Ok(()) => Ok(contents.entries()),
                Err(failure) => Err(failure),
            }
        }
        Err(error) => match error.kind() {
            ErrorKind::NotFound => Ok(Some(0)),
            _ => Err(Failure::System(Operation::ReadKept, error)),
        },
    }
}
