//! `Reader`: takes the server's octets in pieces, and gives its lines.

ghost use Rattle.std.specs.Prelude.{◌≡◌, ◌≤◌, [], length, drop, IfOk, OnOk, OnErr};
ghost use Rattle.acap_grammar.specs.Lines.{line_of};
ghost use Rattle.acap_client.specs.Data.{data_of};
ghost use Rattle.acap_client.specs.Unread.{Answers, AnswersLine, left_of, next_of, with_piece};

use crate::adding::new_draft;
use crate::advance::advance;
use crate::draft::{Draft, Token};
use crate::due::Due;
use crate::heard::{Heard, ReadFault};
use crate::response::Response;
use acap_entries::Memory;
use acap_lexer::compact;
use std::alloc::Global;
use std::marker::Model;
use std::mem;

/// The answer to a line of these tokens.
fn heard_of(tokens: Vec<Token>) -> Heard
    ensures { AnswersLine (line_of (data_of tokens.items)) result }
{
    let response = Response::new(tokens);
    if response.line().is_none() {
        return Heard::Fault(ReadFault::Unknown);
    }
    Heard::Line(response)
}

/// The octets of a server, as they come, and its lines (RFC 2244 section 2.2). A reader stands for the octets that came
/// after the last line that it answered, and for the number of octets that a line may have.
#[derive(Drop)]
pub struct Reader {
    alloc: Global,
    limit: u32,
    text: Vec<u8>,
    start: usize,
    at: u32,
    draft: Draft,
}

impl Model for Reader {
    ghost use Rattle.std.specs.Prelude.{drop};
    ghost use Rattle.acap_client.specs.Unread.{Unread};

    ghost Value = { Unread };

    ghost use Rattle.acap_client.specs.Unread.{IsReader};

    ghost view = { λ a. record { limit = a.limit; octets = drop a.start a.text.items } };

    ghost invariant = { λ a. IsReader a.limit a.text.items a.start a.at a.draft };
}

impl Reader {
    /// A reader that has taken nothing. A line may have up to `limit` octets, each CR LF and each literal counted.
    pub fn new(alloc: Global, limit: u32) -> Reader
        ensures { result ≡ record { limit = limit; octets = [] } }
    {
        Reader {
            alloc,
            limit,
            text: Vec::new(alloc),
            start: 0,
            at: 0,
            draft: new_draft(alloc),
        }
    }

    /// Takes the octets that came next, however many. Fails only for want of memory, and then takes none.
    pub fn push(&mut self, piece: &[u8]) -> Result<(), Memory>
        ensures ok { OnOk result (self.new ≡ with_piece self.old piece.now) }
        ensures err { OnErr result (self.new ≡ self.old) }
    {
        self.start = compact(&mut self.text, self.start);
        self.text.extend_from_slice(piece)?;
        Ok(())
    }

    /// What comes next: `More` only where the octets so far have no further line. Fails only for want of memory, and may
    /// then be asked again.
    pub fn next(&mut self) -> Result<Heard, Memory>
        ensures answers { IfOk result (λ heard. Answers (next_of self.old) heard) }
        ensures left { IfOk result (λ heard. self.new ≡ left_of self.old) }
        ensures err { OnErr result (self.new ≡ self.old) }
    {
        let (_, rest) = self.text.split_at(self.start);
        let (_, left) = rest.split_at(self.at as usize);
        match advance(self.alloc, &mut self.draft, self.limit, self.at, left) {
            Err(Memory) => {
                self.draft = new_draft(self.alloc);
                self.at = 0;
                Err(Memory)
            }
            Ok(Due::More(at)) => {
                self.at = at;
                Ok(Heard::More)
            }
            Ok(Due::Ends(at)) => {
                let draft = mem::replace(&mut self.draft, new_draft(self.alloc));
                self.start += at as usize;
                self.at = 0;
                Ok(heard_of(draft.tokens))
            }
            Ok(Due::Lost) => {
                self.draft = new_draft(self.alloc);
                self.at = 0;
                Ok(Heard::Fault(ReadFault::Astray))
            }
            Ok(Due::TooLong) => {
                self.draft = new_draft(self.alloc);
                self.at = 0;
                Ok(Heard::Fault(ReadFault::TooLong))
            }
        }
    }
}
