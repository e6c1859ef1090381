//! What tests of a machine start from.
ghost use Rattle.std.specs.Prelude.{◌<◌};

use crate::wrong::Wrong;
use acap_commands::{Command, Event, Search};
use acap_entries::{Boxed, Memory, Seat, UserName};
use acap_grammar::{GrammarFault, parse};
use acap_lexer::{Lexed, Lexer, Mode};
use acap_machine::State;
use acap_rights::Realm;
use std::alloc::Global;

/// The seat with that number.
pub(crate) fn seat(number: u8) -> Seat
    requires { number < 64 }
{
    Seat::new(number).unwrap()
}

/// An empty machine without administrators.
pub(crate) fn empty(alloc: Global) -> State {
    State::new(alloc, Realm::new(Vec::new(alloc), Vec::new(alloc)))
}

/// Joe enters.
pub(crate) fn enter(alloc: Global) -> Result<Event, Memory> {
    match UserName::read(alloc, b"joe") {
        Ok(joe) => Ok(Event::Enter(joe)),
        Err(_) => Err(Memory),
    }
}

/// The command in a line that must be read.
pub(crate) fn command_of(alloc: Global, line: &[u8]) -> Result<Command, Wrong> {
    let mut lexer = Lexer::new(alloc);
    if lexer.push(line).is_err() || lexer.push(b"\r\n").is_err() {
        return Err(Wrong::Memory);
    }
    match lexer.next(Mode::Command) {
        Ok(Lexed::Line(tokens)) => match parse(alloc, &tokens) {
            Ok(command) => Ok(command),
            Err(GrammarFault::Memory) => Err(Wrong::Memory),
            Err(_) => Err(Wrong::Unread),
        },
        _ => Err(Wrong::Unread),
    }
}

/// The SEARCH in a line that must be one.
pub(crate) fn search_of(alloc: Global, line: &[u8]) -> Result<Boxed<Search>, Wrong> {
    match command_of(alloc, line)? {
        Command::Search(search) => Ok(search),
        _ => Err(Wrong::Answer),
    }
}
