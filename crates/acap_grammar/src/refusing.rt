//! The text of each refusal, and the refusal of each fault of the lexer.

ghost use Rattle.std.specs.Prelude.{◌≡◌};
ghost use Rattle.acap_grammar.specs.Refusals.{of_lexical, of_grammar, text_of};

use crate::command_fault::CommandFault;
use acap_commands::Refusal;
use acap_lexer::LexFault;

/// The refusal of a line with this lexical fault (RFC 2244 section 2.2). A function, since neither type stands in this crate.
pub fn lexical_refusal(fault: LexFault) -> Refusal
    ensures { result ≡ of_lexical fault }
{
    match fault {
        LexFault::BadTag => Refusal::BadTag,
        LexFault::BadToken => Refusal::BadToken,
        LexFault::BadLiteral => Refusal::BadLiteral,
        LexFault::CommandTooLong => Refusal::CommandTooLong,
        LexFault::LineTooLong => Refusal::LineTooLong,
    }
}

impl From<CommandFault> for Refusal {
    ghost from_gives = { λ fault refusal. refusal ≡ of_grammar fault };

    fn from(fault: CommandFault) -> Refusal {
        match fault {
            CommandFault::UnknownCommand => Refusal::UnknownCommand,
            CommandFault::Arguments => Refusal::Arguments,
            CommandFault::NotPermittedTwice => Refusal::NotPermittedTwice,
            CommandFault::BadName => Refusal::BadName,
            CommandFault::BadTime => Refusal::BadTime,
            CommandFault::BadComparator => Refusal::BadComparator,
            CommandFault::TooDeep => Refusal::TooDeep,
            CommandFault::TooMany => Refusal::TooMany,
        }
    }
}

/// The text of a refusal.
pub(crate) fn text_of(refusal: &Refusal) -> &'static [u8]
    ensures { result.now ≡ text_of refusal.now }
{
    match refusal {
        Refusal::BadTag => b"Bad tag",
        Refusal::BadToken => b"Bad token",
        Refusal::BadLiteral => b"Bad literal",
        Refusal::CommandTooLong => b"Command too long",
        Refusal::LineTooLong => b"Line too long",
        Refusal::UnknownCommand => b"Unknown command",
        Refusal::Arguments => b"Bad arguments",
        Refusal::NotPermittedTwice => b"Not permitted twice",
        Refusal::BadName => b"Bad name",
        Refusal::BadTime => b"Bad time",
        Refusal::BadComparator => b"Bad comparator",
        Refusal::TooDeep => b"Too deep",
        Refusal::TooMany => b"Too many",
        Refusal::NotLoggedIn => b"Log in first",
        Refusal::LoggedIn => b"Already logged in",
        Refusal::Cancelled => b"Login cancelled",
        Refusal::NoMechanism => b"Mechanism not offered",
        Refusal::LoginFailed => b"Login failed",
        Refusal::Permission(_) => b"Permission denied",
        Refusal::NoExist(_) => b"No such dataset",
        Refusal::Modified(_) => b"Entry was changed",
        Refusal::Invalid(..) => b"Invalid value",
        Refusal::Limit => b"Limit reached",
        Refusal::ClockEnd => b"Clock at its end",
        Refusal::RangeHere => b"RANGE needs an enumerated context",
        Refusal::TooOld => b"Time too old",
        Refusal::WayTooMany => b"Too many matches",
        Refusal::TryFreeContext => b"Too many contexts",
        Refusal::NoContext => b"No such context",
        Refusal::FreedContext => b"Context was freed",
        Refusal::NotNotify => b"Context has no NOTIFY",
        Refusal::Memory => b"No memory",
        Refusal::HistoryFull => b"History is full",
        Refusal::TooManySessions => b"Too many sessions",
    }
}
