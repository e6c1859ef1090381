//! `Failure`: why the program fails, its text and its exit status.

use acap_entries::{Memory, NameFault};
use acap_shell::{Form, print_octets};
use std::alloc::{AllocFailed, Global};
use std::io;
use std::io::{ErrorKind, Write};
use std::process::ExitCode;

/// What a word of a call should be.
#[derive(Clone, Copy)]
pub(crate) enum Wanted {
    /// A command of the program.
    Verb,
    /// An object of access lists.
    Object,
    /// A dataset.
    Dataset,
    /// The name of an entry.
    Entry,
    /// The name of an attribute.
    Attribute,
    /// The name of a context.
    Context,
    /// A secret is named at all.
    Secret,
    /// One of two options that exclude each other.
    Remedy,
}

impl Wanted {
    /// What a word isn't.
    fn text(&self) -> &'static str {
        match self {
            Wanted::Verb => "a command",
            Wanted::Object => "an object: a dataset, an attribute in it, or that of one entry",
            Wanted::Dataset => "a dataset, as /option/~/",
            Wanted::Entry => "the name of an entry",
            Wanted::Attribute => "the name of an attribute",
            Wanted::Context => "a context",
            Wanted::Secret => "whole: name a --secret-file, or set ACAP_SECRET",
            Wanted::Remedy => "alone: --restore or --accept",
        }
    }
}

/// What the system couldn't do.
#[derive(Clone, Copy)]
pub(crate) enum Operation {
    /// To connect to the server.
    Connect,
    /// To send to it.
    Send,
    /// To read from it.
    Read,
    /// To wait for it and for standard input.
    Wait,
    /// To read standard input.
    ReadInput,
    /// To read the file of the secret.
    ReadSecret,
    /// To print.
    Print,
    /// To read the file that is kept.
    ReadKept,
    /// To write it, or a file beside it.
    WriteKept,
}

impl Operation {
    /// What couldn't be done.
    fn text(&self) -> &'static str {
        match self {
            Operation::Connect => "cannot connect",
            Operation::Send => "cannot send",
            Operation::Read => "cannot read",
            Operation::Wait => "cannot wait",
            Operation::ReadInput => "cannot read standard input",
            Operation::ReadSecret => "cannot read the secret's file",
            Operation::Print => "cannot print",
            Operation::ReadKept => "cannot read the file",
            Operation::WriteKept => "cannot write the file",
        }
    }

    /// Whether it may be done another time.
    fn may_pass(&self) -> bool {
        match self {
            Operation::Connect
            | Operation::Send
            | Operation::Read
            | Operation::Wait
            | Operation::WriteKept => true,
            Operation::ReadInput | Operation::ReadSecret | Operation::Print | Operation::ReadKept =>
                false,
        }
    }
}

/// What went wrong.
#[derive(Clone, Copy)]
pub(crate) enum Problem {
    /// The server has closed the session.
    Closed,
    /// The server sends what is no line of ACAP.
    NoLine,
    /// The server doesn't begin with a greeting.
    NoGreeting,
    /// The server has no challenge for who logs in.
    NoChallenge,
    /// Commands that were passed on are refused.
    Refusals,
    /// The user isn't an administrator.
    NoAdministrator,
    /// A dump has left out something.
    NotWhole,
    /// A change doesn't fit the list that is followed.
    Misfit,
    /// The server follows the list no more.
    Freed,
    /// The secret in the environment is no text.
    SecretText,
    /// The server doesn't answer within the time that it is given.
    Silent,
    /// The server has too few entries to be what the file was made from.
    TooFew,
    /// A restore was broken off.
    HalfRestored,
    /// The server ends the session while the file is restored.
    Unrestored,
    /// A dataset inherits.
    Heirs,
    /// The file holds something else than whole commands.
    NoCommands,
    /// Another program keeps the file.
    KeptAlready,
    /// The file was put aside before.
    AsideAlready,
}

impl Problem {
    /// What went wrong.
    fn text(&self) -> &'static str {
        match self {
            Problem::Closed => "the server has closed the session",
            Problem::NoLine => "the server doesn't speak ACAP",
            Problem::NoGreeting => "the server doesn't greet",
            Problem::NoChallenge => "the server doesn't let anybody log in",
            Problem::Refusals => "commands are refused",
            Problem::NoAdministrator => "only an administrator can dump all",
            Problem::NotWhole => "not all is written",
            Problem::Misfit => "a change doesn't fit the list",
            Problem::Freed => "the server has freed the list",
            Problem::SecretText => "ACAP_SECRET isn't UTF-8",
            Problem::Silent => "the server doesn't answer",
            Problem::TooFew => {
                "the server has less than half of the file's entries: the file stays as it is (--restore, --accept)"
            }
            Problem::HalfRestored => {
                "a restore was broken off: the file stays as it is (--restore, --accept)"
            }
            Problem::Unrestored => "the server ends the session while the file is restored",
            Problem::Heirs => {
                "a dataset inherits, and what hides entries of its base isn't kept (--over-bases)"
            }
            Problem::NoCommands => "the file isn't one of whole commands (--accept)",
            Problem::KeptAlready => "the file is kept by another program",
            Problem::AsideAlready => "the file can't be put aside: FILE.1 is there already",
        }
    }

    /// Whether it is over once another session is begun.
    fn may_pass(&self) -> bool {
        match self {
            Problem::Closed
            | Problem::NoLine
            | Problem::NoGreeting
            | Problem::NoChallenge
            | Problem::Misfit
            | Problem::Freed
            | Problem::Silent => true,
            _ => false,
        }
    }
}

/// A text of the server: its first 255 octets.
#[derive(Clone, Copy)]
pub(crate) struct Text {
    octets: [u8; 255],
    len: u8,
}

impl Text {
    /// The beginning of a text.
    fn of(text: &[u8]) -> Text {
        let mut octets = [0; 255];
        let mut len: u8 = 0;
        for (place, octet) in octets.iter_mut().zip(text) {
            *place = *octet;
            len = len.saturating_add(1);
        }
        Text { octets, len }
    }

    /// Its octets.
    fn as_slice(&self) -> &[u8] {
        &self.octets[..usize::from(self.len)]
    }
}

/// Why the program ends with another status than 0. It owns nothing, so that nothing is to be dropped where a call may fail.
#[derive(Clone, Copy)]
pub(crate) enum Failure {
    /// A word of the call isn't what has to stand there.
    Word(Wanted),
    /// The server refuses something, or ends the session: its text.
    Refused(Text),
    /// What couldn't be done, and why.
    System(Operation, io::Error),
    /// What went wrong.
    Other(Problem),
    /// Memory was refused.
    Memory,
}

impl From<Memory> for Failure {
    fn from(_error: Memory) -> Failure {
        Failure::Memory
    }
}

impl Failure {
    /// A word of the call, which should be this.
    pub(crate) fn of_word(wanted: Wanted, fault: NameFault) -> Failure {
        match fault {
            NameFault::BadName => Failure::Word(wanted),
            NameFault::Memory => Failure::Memory,
        }
    }

    /// The server refuses something, or ends the session, with a text.
    pub(crate) fn refused(text: &[u8]) -> Failure {
        Failure::Refused(Text::of(text))
    }

    /// Whether it may be over once another session is begun: what a server refuses, where it was once less strict.
    pub(crate) fn may_pass(&self, was_let_in: bool) -> bool {
        match self {
            Failure::Word(_) | Failure::Memory => false,
            Failure::Refused(_) => was_let_in,
            Failure::System(operation, error) => {
                operation.may_pass() && error.kind() != ErrorKind::InvalidInput
            }
            Failure::Other(problem) => problem.may_pass(),
        }
    }
}

impl<T: Drop> From<AllocFailed<T>> for Failure {
    fn from(_error: AllocFailed<T>) -> Failure {
        Failure::Memory
    }
}

/// The server's text, as it is printed.
fn refusal(alloc: Global, text: &[u8]) -> Result<Vec<u8>, Memory> {
    let mut line = Vec::new(alloc);
    print_octets(&mut line, Form::Escaped, text)?;
    Ok(line)
}

/// What a word of the call isn't, as it is printed.
fn misfit(alloc: Global, wanted: &Wanted) -> Result<Vec<u8>, Memory> {
    let mut line = Vec::from_slice(alloc, b"a word of the call isn't ")?;
    line.extend_from_slice(wanted.text().as_bytes())?;
    Ok(line)
}

/// What couldn't be done and why, as it is printed.
fn trouble(alloc: Global, operation: &Operation, error: &io::Error) -> Result<Vec<u8>, Memory> {
    let operation = operation.text();
    let text = format!(in alloc; "{operation}: {error}")?;
    Ok(Vec::from_slice(alloc, text.as_bytes())?)
}

/// What is printed of a failure, after the program's name.
fn text_of(alloc: Global, failure: &Failure) -> Result<Vec<u8>, Memory> {
    match failure {
        Failure::Word(wanted) => misfit(alloc, wanted),
        Failure::Refused(text) => refusal(alloc, text.as_slice()),
        Failure::System(operation, error) => trouble(alloc, operation, error),
        Failure::Other(problem) => Ok(Vec::from_slice(alloc, problem.text().as_bytes())?),
        Failure::Memory => Ok(Vec::from_slice(alloc, b"no memory")?),
    }
}

/// The line that is printed of a text.
fn line_of(alloc: Global, server: &str, text: &[u8]) -> Result<Vec<u8>, Memory> {
    let mut line = Vec::from_slice(alloc, b"acapc: ")?;
    line.extend_from_slice(server.as_bytes())?;
    line.extend_from_slice(b": ")?;
    line.extend_from_slice(text)?;
    line.push(b'\n')?;
    Ok(line)
}

/// The line that is printed of a failure.
pub(crate) fn said(alloc: Global, server: &str, failure: &Failure) -> Result<Vec<u8>, Memory> {
    let text = text_of(alloc, failure)?;
    line_of(alloc, server, &text)
}

/// Prints a failure on standard error, and gives the program's status.
pub(crate) fn report(rt: &HostRuntime, server: &str, failure: &Failure) -> io::Result<ExitCode> {
    let line = said(rt.alloc(), server, failure)?;
    rt.stderr().write_all(&line)?;
    let status = if matches!(failure, Failure::Word(_)) {
        2
    } else {
        1
    };
    Ok(ExitCode::from(status))
}
