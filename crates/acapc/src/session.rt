//! A session with a server: a login, and commands with their answers.

use crate::failure::{Failure, Operation, Problem};
use crate::shown::Printing;
use acap_client::{Ending, Heard, Line, Reader, Response, answer_line};
use acap_commands::Command;
use acap_entries::Label;
use acap_shell::line_of;
use std::alloc::Global;
use std::io::{ErrorKind, Read, Write};
use std::net::TcpStream;
use std::time::Duration;

/// The most octets of a line of the server, its literals counted.
pub(crate) const LIMIT: u32 = 1 << 30;

/// The most octets that are read at once.
const PIECE: usize = 16_384;

/// A session with a server.
#[derive(Drop)]
pub(crate) struct Session {
    alloc: Global,
    pub(crate) stream: TcpStream,
    reader: Reader,
    singly: bool,
}

/// How a line ends a command, if it does: it is done, or it is refused.
pub(crate) fn end_of(tag: &[u8], line: &Line) -> Option<Result<(), Failure>> {
    match line {
        Line::Completion(Some(of), ending, _, text) if *of == tag => match ending {
            Ending::Done => Some(Ok(())),
            Ending::Failed | Ending::Wrong => Some(Err(Failure::refused(*text))),
        },
        Line::Bye(_, text) => Some(Err(Failure::refused(*text))),
        _ => None,
    }
}

/// How a response ends a command, if it does.
fn ending(tag: &[u8], response: &Response) -> Option<Result<(), Failure>> {
    match response.line() {
        Some(line) => end_of(tag, &line),
        None => None,
    }
}

/// The text with which a response ends the session, if it does.
fn farewell(response: &Response) -> Option<Failure> {
    match response.line() {
        Some(Line::Bye(_, text)) => Some(Failure::refused(text)),
        _ => None,
    }
}

/// Whether a response greets.
fn greeted(response: &Response) -> Result<(), Failure> {
    match response.line() {
        Some(Line::Greeting(_)) => Ok(()),
        Some(Line::Bye(_, text)) => Err(Failure::refused(text)),
        _ => Err(Failure::Other(Problem::NoGreeting)),
    }
}

/// The line that answers a response, if that is a challenge.
fn answer_to(
    alloc: Global,
    user: &[u8],
    secret: &[u8],
    response: &Response,
) -> Result<Vec<u8>, Failure> {
    match response.line() {
        Some(Line::GoOn(challenge)) => Ok(answer_line(alloc, user, secret, challenge)?),
        Some(Line::Completion(_, _, _, text)) | Some(Line::Bye(_, text)) => {
            Err(Failure::refused(text))
        }
        _ => Err(Failure::Other(Problem::NoChallenge)),
    }
}

impl Session {
    /// Connects to a server, which is a host and a port. Where octets are read singly, none is read that comes after a line.
    pub(crate) fn connect(
        rt: &HostRuntime,
        server: &str,
        singly: bool,
    ) -> Result<Session, Failure> {
        match TcpStream::connect(rt, server) {
            Ok(stream) => {
                let _ = stream.set_nodelay(true);
                Ok(Session {
                    alloc: rt.alloc(),
                    stream,
                    reader: Reader::new(rt.alloc(), LIMIT),
                    singly,
                })
            }
            Err(error) => Err(Failure::System(Operation::Connect, error)),
        }
    }

    /// Sends octets.
    pub(crate) fn send(&mut self, octets: &[u8]) -> Result<(), Failure> {
        match self.stream.write_all(octets) {
            Ok(()) => Ok(()),
            Err(error) => Err(Failure::System(Operation::Send, error)),
        }
    }

    /// The text with which the server has ended the session, if it has sent one.
    fn parting(&mut self) -> Option<Failure> {
        for _ in 0..u64::MAX {
            match self.hear() {
                Ok(response) => {
                    if let Some(failure) = farewell(&response) {
                        return Some(failure);
                    }
                }
                Err(_) => break,
            }
        }
        None
    }

    /// Sends the line of a command. A server may end the session before it has read all of it.
    pub(crate) fn ask(&mut self, line: &[u8]) -> Result<(), Failure> {
        match self.send(line) {
            Ok(()) => Ok(()),
            Err(failure) => Err(self.parting().unwrap_or(failure)),
        }
    }

    /// Gives the server so much time for each read and each write.
    pub(crate) fn give_time(&self, time: Duration) -> Result<(), Failure> {
        let done = self.stream.set_read_timeout(Some(time));
        match done.and(self.stream.set_write_timeout(Some(time))) {
            Ok(()) => Ok(()),
            Err(error) => Err(Failure::System(Operation::Wait, error)),
        }
    }

    /// Reads the octets that come next. Whether some came within the time that the server is given.
    pub(crate) fn take_in_time(&mut self) -> Result<bool, Failure> {
        let mut piece = [0; PIECE];
        let room = if self.singly { 1 } else { PIECE };
        match self.stream.read(&mut piece[..room]) {
            Ok(0) => Err(Failure::Other(Problem::Closed)),
            Ok(count) => {
                self.reader.push(&piece[..count])?;
                Ok(true)
            }
            Err(error) => match error.kind() {
                ErrorKind::Interrupted => Ok(true),
                ErrorKind::WouldBlock => Ok(false),
                _ => Err(Failure::System(Operation::Read, error)),
            },
        }
    }

    /// Reads the octets that come next.
    pub(crate) fn take(&mut self) -> Result<(), Failure> {
        if self.take_in_time()? {
            Ok(())
        } else {
            Err(Failure::Other(Problem::Silent))
        }
    }

    /// The next line, if it is whole already.
    pub(crate) fn heard(&mut self) -> Result<Option<Response>, Failure> {
        match self.reader.next()? {
            Heard::More => Ok(None),
            Heard::Line(response) => Ok(Some(response)),
            Heard::Fault(_) => Err(Failure::Other(Problem::NoLine)),
        }
    }

    /// The next line.
    pub(crate) fn hear(&mut self) -> Result<Response, Failure> {
        for _ in 0..u64::MAX {
            if let Some(response) = self.heard()? {
                return Ok(response);
            }
            self.take()?;
        }
        Err(Failure::Other(Problem::Closed))
    }

    /// Reads the greeting.
    fn greet(&mut self) -> Result<(), Failure> {
        let response = self.hear()?;
        greeted(&response)
    }

    /// The line that answers the challenge of the server.
    fn answer(&mut self, user: &[u8], secret: &[u8]) -> Result<Vec<u8>, Failure> {
        let response = self.hear()?;
        answer_to(self.alloc, user, secret, &response)
    }

    /// Answers the challenge of the server.
    fn send_answer(&mut self, user: &[u8], secret: &[u8]) -> Result<(), Failure> {
        let answer = self.answer(user, secret)?;
        self.send(&answer)
    }

    /// Asks for a challenge.
    fn ask_challenge(&mut self) -> Result<(), Failure> {
        let mechanism = Label::from_slice(self.alloc, b"CRAM-MD5")?;
        let line = line_of(self.alloc, b"L", Command::Authenticate(mechanism))?;
        self.ask(&line)
    }

    /// Reads the greeting, and logs in by CRAM-MD5 (RFC 2195).
    fn log_in(&mut self, user: &[u8], secret: &[u8]) -> Result<(), Failure> {
        self.greet()?;
        self.ask_challenge()?;
        self.send_answer(user, secret)?;
        self.wait(b"L")
    }

    /// The session, once its user is logged in.
    pub(crate) fn logged_in(mut self, user: &[u8], secret: &[u8]) -> Result<Session, Failure> {
        match self.log_in(user, secret) {
            Ok(()) => Ok(self),
            Err(failure) => Err(failure),
        }
    }

    /// Reads the lines up to the end of a command.
    pub(crate) fn wait(&mut self, tag: &[u8]) -> Result<(), Failure> {
        for _ in 0..u64::MAX {
            let response = self.hear()?;
            if let Some(done) = ending(tag, &response) {
                return done;
            }
        }
        Err(Failure::Other(Problem::Closed))
    }

    /// Reads the lines up to the end of a command, and prints what they say.
    pub(crate) fn finish(&mut self, tag: &[u8], printing: &mut Printing) -> Result<(), Failure> {
        for _ in 0..u64::MAX {
            let response = self.hear()?;
            if let Some(done) = printing.heed(tag, &response) {
                return done;
            }
        }
        Err(Failure::Other(Problem::Closed))
    }
}
