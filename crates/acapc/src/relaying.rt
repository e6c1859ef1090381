//! `raw` and `load`: what passes between standard input and a server.

ghost use Rattle.std.specs.Prelude.{◌≡◌, IfOk, IfSome, Ok};

use crate::failure::{Failure, Operation, Problem};
use crate::hearing::{print_refusals, says_bye};
use crate::polling::{INPUT, SERVER, Waiting, is_input_ready, wait_for};
use crate::session::{LIMIT, Session};
use crate::shown::write_out;
use acap_client::Reader;
use acap_entries::Memory;
use acap_shell::{Form, print_stream, sent_lines};
use mio::Interest;
use std::io;
use std::io::{ErrorKind, Read, Write};
use std::net::{Shutdown, TcpStream};
use std::os::fd::AsRawFd;
use std::time::Duration;

/// The most octets that are read at once.
const PIECE: usize = 4_096;

/// A relay between standard input and a server.
#[derive(Drop)]
struct Relay<'a> {
    rt: &'a HostRuntime,
    form: Form,
    stream: TcpStream,
    /// Whether a file of commands is loaded, of which only refusals are printed.
    is_load: bool,
    /// What reads the server's lines.
    reader: Reader,
    /// What is still to be printed.
    out: Vec<u8>,
    has_refusals: bool,
    /// Whether the server has sent a BYE, which is looked for where lines are passed.
    is_bye: bool,
    /// The octets that are still to be sent.
    unsent: Vec<u8>,
    /// Whether standard input has ended.
    is_over: bool,
}

/// What comes of a read or a write: how many octets, or none where it would wait.
fn progress(operation: Operation, done: io::Result<usize>) -> Result<Option<usize>, Failure>
    ensures { IfOk result (λ count. IfSome count (λ n. done ≡ Ok n)) }
{
    match done {
        Ok(count) => Ok(Some(count)),
        Err(error) => match error.kind() {
            ErrorKind::Interrupted | ErrorKind::WouldBlock => Ok(None),
            _ => Err(Failure::System(operation, error)),
        },
    }
}

/// Takes `count` octets off the beginning.
fn drop_first(octets: &mut Vec<u8>, count: usize) {
    if count >= octets.len() {
        octets.clear();
        return;
    }
    let left = octets.len() - count;
    octets.copy_within(count.., 0);
    octets.truncate(left);
}

impl<'a> Relay<'a> {
    /// A relay that has passed nothing yet.
    fn new(rt: &'a HostRuntime, stream: TcpStream, form: Form, is_load: bool) -> Relay<'a> {
        Relay {
            rt,
            form,
            stream,
            is_load,
            reader: Reader::new(rt.alloc(), LIMIT),
            out: Vec::new(rt.alloc()),
            has_refusals: false,
            is_bye: false,
            unsent: Vec::new(rt.alloc()),
            is_over: false,
        }
    }

    /// Reads from standard input once.
    fn read_input(&mut self) -> Result<(), Failure> {
        let mut piece = [0; PIECE];
        match progress(Operation::ReadInput, self.rt.stdin().read(&mut piece))? {
            None => Ok(()),
            Some(0) => {
                self.is_over = true;
                Ok(())
            }
            Some(count) => Ok(self.add(&piece[..count])?),
        }
    }

    /// Takes octets of standard input: as they are where a file is loaded, and else as lines.
    fn add(&mut self, octets: &[u8]) -> Result<(), Memory> {
        if self.is_load {
            Ok(self.unsent.extend_from_slice(octets)?)
        } else {
            sent_lines(&mut self.unsent, octets)
        }
    }

    /// Sends once what is still to be sent. After all of it the server is informed that no more comes.
    fn send(&mut self) -> Result<(), Failure> {
        if self.unsent.is_empty() {
            return Ok(());
        }
        if let Some(count) = progress(Operation::Send, self.stream.write(&self.unsent))? {
            drop_first(&mut self.unsent, count);
            self.end_input();
        }
        Ok(())
    }

    /// Adds what is printed of octets of the server: what they refuse where a file is loaded, and else their lines.
    fn heed(&mut self, octets: &[u8]) -> Result<(), Failure> {
        self.reader.push(octets)?;
        if self.is_load {
            self.has_refusals |= print_refusals(&mut self.out, &mut self.reader, self.form)?;
            Ok(())
        } else {
            self.is_bye |= says_bye(&mut self.reader)?;
            Ok(print_stream(&mut self.out, self.form, octets)?)
        }
    }

    /// Reads from the server once, and prints it. Whether the server goes on.
    fn read_server(&mut self) -> Result<bool, Failure> {
        let mut piece = [0; PIECE];
        match progress(Operation::Read, self.stream.read(&mut piece))? {
            None => Ok(true),
            Some(0) => Ok(false),
            Some(count) => {
                self.heed(&piece[..count])?;
                write_out(self.rt, &mut self.out)?;
                Ok(true)
            }
        }
    }

    /// Whether more of standard input is wanted now.
    fn wants_input(&self) -> bool {
        !self.is_over && self.unsent.len() < PIECE
    }

    /// What is waited for at the server.
    fn interest(&self) -> Interest {
        if self.unsent.is_empty() {
            Interest::READABLE
        } else {
            Interest::READABLE | Interest::WRITABLE
        }
    }

    /// Says what is waited for.
    fn register(&self, waiting: &Waiting) -> io::Result<()> {
        let poll = &waiting.poll;
        wait_for(poll, self.stream.as_raw_fd(), SERVER, self.interest())?;
        if waiting.has_input && self.wants_input() {
            wait_for(poll, self.rt.stdin().as_raw_fd(), INPUT, Interest::READABLE)?;
        }
        Ok(())
    }

    /// Waits until something can go on. Whether standard input can be read.
    fn wait(&mut self, waiting: &mut Waiting) -> io::Result<bool> {
        self.register(waiting)?;
        let goes_on = !waiting.has_input && self.wants_input();
        let timeout = if goes_on { Some(Duration::ZERO) } else { None };
        waiting.poll.poll(&mut waiting.events, timeout)?;
        Ok((goes_on || is_input_ready(&waiting.events)) && self.wants_input())
    }

    /// Lets the server know that no more comes, once all is sent.
    fn end_input(&self) {
        if self.is_over && self.unsent.is_empty() {
            let _ = self.stream.shutdown(Shutdown::Write);
        }
    }

    /// Passes what can be passed now. Whether the server goes on.
    fn pass(&mut self, is_ready: bool) -> Result<bool, Failure> {
        if is_ready {
            self.read_input()?;
            self.end_input();
        }
        self.send()?;
        self.read_server()
    }

    /// Waits, and passes what can be passed then. Whether the server goes on.
    fn step(&mut self, waiting: &mut Waiting) -> Result<bool, Failure> {
        match self.wait(waiting) {
            Ok(is_ready) => self.pass(is_ready),
            Err(error) => match error.kind() {
                ErrorKind::Interrupted | ErrorKind::WouldBlock => Ok(true),
                _ => Err(Failure::System(Operation::Wait, error)),
            },
        }
    }

    /// What is left to say once the server has closed the session.
    fn verdict(&self) -> Result<(), Failure> {
        if !self.is_over && !self.is_bye {
            Err(Failure::Other(Problem::Closed))
        } else if self.has_refusals {
            Err(Failure::Other(Problem::Refusals))
        } else {
            Ok(())
        }
    }

    /// Passes lines until the server closes the session.
    fn run(&mut self, waiting: &mut Waiting) -> Result<(), Failure> {
        for _ in 0..u64::MAX {
            if !self.step(waiting)? {
                break;
            }
        }
        self.verdict()
    }
}

/// Passes lines from standard input to a server, and prints what is answered, until the server closes the session.
pub(crate) fn pass_lines(
    rt: &HostRuntime,
    session: Session,
    form: Form,
    is_load: bool,
) -> Result<(), Failure> {
    let Session { stream, .. } = session;
    match Waiting::new(rt, &stream) {
        Ok(mut waiting) => Relay::new(rt, stream, form, is_load).run(&mut waiting),
        Err(error) => Err(Failure::System(Operation::Wait, error)),
    }
}
