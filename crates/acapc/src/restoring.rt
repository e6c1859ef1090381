//! A file of commands that is sent to a server, piece by piece: each once the commands that ended in the one before it are answered.

use crate::contents::{Contents, PIECE, read_piece};
use crate::failure::{Failure, Operation, Problem};
use crate::hearing::print_if_refused;
use crate::session::Session;
use crate::shown::write_out;
use acap_client::{Line, Response};
use acap_shell::Form;
use std::fs::File;

/// A file that is sent to a server, and what of it is refused.
#[derive(Drop)]
struct Restore<'a> {
    rt: &'a HostRuntime,
    file: File,
    contents: Contents,
    /// How many commands that were sent aren't answered yet.
    unanswered: usize,
    /// What is still to be printed.
    out: Vec<u8>,
    has_refusals: bool,
}

/// Whether a response ends a command. Fails where it ends the session.
fn ends(response: &Response) -> Result<bool, Failure> {
    match response.line() {
        Some(Line::Bye(_, _)) => Err(Failure::Other(Problem::Unrestored)),
        Some(Line::Completion(_, _, _, _)) => Ok(true),
        _ => Ok(false),
    }
}

impl<'a> Restore<'a> {
    /// Heeds a response. Whether it ends a command.
    fn heed(&mut self, response: &Response) -> Result<bool, Failure> {
        self.has_refusals |= print_if_refused(&mut self.out, Form::Escaped, response)?;
        ends(response)
    }

    /// Waits for the next line.
    fn hear(&mut self, session: &mut Session) -> Result<(), Failure> {
        let response = session.hear()?;
        let is_end = self.heed(&response);
        drop(response);
        if is_end? {
            self.unanswered = self.unanswered.saturating_sub(1);
        }
        Ok(())
    }

    /// Prints what was refused, and sends the next piece of the file. Whether there was one.
    fn send(&mut self, session: &mut Session) -> Result<bool, Failure> {
        write_out(self.rt, &mut self.out)?;
        let mut piece = [0; PIECE];
        let count = read_piece(&mut self.file, &mut piece)?;
        session.send(&piece[..count])?;
        self.unanswered = self.contents.take(&piece[..count])?;
        Ok(count > 0)
    }

    /// Sends the file piece by piece.
    fn run(&mut self, session: &mut Session) -> Result<(), Failure> {
        for _ in 0..u64::MAX {
            if self.unanswered > 0 {
                self.hear(session)?;
            } else if !self.send(session)? {
                break;
            }
        }
        Ok(())
    }
}

/// Opens a file of commands.
fn open(rt: &HostRuntime, path: &str) -> Result<File, Failure> {
    match File::open(rt, path) {
        Ok(file) => Ok(file),
        Err(error) => Err(Failure::System(Operation::ReadKept, error)),
    }
}

/// Sends all commands of a file, and prints which are refused. Whether one is.
pub(crate) fn restore_from(
    rt: &HostRuntime,
    session: &mut Session,
    path: &str,
) -> Result<bool, Failure> {
    let file = open(rt, path)?;
    let mut restore = Restore {
        rt,
        file,
        contents: Contents::new(rt.alloc()),
        unanswered: 0,
        out: Vec::new(rt.alloc()),
        has_refusals: false,
    };
    match restore.run(session) {
        Ok(()) => Ok(restore.has_refusals),
        Err(failure) => Err(failure),
    }
}
