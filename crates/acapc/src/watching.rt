//! `watch`: a list that is followed.

use crate::beside::both;
use crate::failure::{Failure, Problem, Wanted};
use crate::meaning::{attribute_if_there, dataset};
use crate::session::Session;
use crate::shown::write_out;
use acap_client::{Ending, FollowFault, Follower, Kept, Line, Response};
use acap_commands::Command;
use acap_entries::{ContextName, Memory};
use acap_shell as shell;
use acap_shell::{Form, followed_line, print_change, print_row};
use clap::ArgMatches;
use std::alloc::Global;

/// The tag of the SEARCH.
pub(crate) const TAG: &[u8] = b"A1";

/// The name of the context.
pub(crate) const NAME: &[u8] = b"watch";

/// What is watched.
#[derive(Drop)]
pub(crate) struct Watch {
    line: Vec<u8>,
    follower: Follower,
    values: bool,
    once: bool,
}

/// The name of the context.
pub(crate) fn context_name(alloc: Global) -> Result<ContextName, Failure> {
    match ContextName::read(alloc, NAME) {
        Ok(name) => Ok(name),
        Err(fault) => Err(Failure::of_word(Wanted::Context, fault)),
    }
}

/// The SEARCH that the words of a call stand for.
fn search(alloc: Global, matches: &ArgMatches) -> Result<Command, Failure> {
    let dataset = both(dataset(alloc, matches), context_name(alloc));
    let shown = attribute_if_there(alloc, matches, "attribute");
    let sort = attribute_if_there(alloc, matches, "sort");
    let ((dataset, name), (shown, sort)) = both(dataset, both(shown, sort))?;
    Ok(shell::watch(alloc, dataset, name, shown, sort)?)
}

/// What the words of a call want watched.
pub(crate) fn read_watch(alloc: Global, matches: &ArgMatches) -> Result<Watch, Failure> {
    let command = search(alloc, matches)?;
    let mut follower = Follower::new(alloc);
    let line = followed_line(alloc, TAG, &mut follower, command)?;
    Ok(Watch {
        line,
        follower,
        values: matches.get_str("attribute").is_some(),
        once: matches.get_flag("once"),
    })
}

/// A list that is followed, and what of it is still to be written.
#[derive(Drop)]
struct Watching<'a> {
    rt: &'a HostRuntime,
    form: Form,
    wanted: Watch,
    out: Vec<u8>,
    is_listed: bool,
}

/// Whether a line ends the SEARCH: its ending and its text.
fn end_of<'a>(line: &Line<'a>) -> Option<(Ending, &'a [u8])> {
    match line {
        Line::Completion(Some(tag), ending, _, text) if *tag == TAG => Some((*ending, *text)),
        _ => None,
    }
}

/// Lets a follower heed a line.
pub(crate) fn follow(follower: &mut Follower, line: &Line) -> Result<(), Failure> {
    match follower.follow(line) {
        Ok(()) => Ok(()),
        Err(FollowFault::Misfit(_)) => Err(Failure::Other(Problem::Misfit)),
        Err(FollowFault::Memory) => Err(Failure::Memory),
    }
}

/// Adds a line for each row of a list.
fn print_rows(out: &mut Vec<u8>, form: Form, values: bool, kept: &Kept) -> Result<(), Memory> {
    for row in kept.held().rows() {
        print_row(out, form, values, row.name(), &row.items())?;
    }
    Ok(())
}

impl<'a> Watching<'a> {
    /// Writes what isn't written yet.
    fn flush(&mut self) -> Result<(), Failure> {
        write_out(self.rt, &mut self.out)
    }

    /// Prints the list, as it is held.
    fn list(&mut self) -> Result<(), Memory> {
        self.is_listed = true;
        match self.wanted.follower.context(NAME) {
            Some(kept) => print_rows(&mut self.out, self.form, self.wanted.values, kept),
            None => Ok(()),
        }
    }

    /// Prints the list, where a line ends its SEARCH, and else a change.
    fn print(&mut self, line: &Line) -> Result<(), Failure> {
        match end_of(line) {
            Some((Ending::Done, _)) => Ok(self.list()?),
            Some((_, text)) => Err(Failure::refused(text)),
            None => Ok(print_change(&mut self.out, self.form, self.wanted.values, line)?),
        }
    }

    /// Fails once the server follows the list no more.
    fn go_on(&self) -> Result<(), Failure> {
        match self.wanted.follower.context(NAME) {
            Some(kept) if kept.is_freed() => Err(Failure::Other(Problem::Freed)),
            _ => Ok(()),
        }
    }

    /// Heeds a line.
    fn heed(&mut self, line: &Line) -> Result<(), Failure> {
        if let Line::Bye(_, text) = line {
            return Err(Failure::refused(*text));
        }
        follow(&mut self.wanted.follower, line)?;
        self.print(line)?;
        self.go_on()
    }

    /// Heeds a response.
    fn hear(&mut self, response: &Response) -> Result<(), Failure> {
        match response.line() {
            Some(line) => self.heed(&line),
            None => Ok(()),
        }
    }

    /// Heeds what has come, or else writes what isn't written yet and waits.
    fn step(&mut self, session: &mut Session) -> Result<(), Failure> {
        match session.heard()? {
            Some(response) => self.hear(&response),
            None => {
                self.flush()?;
                session.take()
            }
        }
    }

    /// Heeds what comes, until the list is printed if no more is wanted, and else for ever.
    fn run(&mut self, session: &mut Session) -> Result<(), Failure> {
        for _ in 0..u64::MAX {
            self.step(session)?;
            if self.is_listed && self.wanted.once {
                return Ok(());
            }
        }
        Ok(())
    }

    /// Writes what isn't written yet, and says what was done, where that can be written.
    fn end(&mut self, done: Result<(), Failure>) -> Result<(), Failure> {
        match self.flush() {
            Ok(()) => done,
            Err(failure) => Err(failure),
        }
    }
}

/// Prints a list, and then its changes.
pub(crate) fn follow_list(
    rt: &HostRuntime,
    session: &mut Session,
    form: Form,
    wanted: Watch,
) -> Result<(), Failure> {
    let mut watching = Watching {
        rt,
        form,
        wanted,
        out: Vec::new(rt.alloc()),
        is_listed: false,
    };
    let done = match session.ask(&watching.wanted.line) {
        Ok(()) => watching.run(session),
        Err(failure) => Err(failure),
    };
    watching.end(done)
}
