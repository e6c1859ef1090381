//! One session of `keep`: the list of all that a server holds, and its changes.

use crate::asking::{need_administrator, search_all, update};
use crate::failure::{Failure, Problem};
use crate::keeper::{Due, Keeper, MINUTE, SECOND, beginning, now};
use crate::session::Session;
use crate::watching::{NAME, TAG, follow};
use acap_client::{Ending, Follower, Kept, Line, Response};
use acap_shell::followed_line;
use std::time::Duration;

impl<'a> Keeper<'a> {
    /// What is held of the list.
    pub(crate) fn kept(&self) -> Option<&Kept> {
        self.follower.context(NAME)
    }

    /// How many rows the list has.
    pub(crate) fn rows(&self) -> usize {
        match self.kept() {
            Some(kept) => kept.held().rows().len(),
            None => 0,
        }
    }

    /// Whether the server follows the list no more.
    fn is_freed(&self) -> bool {
        match self.kept() {
            Some(kept) => kept.is_freed(),
            None => false,
        }
    }

    /// Whether an answer is still to come.
    fn awaits(&self) -> bool {
        self.course.is_listing || self.course.is_asked
    }

    /// Asks for the list.
    pub(crate) fn list(&mut self, session: &mut Session) -> Result<(), Failure> {
        let command = search_all(self.rt.alloc())?;
        let line = followed_line(self.rt.alloc(), TAG, &mut self.follower, command)?;
        self.course.is_listing = true;
        session.ask(&line)
    }

    /// Asks for all changes up to now.
    fn ask(&mut self, session: &mut Session) -> Result<(), Failure> {
        let line = update(self.rt.alloc())?;
        self.course.is_asked = true;
        self.last = Some(now(self.rt)?);
        session.ask(&line)
    }

    /// What is left of the second in which the server isn't asked for changes again.
    fn left(&self) -> Result<Duration, Failure> {
        match self.last {
            Some(last) => Ok(Duration::from_secs(SECOND).saturating_sub(now(
                self.rt,
            )?.duration_since(last))),
            None => Ok(Duration::ZERO),
        }
    }

    /// How long to wait for octets of the server.
    fn patience(&self) -> Result<Duration, Failure> {
        if self.course.is_behind && !self.awaits() {
            self.left()
        } else {
            Ok(Duration::from_secs(MINUTE))
        }
    }

    /// Waits for octets of the server. Where none come in time an answer is missing, or else the server is to be asked for changes.
    fn wait(&mut self, session: &mut Session) -> Result<(), Failure> {
        let patience = self.patience()?;
        if !patience.is_zero() {
            session.give_time(patience)?;
            if session.take_in_time()? {
                return Ok(());
            }
            if self.awaits() {
                return Err(Failure::Other(Problem::Silent));
            }
        }
        self.ask(session)
    }

    /// Heeds the answer of the SEARCH.
    fn end_search(&mut self, ending: Ending, text: &[u8]) -> Result<(), Failure> {
        if ending != Ending::Done {
            return Err(Failure::refused(text));
        }
        self.course.is_listing = false;
        self.course.is_behind = true;
        if self.course.is_first {
            self.course.due = Due::Judge;
        }
        Ok(())
    }

    /// Heeds the answer of an UPDATECONTEXT. Where it is refused the list was freed.
    fn end_update(&mut self, ending: Ending) {
        self.course.is_asked = false;
        if ending != Ending::Done && !self.course.is_listing {
            self.course.due = Due::List;
        }
    }

    /// Heeds a line that is followed already.
    fn heed(&mut self, line: &Line) -> Result<(), Failure> {
        match line {
            Line::Bye(_, text) => return Err(Failure::refused(*text)),
            Line::Completion(Some(tag), ending, _, text) if *tag == TAG => {
                return self.end_search(*ending, *text);
            }
            Line::Completion(Some(_), ending, _, _) => self.end_update(*ending),
            Line::AddTo(..) | Line::RemoveFrom(..) | Line::Change(..) => self.course.is_behind =
                true,
            Line::UpTo(_, _) => self.course.due = Due::Write,
            Line::Alert(_) if self.is_freed() && !self.course.is_listing => {
                self.course.due = Due::List;
            }
            _ => {}
        }
        Ok(())
    }

    /// Heeds a response.
    fn hear(&mut self, response: &Response) -> Result<(), Failure> {
        match response.line() {
            Some(line) => {
                follow(&mut self.follower, &line)?;
                self.heed(&line)
            }
            None => Ok(()),
        }
    }

    /// Heeds what has come, or else waits.
    pub(crate) fn step(&mut self, session: &mut Session) -> Result<(), Failure> {
        match session.heard()? {
            Some(response) => self.hear(&response),
            None => self.wait(session),
        }
    }

    /// Begins a session: its user has to be an administrator, and the list is asked for.
    pub(crate) fn begin(&mut self, session: &mut Session) -> Result<(), Failure> {
        need_administrator(self.rt.alloc(), session, self.user.as_bytes())?;
        self.was_let_in = true;
        self.follower = Follower::new(self.rt.alloc());
        self.course = beginning();
        self.last = None;
        self.list(session)
    }
}
