//! `keep` judges the first list of a session, and what is done where the server may have lost entries.

use crate::contents::entries_of;
use crate::failure::{Failure, Problem};
use crate::keeper::{Due, Keeper, MINUTE, Remedy};
use crate::kept_file::{is_marked, mark, put_aside, unmark};
use crate::restoring::restore_from;
use crate::session::Session;
use std::time::Duration;

impl<'a> Keeper<'a> {
    /// Sends the file's commands to the server. Where one is refused the file is put aside, as its next state won't have it.
    pub(crate) fn restore(&mut self, session: &mut Session) -> Result<(), Failure> {
        session.give_time(Duration::from_secs(MINUTE))?;
        mark(self.rt, self.file.as_str())?;
        if restore_from(self.rt, session, self.file.as_str())? {
            put_aside(self.rt, self.file.as_str())?;
        }
        unmark(self.rt, self.file.as_str())?;
        self.course.is_restored = true;
        self.list(session)
    }

    /// Puts the file aside.
    fn accept(&mut self) -> Result<(), Failure> {
        put_aside(self.rt, self.file.as_str())?;
        unmark(self.rt, self.file.as_str())?;
        self.course.is_first = false;
        Ok(())
    }

    /// Finds what is to be done about a server that doesn't have what the file was made from. A file that isn't one of whole commands is
    /// never sent, and none is sent twice in a session.
    fn remedy(&mut self, fault: Problem) -> Result<(), Failure> {
        let may_restore = !matches!(fault, Problem::NoCommands) && !self.course.is_restored;
        match self.remedy {
            Remedy::Accept => self.accept(),
            Remedy::Restore if may_restore => {
                self.course.due = Due::Restore;
                Ok(())
            }
            _ => Err(Failure::Other(fault)),
        }
    }

    /// What is wrong with the first list of a session, if the file wasn't made from it: it has fewer than half of the file's entries, for
    /// example.
    fn fault(&self) -> Result<Option<Problem>, Failure> {
        let entries = entries_of(self.rt, self.file.as_str())?;
        let is_marked = is_marked(self.rt, self.file.as_str())?;
        Ok(match entries {
            None => Some(Problem::NoCommands),
            Some(_) if is_marked => Some(Problem::HalfRestored),
            Some(entries) if self.rows().saturating_mul(2) < entries => Some(Problem::TooFew),
            Some(_) => None,
        })
    }

    /// Judges whether the file may have been made from the first list of a session.
    pub(crate) fn judge(&mut self) -> Result<(), Failure> {
        match self.fault()? {
            Some(fault) => self.remedy(fault),
            None => {
                self.course.is_first = false;
                Ok(())
            }
        }
    }
}
