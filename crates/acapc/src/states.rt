//! The states of the file that `keep` writes: each is what the server had at a moment.

use crate::dumping::{Dumped, dump_into};
use crate::failure::{Failure, Problem};
use crate::keeper::{Keeper, now};
use crate::kept_file::{give_up, next, put_in_place};
use std::fs::File;

impl<'a> Keeper<'a> {
    /// Says what isn't kept of a state that was kept of the one before.
    fn compare(&mut self, before: Dumped, dumped: Dumped) -> Result<(), Failure> {
        if dumped.has_heirs && !before.has_heirs && !self.over_bases {
            self.say(&Failure::Other(Problem::Heirs))?;
        }
        if dumped.left_out > before.left_out {
            self.say(&Failure::Other(Problem::NotWhole))?;
        }
        Ok(())
    }

    /// Looks at a state before it is put in place. Fails where the program isn't to begin with it.
    fn look_at(&mut self, dumped: Dumped) -> Result<(), Failure> {
        match self.dumped {
            Some(before) => self.compare(before, dumped),
            None if dumped.has_heirs && !self.over_bases => Err(Failure::Other(Problem::Heirs)),
            None => Ok(()),
        }
    }

    /// Makes the next state in its file, and puts it in place of the last one. What can't be written is named where it is the first.
    fn make(&mut self, file: &File) -> Result<(), Failure> {
        let dumped = match self.kept() {
            Some(kept) if kept.is_complete() => {
                dump_into(self.rt, file, kept.held().rows(), self.dumped.is_none())?
            }
            _ => return Err(Failure::Other(Problem::Freed)),
        };
        self.look_at(dumped)?;
        put_in_place(self.rt, self.file.as_str(), file)?;
        self.dumped = Some(dumped);
        self.said.clear();
        Ok(())
    }

    /// What is followed is what the server has at a moment: replaces the file by it. Where that can't be done it is tried again.
    pub(crate) fn write(&mut self) -> Result<(), Failure> {
        if !self.course.is_behind || self.course.is_first {
            return Ok(());
        }
        let made = match next(self.rt, self.file.as_str()) {
            Ok(file) => self.make(&file),
            Err(failure) => Err(failure),
        };
        if made.is_err() {
            give_up(self.rt, self.file.as_str());
        }
        self.course.is_behind = made.is_err();
        self.last = now(self.rt).ok();
        self.go_on(made)
    }
}
