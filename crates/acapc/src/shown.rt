//! Prints the lines that answer a command.

use crate::failure::{Failure, Operation};
use crate::session::end_of;
use acap_client::{Data, Line, Response};
use acap_entries::Memory;
use acap_shell::{Form, print_attributes, print_name, print_rights, print_value};
use std::io;
use std::io::Write;

/// The octets that are collected before they are printed.
const ROOM: usize = 65_536;

/// What is printed of the entries that a SEARCH finds.
#[derive(Clone, Copy)]
pub(crate) enum Shown<'a> {
    /// Nothing.
    Nothing,
    /// Their names.
    Names,
    /// All their attributes with their values.
    Attributes,
    /// The values of this attribute.
    Values(&'a [u8]),
    /// My rights, and the access lists that they have.
    Rights,
}

/// What is printed, and what of it is still to be written.
#[derive(Drop)]
pub(crate) struct Printing<'a> {
    rt: &'a HostRuntime,
    form: Form,
    shown: Shown<'a>,
    out: Vec<u8>,
}

/// Writes octets that were collected, and drops them.
pub(crate) fn write_out(rt: &HostRuntime, out: &mut Vec<u8>) -> Result<(), Failure> {
    match io::writer(rt).write_all(out) {
        Ok(()) => {
            out.clear();
            Ok(())
        }
        Err(error) => Err(Failure::System(Operation::Print, error)),
    }
}

impl<'a> Printing<'a> {
    /// Nothing is printed yet.
    pub(crate) fn new(rt: &'a HostRuntime, form: Form, shown: Shown<'a>) -> Printing<'a> {
        let out = Vec::new(rt.alloc());
        Printing {
            rt,
            form,
            shown,
            out,
        }
    }

    /// Adds the lines of an entry that a SEARCH finds.
    fn print_entry(&mut self, name: &[u8], items: &Data) -> Result<(), Memory> {
        match self.shown {
            Shown::Nothing => Ok(()),
            Shown::Names => print_name(&mut self.out, self.form, name),
            Shown::Attributes => print_attributes(&mut self.out, self.form, name, items),
            Shown::Values(attribute) => {
                print_value(&mut self.out, self.form, name, attribute, items)
            }
            Shown::Rights => print_rights(&mut self.out, self.form, items),
        }
    }

    /// Prints what a line of an answer says.
    fn print(&mut self, line: &Line) -> Result<(), Failure> {
        match line {
            Line::Entry(_, name, items) => self.print_entry(*name, items)?,
            Line::Rights(_, rights) => print_name(&mut self.out, self.form, *rights)?,
            _ => {}
        }
        if self.out.len() >= ROOM {
            self.flush()?;
        }
        Ok(())
    }

    /// Prints what a response says, but for one that ends the command: how it ends, or what has failed.
    pub(crate) fn heed(&mut self, tag: &[u8], response: &Response) -> Option<Result<(), Failure>> {
        let line = response.line()?;
        match end_of(tag, &line) {
            Some(done) => Some(done),
            None => match self.print(&line) {
                Ok(()) => None,
                Err(failure) => Some(Err(failure)),
            },
        }
    }

    /// Writes what isn't written yet.
    fn flush(&mut self) -> Result<(), Failure> {
        write_out(self.rt, &mut self.out)
    }

    /// Writes what isn't written yet, and says what was done, where that can be written.
    pub(crate) fn end(&mut self, done: Result<(), Failure>) -> Result<(), Failure> {
        match self.flush() {
            Ok(()) => done,
            Err(failure) => Err(failure),
        }
    }
}
