//! Collects the STOREs that make again what a server holds.

use acap_client::Data;
use acap_commands::StoreItem;
use acap_entries::{Copying, Memory, NameFault, Path};
use acap_shell as shell;
use acap_shell::{Form, print_name};
use std::alloc::Global;
use std::mem;

/// The most octets of a command (RFC 2244 section 2.2 leaves the limit to the server).
const COMMAND: usize = 262_144;

/// The octets that are collected before they are written.
const ROOM: usize = 65_536;

/// What is collected of a dump.
#[derive(Drop)]
pub(crate) struct Stores {
    alloc: Global,
    /// The lines of STOREs that aren't written yet.
    pub(crate) lines: Vec<u8>,
    /// A line for each item and entry that can't be written, for standard error.
    pub(crate) complaints: Vec<u8>,
    // what datasets inherit from, which is stored after all else
    later: Vec<(Path, StoreItem)>,
    number: u64,
    /// How many items and entries can't be written.
    pub(crate) left_out: u64,
}

/// The tag of this number.
fn tag_of(alloc: Global, number: u64) -> Result<Vec<u8>, Memory> {
    Ok(format!(in alloc; "D{number}")?.into_bytes())
}

impl Stores {
    /// Nothing is collected yet.
    pub(crate) fn new(alloc: Global) -> Stores {
        Stores {
            alloc,
            lines: Vec::new(alloc),
            complaints: Vec::new(alloc),
            later: Vec::new(alloc),
            number: 1,
            left_out: 0,
        }
    }

    /// Whether a dataset inherits, among what is kept for the end.
    pub(crate) fn has_heirs(&self) -> bool {
        !self.later.is_empty()
    }

    /// Whether enough is collected to be written.
    pub(crate) fn is_full(&self) -> bool {
        self.lines.len() >= ROOM
    }

    /// Leaves out an item of an entry, or all of it.
    fn leave_out(&mut self, name: &[u8]) -> Result<(), Memory> {
        self.left_out = self.left_out.saturating_add(1);
        self.complaints.extend_from_slice(b"not written: ")?;
        print_name(&mut self.complaints, Form::Escaped, name)
    }

    /// Adds the STORE of an item, unless its line is too long.
    fn store(&mut self, path: Path, item: StoreItem) -> Result<(), Memory> {
        let name = shell::full_path(self.alloc, &path);
        let tag = tag_of(self.alloc, self.number)?;
        let line = shell::item_line(self.alloc, &tag, path, item)?;
        if line.len() > COMMAND {
            return self.leave_out(&name?);
        }
        self.number = self.number.saturating_add(1);
        Ok(self.lines.extend_from_slice(&line)?)
    }

    /// Adds the STORE of an item of an entry, or keeps it for the end if it says what a dataset inherits from.
    fn add_item(&mut self, path: &Path, item: StoreItem) -> Result<(), Memory> {
        let path = path.copy();
        if shell::is_inheritance(&item) {
            Ok(self.later.push((path?, item))?)
        } else {
            self.store(path?, item)
        }
    }

    /// Adds the STOREs of an entry.
    fn add_items(&mut self, path: &Path, items: &Data) -> Result<(), Memory> {
        for item in shell::stores_of(self.alloc, path, items)? {
            self.add_item(path, item)?;
        }
        Ok(())
    }

    /// Adds the STOREs of the entry of this name, but for what its dataset inherits from.
    pub(crate) fn add_entry(&mut self, name: &[u8], items: &Data) -> Result<(), Memory> {
        match Path::read(self.alloc, name) {
            Ok(path) => self.add_items(&path, items),
            Err(NameFault::BadName) => self.leave_out(name),
            Err(NameFault::Memory) => Err(Memory),
        }
    }

    /// Adds what datasets inherit from, after all entries.
    pub(crate) fn add_heirs(&mut self) -> Result<(), Memory> {
        let later = mem::replace(&mut self.later, Vec::new(self.alloc));
        for (path, item) in later {
            self.store(path, item)?;
        }
        Ok(())
    }
}
