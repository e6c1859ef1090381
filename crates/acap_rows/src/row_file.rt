//! Reads row files: what each row sends, and what is answered.

use crate::escapes::add_line;
use std::alloc::Global;

/// What becomes of what a row sends.
#[derive(Clone, Copy)]
pub(crate) enum RowKind<'a> {
    /// It is what a session of that user reads.
    Session(&'a str),
    /// It is a script.
    Script,
    /// It is what a call of the program with those words reads.
    Call(&'a str),
}

impl<'a> RowKind<'a> {
    // What stands after each line that is sent or answered.
    fn line_end(self) -> &'static [u8] {
        match self {
            RowKind::Session(_) => b"\r\n",
            RowKind::Script | RowKind::Call(_) => b"\n",
        }
    }
}

/// A row: what is sent, and what is answered.
#[derive(Drop)]
pub(crate) struct FileRow<'a> {
    pub(crate) name: &'a str,
    pub(crate) kind: RowKind<'a>,
    pub(crate) sent: Vec<u8>,
    pub(crate) wanted: Vec<u8>,
}

// What has been read of a row file: the rows, and the kind of those to come if that has been said.
#[derive(Drop)]
struct Reading<'a> {
    kind: Option<RowKind<'a>>,
    rows: Vec<FileRow<'a>>,
}

// The text after a mark of one character, and after a space, if one follows.
fn behind_mark<'a>(line: &'a str, mark: char) -> Option<&'a [u8]> {
    let behind = line.strip_prefix(mark)?;
    Some(behind.strip_prefix(' ').unwrap_or(behind).as_bytes())
}

impl<'a> Reading<'a> {
    // Begins a row of that name.
    fn begin(&mut self, alloc: Global, name: &'a str) -> Option<()> {
        let row = FileRow {
            name,
            kind: self.kind?,
            sent: Vec::new(alloc),
            wanted: Vec::new(alloc),
        };
        self.rows.push(row).ok()
    }

    // Reads a line that says what is sent or answered.
    fn read_text(&mut self, line: &'a str) -> Option<()> {
        let row = self.rows.last_mut()?;
        let end = row.kind.line_end();
        match behind_mark(line, '>') {
            Some(text) => add_line(text, end, &mut row.sent),
            None => add_line(behind_mark(line, '<')?, end, &mut row.wanted),
        }
    }

    // Reads a line. None: it is of no known form, or memory was refused.
    fn read(&mut self, alloc: Global, line: &'a str) -> Option<()> {
        if line.is_empty() || line.starts_with('#') {
            return Some(());
        }
        if let Some(name) = line.strip_prefix("row ") {
            return self.begin(alloc, name);
        }
        if let Some(user) = line.strip_prefix("session ") {
            self.kind = Some(RowKind::Session(user));
            return Some(());
        }
        if line == "script" {
            self.kind = Some(RowKind::Script);
            return Some(());
        }
        if line == "call" || line.starts_with("call ") {
            self.kind = Some(RowKind::Call(line.strip_prefix("call")?));
            return Some(());
        }
        self.read_text(line)
    }
}

/// The rows of a row file, or the number of the first line that can't be read.
pub(crate) fn read_rows<'a>(alloc: Global, text: &'a str) -> Result<Vec<FileRow<'a>>, usize> {
    let mut reading = Reading {
        kind: None,
        rows: Vec::new(alloc),
    };
    for (number, line) in text.lines().enumerate() {
        if reading.read(alloc, line).is_none() {
            return Err(number.saturating_add(1));
        }
    }
    let Reading { rows, .. } = reading;
    Ok(rows)
}
