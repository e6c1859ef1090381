//! Runs rows, each of which says what is sent to the server and what is answered, from the files that the arguments
//! name, and reports which are wrong and how many hold.
#![tactic(auto)]

ghost use Rattle.std.specs.Prelude.{◌≡◌, ◌<◌};

mod difference;
mod escapes;
mod pieces;
mod row_file;
mod running;

use crate::row_file::{FileRow, read_rows};
use crate::running::first_wrong;
use acap_entries::Steps;
use std::marker::Brand;
use std::process::ExitCode;
use std::sync::ledger::{Blank, Ledger};
use std::{env, fs, io};

/// The status where a row doesn't hold, or there is none.
const WRONG: u8 = 1;

/// The word after which the arguments name files of wrong rows: what is reported of these is looked at, and none counts.
const TOLD: &str = "--told";

/// How many rows there were, and how many of them held.
#[derive(Clone, Copy)]
struct Tally {
    rows: u64,
    held: u64,
}

impl Tally {
    // A row more. What can't be read counts as a row that doesn't hold.
    fn count(&mut self, held: bool) {
        self.rows = self.rows.saturating_add(1);
        if held {
            self.held = self.held.saturating_add(1);
        }
    }
}

// Runs a row, and reports where it is wrong: how it was cut, and the first line that differs.
fn run_row<L: Ledger>(
    rt: &HostRuntime,
    file: &str,
    row: &FileRow,
    tally: &mut Tally,
    steps: &mut Steps<L>,
) -> io::Result<()> {
    let wrong = first_wrong(rt.alloc(), row, steps)?;
    tally.count(wrong.is_none());
    if let Some(wrong) = wrong {
        println!(rt; "{file}: {} ({})", row.name, wrong.sizes)?;
        println!(rt; "  wanted: {}", wrong.lines.wanted)?;
        println!(rt; "  got:    {}", wrong.lines.got)?;
    }
    Ok(())
}

// Runs the rows of a file's text; where a line can't be read, that is reported, and no row is run.
fn run_text<L: Ledger>(
    rt: &HostRuntime,
    file: &str,
    text: &str,
    tally: &mut Tally,
    steps: &mut Steps<L>,
) -> io::Result<()> {
    match read_rows(rt.alloc(), text) {
        Ok(rows) => {
            for row in &rows {
                run_row(rt, file, row, tally, steps)?;
            }
            Ok(())
        }
        Err(number) => {
            tally.count(false);
            println!(rt; "{file}: can't read line {number}")
        }
    }
}

// Runs the rows of a file; where it can't be read, that is reported.
fn run_file<L: Ledger>(
    rt: &HostRuntime,
    file: &str,
    tally: &mut Tally,
    steps: &mut Steps<L>,
) -> io::Result<()> {
    match fs::read_to_string(rt, file) {
        Ok(text) => run_text(rt, file, text.as_str(), tally, steps),
        Err(_) => {
            tally.count(false);
            println!(rt; "{file}: can't be read")
        }
    }
}

// Runs the rows of all files that the arguments name, and reports how many hold. What their searches look at is counted.
fn run<L: Ledger>(rt: &HostRuntime, blank: Blank) -> io::Result<ExitCode>
    requires name { blank.name ≡ L.name }
    requires parts { blank.parts ≡ L.parts }
    requires some { 0 < L.parts }
{
    let mut steps = Steps::<L>::new(blank);
    let mut tally = Tally { rows: 0, held: 0 };
    let mut counts = true;
    let mut words = env::args(rt)?;
    let _program = words.next();
    for word in words {
        let mut told = Tally { rows: 0, held: 0 };
        match word.as_str() {
            TOLD => counts = false,
            file if counts => run_file(rt, file, &mut tally, &mut steps)?,
            file => run_file(rt, file, &mut told, &mut steps)?,
        }
    }
    let Tally { rows, held } = tally;
    println!(rt; "{held} of {rows} rows hold")?;
    Ok(ExitCode::from(if rows > 0 && held == rows { 0 } else { WRONG }))
}

fn main(rt: HostRuntime) -> io::Result<ExitCode> {
    run::<Brand>(&rt, Blank::new(1))
}
