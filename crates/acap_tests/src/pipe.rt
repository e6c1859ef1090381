//! A test of sessions whose reader or writer fails.
ghost use Rattle.std.specs.Prelude.{◌≡◌, ◌<◌};

use acap_entries::{Steps, UserName};
use acap_session::{PipeFault, run_pipe};
use std::alloc::Global;
use std::io::{self, Read, Write};
use std::marker::Brand;
use std::sync::ledger::{Blank, Ledger};

/// More reads or writes than a session makes.
const MANY: usize = 100_000;

/// A reader of octets in memory, at most seven at a time, which fails after a number of reads.
#[derive(Drop)]
struct Pieces<'a> {
    left: &'a [u8],
    reads: usize,
}

impl<'a> Read for Pieces<'a> {
    fn read(&mut self, buf: &mut [u8]) -> io::Result<usize> {
        if self.reads == 0 {
            return Err(io::Error::from(io::ErrorKind::Other));
        }
        self.reads -= 1;
        let count = self.left.len().min(7).min(buf.len());
        let (front, back) = self.left.split_at(count);
        buf[..count].copy_from_slice(front);
        self.left = back;
        Ok(count)
    }
}

/// A writer into memory, which fails after a number of writes.
#[derive(Drop)]
struct Sink {
    text: Vec<u8>,
    writes: usize,
}

impl Write for Sink {
    fn write(&mut self, buf: &[u8]) -> io::Result<usize> {
        if self.writes == 0 {
            return Err(io::Error::from(io::ErrorKind::Other));
        }
        self.writes -= 1;
        if self.text.extend_from_slice(buf).is_err() {
            return Err(io::Error::from(io::ErrorKind::OutOfMemory));
        }
        Ok(buf.len())
    }

    fn flush(&mut self) -> io::Result<()> {
        Ok(())
    }
}

/// A STORE and a SEARCH, and then a second of each (RFC 2244 sections 6.4.1 and 6.6.1).
const STORES: &[u8] =
    b"A1 STORE (\"/option/~/font\" \"option.value\" \"mono\")\r\nA2 SEARCH \"/option/~/\" RETURN (\"option.value\" \"modtime\") ALL\r\nA3 STORE (\"/option/~/size\" \"option.value\" \"10\")\r\nA4 SEARCH \"/option/~/\" RETURN (\"modtime\") ALL\r\n";

/// How a session of joe ends whose reader or writer fails after this many reads or writes, and what it writes.
fn session<L: Ledger>(
    alloc: Global,
    reads: usize,
    writes: usize,
    steps: &mut Steps<L>,
) -> (Result<(), PipeFault>, Vec<u8>) {
    let Ok(user) = UserName::read(alloc, b"joe") else {
        return (Err(PipeFault::Memory), Vec::new(alloc));
    };
    let mut pieces = Pieces {
        left: STORES,
        reads,
    };
    let mut sink = Sink {
        text: Vec::new(alloc),
        writes,
    };
    let done = run_pipe(alloc, &mut pieces, &mut sink, user, steps);
    (done, sink.text)
}

/// Whether it ends by its fault or has written all, and has written a prefix of what is said without faults.
fn is_right<L: Ledger>(
    alloc: Global,
    whole: &[u8],
    reads: usize,
    writes: usize,
    steps: &mut Steps<L>,
) -> bool {
    let (end, text) = session(alloc, reads, writes, steps);
    let fault = if reads == MANY {
        PipeFault::Write
    } else {
        PipeFault::Read
    };
    (end == Err(fault) || text.as_slice() == whole) && whole.starts_with(text.as_slice())
}

/// Whether that is so of each count of reads, and of writes, below `counts`.
fn are_right<L: Ledger>(alloc: Global, counts: usize, blank: Blank) -> bool
    requires name { blank.name ≡ L.name }
    requires parts { blank.parts ≡ L.parts }
    requires some { 0 < L.parts }
{
    let mut steps = Steps::<L>::new(blank);
    let (_, whole) = session(alloc, MANY, MANY, &mut steps);
    for count in 0..counts {
        if !is_right(alloc, &whole, count, MANY, &mut steps) {
            return false;
        }
        if !is_right(alloc, &whole, MANY, count, &mut steps) {
            return false;
        }
    }
    !whole.is_empty()
}

#[test]
fn ends_where_a_reader_or_writer_fails(rt: HostRuntime) {
    assert!(rt; are_right::<Brand>(rt.alloc(), STORES.len() / 7 + 2, Blank::new(1)));
}
