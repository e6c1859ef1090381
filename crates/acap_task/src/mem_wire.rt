//! `MemWire`: a wire for tests, whose sides do what their plans say.
ghost use Rattle.std.specs.Prelude.{◌≡◌, ◌≤◌, ◌+◌, ◌++◌, IfOk, Some, length, min, take, drop};
ghost use Rattle.acap_task.specs.Told.{after_read, after_write, new_wire};
ghost use Rattle.futures.specs.Poll.{IfReady, OnPending};
ghost use Rattle.futures.specs.Task.{Covers, Keeps};
ghost use Rattle.acap_task.specs.Plans.{IsDone, IsPut, moved_by, next_of, rest_of};

use crate::count::count_up;
use crate::plan::Plan;
use crate::wire::{Wire, WireFault};
use futures::task::{Context, Poll};
use std::alloc::Global;
use std::marker::Model;

/// What a side of a wire in memory answers at one poll.
#[derive(Clone, Copy, Debug, PartialEq, Eq)]
pub enum WireAnswer {
    /// It moves this many octets, or all that there are where these are fewer.
    Moves(usize),
    /// It is not ready.
    Waits,
    /// It fails.
    Fails,
}

/// A wire whose reader and writer do what their plans say, and which reports all: contracts see it as what it
/// reports, the octets that were not read yet, and the plans of reader and writer. A reader that moves no
/// octet reports its end.
#[derive(Drop)]
pub struct MemWire {
    input: Vec<u8>,
    at: usize,
    output: Vec<u8>,
    reads: Plan<WireAnswer>,
    writes: Plan<WireAnswer>,
    ended: bool,
    read_faults: u64,
    write_faults: u64,
    read_waits: u64,
    write_waits: u64,
}

impl Model for MemWire {
    ghost use Rattle.std.specs.Prelude.{◌≤◌, length, take, drop, Some};
    ghost use Rattle.acap_task.specs.Wires.{WireNow};

    ghost Value = { WireNow };

    ghost view = { λ w. record {
      told = record {
        taken = Some (take w.at w.input.items);
        put = Some w.output.items;
        ended = w.ended;
        read_faults = w.read_faults;
        write_faults = w.write_faults;
        read_waits = w.read_waits;
        write_waits = w.write_waits;
      };
      left = drop w.at w.input.items;
      reads = w.reads;
      writes = w.writes;
    } };

    ghost invariant = { λ w. w.at ≤ length w.input.items };
}

impl MemWire {
    /// A wire that has these octets to be read, with a plan for its reader and one for its writer. Takes no
    /// memory.
    pub fn new(
        alloc: Global,
        input: Vec<u8>,
        reads: Plan<WireAnswer>,
        writes: Plan<WireAnswer>,
    ) -> MemWire
        ensures { result ≡ record { told = new_wire; left = input.items; reads = reads; writes = writes } }
    {
        MemWire {
            input,
            at: 0,
            output: Vec::new(alloc),
            reads,
            writes,
            ended: false,
            read_faults: 0,
            write_faults: 0,
            read_waits: 0,
            write_waits: 0,
        }
    }

    /// The octets that were read, in their order.
    pub fn taken(&self) -> &[u8]
        ensures { self.now.told.taken ≡ Some result.now }
    {
        &self.input[..self.at]
    }

    /// The octets that were written, in their order.
    pub fn output(&self) -> &[u8]
        ensures { self.now.told.put ≡ Some result.now }
    {
        self.output.as_slice()
    }
}

// Copies octets of a text, from a place in it, to the first places of a buffer, and says how many.
fn copy_from(text: &[u8], at: usize, buffer: &mut [u8], width: usize) -> usize
    requires { at ≤ length text.now }
    ensures count { result ≡ min width (min (length (drop at text.now)) (length buffer.old)) }
    ensures within { at + result ≤ length text.now }
    ensures room { result ≤ length buffer.new }
    ensures taken { take (at + result) text.now ≡ take at text.now ++ take result buffer.new }
    ensures left { drop (at + result) text.now ≡ drop result (drop at text.now) }
{
    let (_front, left) = text.split_at(at);
    let count = width.min(left.len().min(buffer.len()));
    buffer[..count].copy_from_slice(&left[..count]);
    count
}

impl Wire for MemWire {
    ghost told = { λ w. w.told };

    fn poll_read(
        &mut self,
        cx: &mut Context<'_>,
        buffer: &mut [u8],
    ) -> Poll<Result<usize, WireFault>>
        ensures bound { IfReady result (λ r. IfOk r (λ n. n ≤ length buffer.new)) }
        ensures told { self.new.told ≡ after_read self.old.told result buffer.new }
        ensures registered { OnPending result (Covers cx.new (λ _. ⊥)) }
        ensures kept { Keeps cx.old cx.new }
        ensures done { IsDone (next_of self.old.reads)
            (min (length self.old.left) (length buffer.old)) result }
        ensures left { self.new.left ≡ drop (moved_by result) self.old.left }
        ensures plans { (self.new.reads ≡ rest_of self.old.reads) × (self.new.writes ≡ self.old.writes) }
    {
        match self.reads.next() {
            WireAnswer::Moves(width) => {
                let count = copy_from(self.input.as_slice(), self.at, buffer, width);
                self.ended = self.ended | (count == 0);
                self.at += count;
                Poll::Ready(Ok(count))
            }
            WireAnswer::Waits => {
                self.read_waits = count_up(self.read_waits);
                cx.yield_now()
            }
            WireAnswer::Fails => {
                self.read_faults = count_up(self.read_faults);
                Poll::Ready(Err(WireFault))
            }
        }
    }

    fn poll_write(&mut self, cx: &mut Context<'_>, octets: &[u8]) -> Poll<Result<usize, WireFault>>
        ensures bound { IfReady result (λ r. IfOk r (λ n. n ≤ length octets.now)) }
        ensures told { self.new.told ≡ after_write self.old.told result octets.now }
        ensures registered { OnPending result (Covers cx.new (λ _. ⊥)) }
        ensures kept { Keeps cx.old cx.new }
        ensures done { IsPut (next_of self.old.writes) (length octets.now) result }
        ensures left { self.new.left ≡ self.old.left }
        ensures plans { (self.new.reads ≡ self.old.reads) × (self.new.writes ≡ rest_of self.old.writes) }
    {
        match self.writes.next() {
            WireAnswer::Moves(width) => {
                let count = octets.len().min(width);
                if self.output.extend_from_slice(&octets[..count]).is_err() {
                    self.write_faults = count_up(self.write_faults);
                    return Poll::Ready(Err(WireFault));
                }
                if count == 0 {
                    self.write_faults = count_up(self.write_faults);
                }
                Poll::Ready(Ok(count))
            }
            WireAnswer::Waits => {
                self.write_waits = count_up(self.write_waits);
                cx.yield_now()
            }
            WireAnswer::Fails => {
                self.write_faults = count_up(self.write_faults);
                Poll::Ready(Err(WireFault))
            }
        }
    }
}
