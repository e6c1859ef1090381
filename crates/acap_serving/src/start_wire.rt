//! `StartWire`: a text, read as a wire.
ghost use Rattle.std.specs.Prelude.{◌≡◌, ◌≤◌, ◌+◌, length};
ghost use Rattle.acap_serving.specs.Devices.{silent_wire};

use crate::wire_faults::faults_after;
use acap_task::{Wire, WireFault};
use futures::task::{Context, Poll};

/// A text as a wire: it is read, and what is written is dropped. So it keeps nothing, and reports none of its octets.
#[derive(Drop)]
pub(crate) struct StartWire {
    text: Vec<u8>,
    at: usize,
    ended: bool,
    write_faults: u64,
    ghost within: { at ≤ length text.items },
}

impl StartWire {
    /// A wire at the beginning of that text.
    pub(crate) fn new(text: Vec<u8>) -> StartWire
        ensures { ⟦<StartWire as Wire>⟧.told result ≡ silent_wire }
    {
        StartWire {
            text,
            at: 0,
            ended: false,
            write_faults: 0,
        }
    }
}

// Copies octets of a text, from a place in it, to the beginning of a buffer, and says how many.
fn copy_from(text: &[u8], at: usize, buffer: &mut [u8]) -> usize
    requires { at ≤ length text.now }
    ensures within { at + result ≤ length text.now }
    ensures room { result ≤ length buffer.new }
{
    let (_read, left) = text.split_at(at);
    let count = left.len().min(buffer.len());
    buffer[..count].copy_from_slice(&left[..count]);
    count
}

impl Wire for StartWire {
    ghost told = { λ w. record silent_wire { ended = w.ended; write_faults = w.write_faults } };

    fn poll_read(
        &mut self,
        _cx: &mut Context<'_>,
        buffer: &mut [u8],
    ) -> Poll<Result<usize, WireFault>> {
        let count = copy_from(&self.text, self.at, buffer);
        self.at += count;
        self.ended = self.ended | (count == 0);
        Poll::Ready(Ok(count))
    }

    fn poll_write(
        &mut self,
        _cx: &mut Context<'_>,
        octets: &[u8],
    ) -> Poll<Result<usize, WireFault>> {
        self.write_faults = faults_after(self.write_faults, octets.len());
        Poll::Ready(Ok(octets.len()))
    }
}
