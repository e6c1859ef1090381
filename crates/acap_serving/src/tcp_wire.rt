//! `TcpWire`: a TCP stream, read and written as a wire.
ghost use Rattle.std.specs.Prelude.{◌≡◌, None, false};
ghost use Rattle.acap_serving.specs.Devices.{silent_wire};

use crate::wire_faults::faults_after;
use acap_task::{Wire, WireFault, count_up};
use futures::task::{Context, Poll};
use tokio::io::{AsyncRead, AsyncWrite};
use tokio::net::TcpStream;

/// A TCP stream as a wire (RFC 2244 section 2). What a socket gives and takes is the system's, so it reports none of
/// its octets: its counts alone, and whether its reader has ended.
#[derive(Drop)]
pub struct TcpWire {
    stream: TcpStream,
    ended: bool,
    read_faults: u64,
    write_faults: u64,
    read_waits: u64,
    write_waits: u64,
}

impl TcpWire {
    /// A wire over that stream, at which nothing was done yet.
    pub fn new(stream: TcpStream) -> TcpWire
        ensures { ⟦<TcpWire as Wire>⟧.told result ≡ silent_wire }
    {
        TcpWire {
            stream,
            ended: false,
            read_faults: 0,
            write_faults: 0,
            read_waits: 0,
            write_waits: 0,
        }
    }

    /// The stream.
    pub(crate) fn into_stream(self) -> TcpStream {
        self.stream
    }
}

impl Wire for TcpWire {
    ghost use Rattle.tokio.specs.Net.{stream_readable, stream_writable};

    ghost read_needs = { λ w s. s ≡ stream_readable w.stream };

    ghost write_needs = { λ w s. s ≡ stream_writable w.stream };

    ghost told = { λ w. record silent_wire {
      ended = w.ended;
      read_faults = w.read_faults;
      write_faults = w.write_faults;
      read_waits = w.read_waits;
      write_waits = w.write_waits;
    } };

    fn poll_read(
        &mut self,
        cx: &mut Context<'_>,
        buffer: &mut [u8],
    ) -> Poll<Result<usize, WireFault>> {
        match AsyncRead::poll_read(&mut self.stream, cx, buffer) {
            Poll::Ready(Ok(count)) => {
                self.ended = self.ended | (count == 0);
                Poll::Ready(Ok(count))
            }
            Poll::Ready(Err(_)) => {
                self.read_faults = count_up(self.read_faults);
                Poll::Ready(Err(WireFault))
            }
            Poll::Pending => {
                self.read_waits = count_up(self.read_waits);
                Poll::Pending
            }
        }
    }

    fn poll_write(
        &mut self,
        cx: &mut Context<'_>,
        octets: &[u8],
    ) -> Poll<Result<usize, WireFault>> {
        match AsyncWrite::poll_write(&mut self.stream, cx, octets) {
            Poll::Ready(Ok(count)) => {
                self.write_faults = faults_after(self.write_faults, count);
                Poll::Ready(Ok(count))
            }
            Poll::Ready(Err(_)) => {
                self.write_faults = count_up(self.write_faults);
                Poll::Ready(Err(WireFault))
            }
            Poll::Pending => {
                self.write_waits = count_up(self.write_waits);
                Poll::Pending
            }
        }
    }
}
