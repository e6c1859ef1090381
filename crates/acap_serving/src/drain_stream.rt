//! Reads a stream to its end after its session, so that the client gets all that was sent to it.
ghost use Rattle.std.specs.Prelude.{◌≤◌, length};
ghost use Rattle.futures.specs.Poll.{IfReady, OnPending};
ghost use Rattle.futures.specs.Task.{IsArmed, Keeps};

use futures::task::{Context, Poll};
use futures::{Future, ready};
use std::time::{Clock, Duration, Instant};
use tokio::io::{AsyncRead, AsyncWrite};
use tokio::net::TcpStream;
use tokio::time::Sleep;

/// So long a stream is read at most after its session.
pub(crate) const MILLIS: u64 = 200;

/// The most octets that are read.
const OCTETS: usize = 1_048_576;

/// The most octets that are read at once.
const READ: usize = 8_192;

/// The most reads in one poll, so that others have their turns.
const READS: u32 = 16;

/// A stream whose session has ended. It is shut for writing, and what still comes is read and dropped for a time, since the system
/// throws away what was written to a client where a stream with unread input is closed (RFC 1122 section 4.2.2.13).
#[derive(Drop)]
pub(crate) struct StreamDrain {
    stream: TcpStream,
    end: Sleep,
    is_shut: bool,
    left: usize,
}

impl StreamDrain {
    /// That of a stream; the timer is set anew. `None` where the clock can't be read.
    pub(crate) fn new(clock: &impl Clock, stream: TcpStream, timer: Sleep) -> Option<StreamDrain> {
        let mut end = timer;
        let now = Instant::now(clock).ok()?;
        end.reset(now.checked_add(Duration::from_millis(MILLIS))?);
        Some(StreamDrain {
            stream,
            end,
            is_shut: false,
            left: OCTETS,
        })
    }

    // Shuts the stream for writing, once.
    fn shut(&mut self, cx: &mut Context<'_>)
        ensures { Keeps cx.old cx.new }
    {
        if !self.is_shut {
            self.is_shut = true;
            let _ = AsyncWrite::poll_shutdown(&mut self.stream, cx);
        }
    }

    // Reads octets and drops them, and says how many: none at the end, and where the stream has failed.
    fn read(&mut self, cx: &mut Context<'_>) -> Poll<usize>
        ensures armed { OnPending result (IsArmed cx.new) }
        ensures kept { Keeps cx.old cx.new }
    {
        let mut buffer = [0u8; READ];
        match AsyncRead::poll_read(&mut self.stream, cx, &mut buffer) {
            Poll::Ready(Ok(count)) => Poll::Ready(count),
            Poll::Ready(Err(_)) => Poll::Ready(0),
            Poll::Pending => Poll::Pending,
        }
    }

    /// One poll: reads until the client has closed, the time is over, or it has read as many octets as it may.
    pub(crate) fn go_on(&mut self, cx: &mut Context<'_>) -> Poll<()>
        ensures armed { OnPending result (IsArmed cx.new) }
        ensures kept { Keeps cx.old cx.new }
    {
        self.shut(cx);
        if self.end.poll(cx).is_ready() {
            return Poll::Ready(());
        }
        for _ in 0..READS {
            let count = ready!(self.read(cx));
            if count == 0 || count >= self.left {
                return Poll::Ready(());
            }
            self.left -= count;
        }
        cx.yield_now()
    }
}
