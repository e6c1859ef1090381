//! Waits for standard input and for a server.

use mio::unix::SourceFd;
use mio::{Events, Interest, Poll, Token};
use std::alloc::Global;
use std::io;
use std::io::ErrorKind;
use std::net::TcpStream;
use std::os::fd::{AsRawFd, RawFd};

/// Standard input.
pub(crate) const INPUT: Token = Token(0);

/// The server.
pub(crate) const SERVER: Token = Token(1);

/// The most events that are reported at once.
const EVENTS: usize = 4;

/// What waits for a server and, where that can be waited for, for standard input.
#[derive(Drop)]
pub(crate) struct Waiting {
    pub(crate) poll: Poll,
    pub(crate) events: Events<Global>,
    /// Whether standard input is waited for: a file never is.
    pub(crate) has_input: bool,
}

/// Lets a poll wait for standard input. Whether that can be waited for.
fn waits_for_input(rt: &HostRuntime, poll: &Poll) -> io::Result<bool> {
    let input = rt.stdin().as_raw_fd();
    match poll
        .registry()
        .register(&mut SourceFd(&input), INPUT, Interest::READABLE)
    {
        Ok(()) => Ok(true),
        Err(error) => match error.kind() {
            ErrorKind::PermissionDenied => Ok(false),
            _ => Err(error),
        },
    }
}

/// Lets a poll wait for a server.
fn wait_for_server(poll: &Poll, stream: &TcpStream) -> io::Result<()> {
    stream.set_nonblocking(true)?;
    let server = stream.as_raw_fd();
    poll.registry()
        .register(&mut SourceFd(&server), SERVER, Interest::READABLE)
}

impl Waiting {
    /// What waits for this server, and for standard input.
    pub(crate) fn new(rt: &HostRuntime, stream: &TcpStream) -> io::Result<Waiting> {
        let poll = Poll::new(rt)?;
        wait_for_server(&poll, stream)?;
        let has_input = waits_for_input(rt, &poll)?;
        let events = Events::with_capacity(rt.alloc(), EVENTS)?;
        Ok(Waiting {
            poll,
            events,
            has_input,
        })
    }
}

/// Changes what a poll waits for at a file that it knows.
pub(crate) fn wait_for(
    poll: &Poll,
    file: RawFd,
    token: Token,
    interest: Interest,
) -> io::Result<()> {
    poll.registry()
        .reregister(&mut SourceFd(&file), token, interest)
}

/// Whether an event says that standard input can be read.
pub(crate) fn is_input_ready(events: &Events<Global>) -> bool {
    let mut is_ready = false;
    for event in events.iter() {
        is_ready |= event.token() == INPUT;
    }
    is_ready
}
