//! `Ended`: what a session leaves when it ends: its seat, and its stream.
ghost use Rattle.futures.specs.Poll.{OnPending};
ghost use Rattle.futures.specs.Task.{IsArmed, Keeps};

use crate::seat_pool::FreeSeat;
use crate::server::{Task, TaskOver};
use acap_locked::{Pass, Site};
use acap_task::{Over, Running, SessionTask};
use futures::task::{Context, Poll};
use futures::{Future, ready};
use std::sync::Wait;
use std::sync::ledger::Ledger;
use std::time::Clock;
use tokio::net::TcpStream;

/// What a session leaves: its seat, and its stream.
#[derive(Drop)]
pub(crate) struct Ended<S: Site> {
    pub(crate) seat: FreeSeat<S>,
    pub(crate) stream: TcpStream,
}

/// A session that is polled until it has ended, or is ended before.
pub(crate) trait EndingSession<S: Site>: Drop {
    /// One poll.
    fn go_on(&mut self, cx: &mut Context<'_>) -> Poll<Ended<S>>
        ensures armed { OnPending result (IsArmed cx.new) }
        ensures kept { Keeps cx.old cx.new };

    /// The pass of its seat. `None` where it has ended already.
    fn pass(&self) -> Option<&Pass<S>>;

    /// Ends it now: its seat is left. `None` where it has ended already.
    fn end(self) -> Option<Ended<S>>;
}

// What a session leaves that is over.
fn ended_of<R: Wait + Clock, S: Site, L: Ledger>(over: TaskOver<'_, R, S, L>) -> Ended<S> {
    let Over { running, .. } = over;
    let Running {
        wire,
        desk,
        bell,
        ..
    } = running;
    Ended {
        seat: FreeSeat {
            lease: desk.into_lease(),
            bell: bell.into_shared(),
        },
        stream: wire.into_stream(),
    }
}

impl<R: Wait + Clock, S: Site, L: Ledger> EndingSession<S> for Task<'_, R, S, L> {
    fn go_on(&mut self, cx: &mut Context<'_>) -> Poll<Ended<S>> {
        let over = ready!(Future::poll(self, cx));
        Poll::Ready(ended_of(over))
    }

    fn pass(&self) -> Option<&Pass<S>> {
        match &self.running {
            Some(running) => Some(&running.desk.pass),
            None => None,
        }
    }

    fn end(self) -> Option<Ended<S>> {
        Some(ended_of(SessionTask::end(self)?))
    }
}
