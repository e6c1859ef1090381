//! `Running`: a session with its wire, desk, source and bell.
ghost use Rattle.std.specs.Prelude.{◌≡◌, false, IfOk};
ghost use Rattle.acap_dialogue.specs.Talking.{beginning};
ghost use Rattle.acap_task.specs.Kept.{Kept, roles_of};
ghost use Rattle.acap_task.specs.Progress as now;
ghost use Rattle.acap_task.specs.Progress.{HasRoomToLeave};

use crate::bell::{Bell, Ring, Ringer};
use crate::conn::{Conn, SessionParams};
use crate::desk::Desk;
use crate::desk_record::DeskRecord;
use crate::pass_desk::{PassDesk, SeatLease};
use crate::progress::SessionProgress;
use crate::source::Source;
use crate::wire::{Wire, WireFault};
use crate::{desk_steps, wire_steps};
use acap_dialogue::Session;
use acap_entries::{Copying, Memory, Octets, UserName};
use acap_locked::Site;
use acap_login::Users;
use futures::task::{Context, Poll};
use std::alloc::Global;
use std::sync::Wait;
use std::sync::ledger::Ledger;

// How many octets are read at once.
const READ_OCTETS: usize = 8_192;

/// A session with the four that it stands on. Its type keeps how what these report fits the session's
/// steps.
#[derive(Drop)]
pub struct Running<'u, W: Wire, D: Desk, S: Source, B: Bell> {
    /// Octets from the client and to it.
    pub wire: W,
    /// What answers its events.
    pub desk: D,
    /// Moments and nonces.
    pub source: S,
    /// What rings where notices wait.
    pub bell: B,
    /// Whom the session is between.
    pub parties: SessionParams<'u>,
    /// How far the session has come.
    pub progress: SessionProgress,
    buffer: Vec<u8>,
    ghost kept: { ∥ Kept (roles_of parties) (W.told wire) (D.told desk) (S.told source) (B.told bell)
        (now.progress progress) ∥₁ },
    ghost room: { HasRoomToLeave progress },
}

// A host and a user of their own, for the session.
fn copies(host: &Octets, user: &Option<UserName>) -> Result<(Octets, Option<UserName>), Memory>
    ensures { IfOk result (λ made. (made.0 ≡ host.now) × (made.1 ≡ user.now)) }
{
    Ok((host.copy()?, user.copy()?))
}

// A session at that host, of that user, and whether memory was refused for it.
fn begin(alloc: Global, host: &Octets, user: &Option<UserName>) -> (Session, bool)
    ensures { result.1 ≡ false → result.0 ≡ beginning host.now user.now }
{
    match copies(host, user) {
        Ok((host, user)) => (Session::new(alloc, host, user), false),
        Err(_) => {
            let nowhere = Octets::from_vec(Vec::new(alloc));
            (Session::new(alloc, nowhere, None), true)
        }
    }
}

impl<'u, W: Wire, D: Desk, S: Source, B: Bell> Running<'u, W, D, S, B> {
    ghost use Rattle.acap_task.specs.Kept.{IsUntold};
    ghost use Rattle.std.specs.Prelude.{◌≡◌};

    /// A session of which nothing has been done, over four that have reported nothing yet. Where memory is
    /// refused for it, it ends at its first poll.
    pub(crate) fn new(
        alloc: Global,
        conn: Conn<W, S>,
        desk: D,
        bell: B,
        users: &'u Users,
        host: Octets,
    ) -> Running<'u, W, D, S, B>
        requires { IsUntold (W.told conn.wire) (D.told desk) (S.told conn.source) (B.told bell) }
        ensures parties { (result.parties.users ≡ users.entry) × (result.parties.host ≡ host)
            × (result.parties.user ≡ conn.user) }
        ensures seat { D.seat result.desk ≡ D.seat desk }
    {
        let Conn { wire, user, source } = conn;
        let (session, lost) = begin(alloc, &host, &user);
        let progress = SessionProgress::new(alloc, session, lost);
        Running {
            wire,
            desk,
            source,
            bell,
            parties: SessionParams { users, host, user },
            progress,
            buffer: Vec::new(alloc),
        }
    }
}

impl<W: Wire, D: Desk, S: Source, B: Bell> Running<'_, W, D, S, B> {
    ghost use Rattle.std.specs.Prelude.{◌≡◌, ◌<◌, IfOk, false, true, length};
    ghost use Rattle.futures.specs.Poll.{OnPending};
    ghost use Rattle.futures.specs.Task.{IsArmed, Keeps};
    ghost use Rattle.acap_dialogue.specs.Telling.{room_in};
    ghost use Rattle.acap_task.specs.Progress.{HasRoom, progress};
    ghost use Rattle.acap_task.specs.Turns.{Reads, Turns, Writes};

    /// One turn, with the event that it asks: whether anything was next. Fails only for want of memory, now
    /// or before.
    pub(crate) fn turn(&mut self) -> Result<bool, Memory>
        ensures parties { self.new.parties ≡ self.old.parties }
        ensures seat { D.seat self.new.desk ≡ D.seat self.old.desk }
        ensures same { (self.new.wire ≡ self.old.wire) × (self.new.bell ≡ self.old.bell) }
        ensures turned { IfOk result (λ moved. Turns self.old.parties.users.now moved
            (progress self.old.progress) (D.told self.old.desk) (S.told self.old.source)
            (progress self.new.progress) (D.told self.new.desk) (S.told self.new.source)) }
        ensures more { IfOk result (λ moved. moved ≡ false → HasRoom self.new.progress) }
    {
        desk_steps::turn(
            &mut self.progress,
            self.parties.users,
            &mut self.desk,
            &mut self.source,
        )
    }

    /// Writes some of what waits to be written.
    pub(crate) fn write(&mut self, cx: &mut Context<'_>) -> Poll<Result<usize, WireFault>>
        requires { 0 < length self.old.progress.unsent }
        ensures parties { self.new.parties ≡ self.old.parties }
        ensures seat { D.seat self.new.desk ≡ D.seat self.old.desk }
        ensures same { self.new.bell ≡ self.old.bell }
        ensures written { Writes (W.told self.old.wire) (progress self.old.progress) result
            (W.told self.new.wire) (progress self.new.progress) }
        ensures armed { OnPending result (IsArmed cx.new) }
        ensures kept { Keeps cx.old cx.new }
    {
        wire_steps::write(&mut self.wire, cx, &mut self.progress)
    }

    /// Reads octets, and gives them to the session.
    pub(crate) fn read(&mut self, cx: &mut Context<'_>) -> Poll<Result<usize, WireFault>>
        requires room { HasRoom self.old.progress }
        requires whole { self.old.progress.lost ≡ false }
        requires lent { (0 < room_in self.old.progress.session) × (0 < length self.old.buffer.items) }
        ensures parties { self.new.parties ≡ self.old.parties }
        ensures seat { D.seat self.new.desk ≡ D.seat self.old.desk }
        ensures same { self.new.bell ≡ self.old.bell }
        ensures reads { Reads (W.told self.old.wire) (progress self.old.progress) result
            (W.told self.new.wire) (progress self.new.progress) }
        ensures armed { OnPending result (IsArmed cx.new) }
        ensures kept { Keeps cx.old cx.new }
    {
        wire_steps::read(&mut self.wire, cx, &mut self.progress, &mut self.buffer)
    }

    /// Makes the buffer into which octets are read, if there is none yet: whether octets can be read at all.
    pub(crate) fn is_readable(&mut self) -> bool
        ensures parties { self.new.parties ≡ self.old.parties }
        ensures seat { D.seat self.new.desk ≡ D.seat self.old.desk }
        ensures same { (self.new.wire ≡ self.old.wire) × (self.new.bell ≡ self.old.bell)
            × (self.new.progress ≡ self.old.progress) }
        ensures lent { result ≡ true → (0 < room_in self.new.progress.session)
            × (0 < length self.new.buffer.items) }
    {
        if self.buffer.is_empty() && self.buffer.resize(READ_OCTETS, 0).is_err() {
            return false;
        }
        self.progress.session.room() > 0
    }
}

impl<W: Wire, D: Desk, S: Source, B: Bell> Running<'_, W, D, S, B> {
    ghost use Rattle.std.specs.Prelude.{◌≡◌, false};
    ghost use Rattle.futures.specs.Poll.{OnPending};
    ghost use Rattle.futures.specs.Task.{IsArmed, Keeps};
    ghost use Rattle.acap_task.specs.Progress.{HasRoom, progress};
    ghost use Rattle.acap_task.specs.Told.{after_ring};
    ghost use Rattle.acap_task.specs.Turns.{LeavesAtEnd, Rings};
    ghost use Rattle.acap_task.specs.Waiting.{IfSilent};

    /// Looks at the bell, and asks for what is pending where it rang.
    pub(crate) fn ring(&mut self, cx: &mut Context<'_>) -> Poll<Ring>
        requires room { HasRoom self.old.progress }
        requires whole { self.old.progress.lost ≡ false }
        ensures parties { self.new.parties ≡ self.old.parties }
        ensures seat { D.seat self.new.desk ≡ D.seat self.old.desk }
        ensures same { self.new.wire ≡ self.old.wire }
        ensures bell { B.told self.new.bell ≡ after_ring (B.told self.old.bell) result }
        ensures rings { Rings result
            (progress self.old.progress) (D.told self.old.desk) (S.told self.old.source)
            (progress self.new.progress) (D.told self.new.desk) (S.told self.new.source) }
        ensures silent { IfSilent result (HasRoom self.new.progress) }
        ensures armed { OnPending result (IsArmed cx.new) }
        ensures kept { Keeps cx.old cx.new }
    {
        wire_steps::ring(
            &mut self.bell,
            cx,
            &mut self.progress,
            &mut self.desk,
            &mut self.source,
        )
    }

    /// The session's end: its seat is left, if it has one.
    pub(crate) fn leave(&mut self)
        ensures parties { self.new.parties ≡ self.old.parties }
        ensures seat { D.seat self.new.desk ≡ D.seat self.old.desk }
        ensures same { (self.new.wire ≡ self.old.wire) × (self.new.bell ≡ self.old.bell) }
        ensures left { LeavesAtEnd self.old.progress.seated
            (progress self.old.progress) (D.told self.old.desk) (S.told self.old.source)
            (progress self.new.progress) (D.told self.new.desk) (S.told self.new.source) }
    {
        desk_steps::leave_at_end(&mut self.progress, &mut self.desk, &mut self.source)
    }
}

impl<'u, W, C, L, R, N, S, B> Running<'u, W, PassDesk<'_, C, L, R, N>, S, B>
where
    W: Wire,
    C: Site,
    L: Ledger,
    R: Wait,
    N: Ringer,
    S: Source,
    B: Bell,
{
    ghost use Rattle.std.specs.Prelude.{◌≡◌};

    /// The same session with the record of its desk, and the place that the desk had.
    pub(crate) fn into_record(self) -> (Running<'u, W, DeskRecord, S, B>, SeatLease<C>)
        ensures parties { result.0.parties ≡ self.entry.parties }
        ensures same { (result.0.wire ≡ self.entry.wire) × (result.0.source ≡ self.entry.source)
            × (result.0.bell ≡ self.entry.bell) × (result.0.progress ≡ self.entry.progress) }
        ensures kept { (result.0.desk.calls ≡ self.entry.desk.calls)
            × (result.0.desk.faults ≡ self.entry.desk.faults) }
        ensures place { (result.1.pass ≡ self.entry.desk.pass)
            × (result.1.owes_leave ≡ self.entry.desk.owes_leave)
            × (result.0.desk.owes_leave ≡ self.entry.desk.owes_leave) }
    {
        let PassDesk {
            pass,
            calls,
            faults,
            owes_leave,
            ..
        } = self.desk;
        let running = Running {
            wire: self.wire,
            desk: DeskRecord {
                calls,
                faults,
                owes_leave,
            },
            source: self.source,
            bell: self.bell,
            parties: self.parties,
            progress: self.progress,
            buffer: self.buffer,
        };
        (running, SeatLease { pass, owes_leave })
    }
}
