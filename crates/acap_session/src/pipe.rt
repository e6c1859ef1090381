//! `run_pipe`: one session of a user between a reader and a writer.

ghost use Rattle.std.specs.Prelude.{◌≡◌, [], IfErr, IfOk, OnErr, OnOk};
ghost use Rattle.acap_session.specs.Piping as piping;
ghost use Rattle.acap_session.specs.Piping.{Answers, Goes, HasRoom, HasTurned, IsBegun, IsLater};
ghost use Rattle.acap_session.specs.Piping.{IsUnderWay, PipeReads};
ghost use Rattle.acap_session.specs.Piping.{PipeWrites, PipesFrom, Serves, Settles, Takes, begins, scene_of};
ghost use Rattle.acap_session.specs.Streams.{Sends, SendsFront};
ghost use Rattle.acap_session.specs.declared.pipe_fault.PipeFault.TheVariants as faults;

use crate::input::Input;
use crate::occasion::{Occasion, Turn};
use crate::output::{Output, send_all};
use crate::pipe_fault::PipeFault;
use crate::turns::turn;
use acap_dialogue::Session;
use acap_entries::{Memory, Moment, Octets, Seat, Steps, UserName};
use acap_login::Users;
use acap_machine::State;
use acap_rights::Realm;
use std::alloc::Global;
use std::sync::ledger::Ledger;

/// The reads after which a session ends as if the reader had failed.
const READS: u32 = 1_000_000_000;

/// The octets that are asked for at a time.
const PIECE: usize = 65_536;

/// The octets that may wait before they are written: what waits is more by one answer at most.
const MANY: usize = 65_536;

/// One session with a machine of its own.
#[derive(Drop)]
pub(crate) struct PipeState {
    /// The machine.
    pub(crate) state: State,
    /// The session.
    pub(crate) session: Session,
    /// What it says that waits to be written.
    pub(crate) out: Vec<u8>,
}

// The one seat of a session that has a machine of its own, whose clock always shows the start of 1970.
fn always() -> Occasion
    ensures { result ≡ piping.always }
{
    Occasion {
        seat: Seat::new(0).unwrap(),
        clock: Moment::new(0).unwrap(),
        nonce: 0,
    }
}

// A realm in which nobody is an administrator, and there are no groups.
fn without_administrators(alloc: Global) -> Realm
    ensures { result ≡ piping.without_administrators }
{
    Realm::new(Vec::new(alloc), Vec::new(alloc))
}

// Writes all that waits, so that whoever waits for it has it. Nothing waits then, also where that failed.
fn send<W: Output>(writer: &mut W, out: &mut Vec<u8>) -> Result<(), PipeFault>
    ensures sent { OnOk result (Sends W.contents writer.old writer.new out.old.items) }
    ensures front { OnErr result (SendsFront (W.contents writer.old) (W.contents writer.new) out.old.items) }
    ensures empty { out.new.items ≡ [] }
    ensures fault { IfErr result (λ fault. fault ≡ faults.Write) }
    ensures writes { PipeWrites (W.told writer.old) (W.told writer.new) result }
{
    let sent = send_all(writer, out);
    out.clear();
    match sent {
        Ok(()) => Ok(()),
        Err(_) => Err(PipeFault::Write),
    }
}

// Writes what waits, where it is much.
fn ease<W: Output>(writer: &mut W, out: &mut Vec<u8>) -> Result<(), PipeFault>
    ensures said { OnOk result (IsUnderWay W.contents writer.old writer.new out.new.items out.old.items) }
    ensures front { OnErr result (SendsFront (W.contents writer.old) (W.contents writer.new) out.old.items) }
    ensures empty { OnErr result (out.new.items ≡ []) }
    ensures fault { IfErr result (λ fault. fault ≡ faults.Write) }
    ensures writes { PipeWrites (W.told writer.old) (W.told writer.new) result }
{
    if out.len() < MANY {
        return Ok(());
    }
    send(writer, out)
}

// Makes all turns that can be made. What they say waits, and is written as soon as it is much.
fn settle<W: Output, L: Ledger>(
    pipe: &mut PipeState,
    users: &Users,
    writer: &mut W,
    steps: &mut Steps<L>,
) -> Result<(), PipeFault>
    requires { Goes pipe.old.session }
    ensures made { Settles users.now W.contents writer.old writer.new pipe.old pipe.new result }
    ensures fault { IfErr result IsLater }
    ensures writes { PipeWrites (W.told writer.old) (W.told writer.new) result }
{
    'turns: loop {
        match turn(
            &mut pipe.session,
            &mut pipe.state,
            users,
            always(),
            &mut pipe.out,
            steps,
        )? {
            Turn::Said => ease(writer, &mut pipe.out)?,
            Turn::More => return Ok(()),
            Turn::Closed => return Ok(()),
        }
    }
}

// Gives a session a piece, and makes all turns that can be made. What comes after a close isn't heard.
fn feed<W: Output, L: Ledger>(
    pipe: &mut PipeState,
    users: &Users,
    piece: &[u8],
    writer: &mut W,
    steps: &mut Steps<L>,
) -> Result<(), PipeFault>
    requires { HasRoom pipe.old.session }
    ensures made { Takes users.now piece.now W.contents writer.old writer.new pipe.old pipe.new result }
    ensures fault { IfErr result IsLater }
    ensures writes { PipeWrites (W.told writer.old) (W.told writer.new) result }
{
    let mut rest = piece;
    'parts: while !rest.is_empty() && !pipe.session.is_closed() {
        let taken = pipe.session.push(rest)?;
        let (_, behind) = rest.split_at(taken);
        rest = behind;
        settle(pipe, users, writer, steps)?;
    }
    Ok(())
}

// The first turn: the user enters, and is greeted.
fn enter<L: Ledger>(pipe: &mut PipeState, users: &Users, steps: &mut Steps<L>) -> Result<(), Memory>
    ensures { OnOk result (HasTurned users.now (scene_of pipe.old) (scene_of pipe.new)) }
{
    let _ = turn(
        &mut pipe.session,
        &mut pipe.state,
        users,
        always(),
        &mut pipe.out,
        steps,
    )?;
    if pipe.session.is_closed() {
        return Err(Memory);
    }
    Ok(())
}

// Hears a piece, and writes what is said to it, also where memory is refused then.
fn answer<W: Output, L: Ledger>(
    pipe: &mut PipeState,
    users: &Users,
    piece: &[u8],
    writer: &mut W,
    steps: &mut Steps<L>,
) -> Result<(), PipeFault>
    requires room { HasRoom pipe.old.session }
    requires sent { pipe.old.out.items ≡ [] }
    ensures made { Answers users.now piece.now W.contents writer.old writer.new pipe.old pipe.new result }
    ensures empty { OnOk result (pipe.new.out.items ≡ []) }
    ensures fault { IfErr result IsLater }
    ensures writes { PipeWrites (W.told writer.old) (W.told writer.new) result }
{
    match feed(pipe, users, piece, writer, steps) {
        Ok(()) => send(writer, &mut pipe.out),
        Err(PipeFault::Write) => Err(PipeFault::Write),
        Err(fault) => {
            send(writer, &mut pipe.out)?;
            Err(fault)
        }
    }
}

// A user's session, before it has said anything.
fn begin(alloc: Global, user: UserName) -> Result<PipeState, Memory>
    ensures { IfOk result (λ pipe. scene_of pipe ≡ begins user) }
{
    let host = Octets::from_slice(alloc, b"localhost")?;
    Ok(PipeState {
        state: State::new(alloc, without_administrators(alloc)),
        session: Session::new(alloc, host, Some(user)),
        out: Vec::new(alloc),
    })
}

// Greets, then reads piece by piece, and writes what is said to each before the next is read.
fn serve<R: Input, W: Output, L: Ledger>(
    pipe: &mut PipeState,
    users: &Users,
    reader: &mut R,
    writer: &mut W,
    steps: &mut Steps<L>,
) -> Result<(), PipeFault>
    requires begun { IsBegun pipe.old }
    requires nobody { users.now ≡ [] }
    ensures all { Serves R.remaining reader.old reader.new W.contents writer.old writer.new pipe.old result }
    ensures reads { PipeReads (R.told reader.old) (R.told reader.new) result }
    ensures writes { PipeWrites (W.told writer.old) (W.told writer.new) result }
{
    enter(pipe, users, steps)?;
    send(writer, &mut pipe.out)?;
    let mut buffer = [0u8; PIECE];
    'reads: for time in 0..READS {
        let Ok(count) = reader.read_front(&mut buffer) else {
            return Err(PipeFault::Read);
        };
        if count == 0 {
            return Ok(());
        }
        let piece = &buffer[..count];
        answer(pipe, users, piece, writer, steps)?;
        if pipe.session.is_closed() {
            return Ok(());
        }
    }
    Err(PipeFault::Read)
}

/// One session of a user between a reader and a writer, with a machine of its own whose clock always shows 0
/// (RFC 2244 section 2). It writes what it says as soon as the octets for it have come, and ends at a close or at the
/// end of what is read; a command that isn't whole then is dropped. Where the reader fails, or has given 1,000,000,000
/// times, what it gave before is answered. After a fault of the writer or of memory a prefix of what is to be written is
/// written. Each entry that a search looks at counts as a step.
pub fn run_pipe<R: Input, W: Output, L: Ledger>(
    alloc: Global,
    reader: &mut R,
    writer: &mut W,
    user: UserName,
    steps: &mut Steps<L>,
) -> Result<(), PipeFault>
    ensures pipes { PipesFrom user R.remaining reader.old reader.new W.contents writer.old writer.new result }
    ensures reads { PipeReads (R.told reader.old) (R.told reader.new) result }
    ensures writes { PipeWrites (W.told writer.old) (W.told writer.new) result }
{
    let users = Users::new(Vec::new(alloc));
    let mut pipe = begin(alloc, user)?;
    serve(&mut pipe, &users, reader, writer, steps)
}
