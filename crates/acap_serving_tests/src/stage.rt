//! What the tests stand on: a served machine, its passes, and sessions that run over wires in memory.
ghost use Rattle.std.specs.Prelude.{◌≡◌, ◌<◌, IfOk};
ghost use Rattle.acap_serving.specs.Histories.{IsBlankFor};
ghost use Rattle.acap_task.specs.Kept.{Agrees};
ghost use Rattle.acap_task.specs.Told.{new_bell, new_wire};

use acap_commands::Event;
use acap_entries::{Moment, Octets, Steps, UserName};
use acap_locked::{Item, Pass, Served, Site};
use acap_login::Users;
use acap_machine::State;
use acap_rights::Realm;
use acap_task::{
    Bell, BellAnswer, Conn, MemBell, MemWire, Over, PassDesk, Plan, Ringer, SeatLease, SessionTask,
    Source, TaskEnd, WireAnswer,
};
use futures::executor::block_on;
use std::alloc::{AllocGlobal, Global};
use std::collections::VecDeque;
use std::io;
use std::marker::Brand;
use std::random::RandomSource;
use std::sync::Wait;
use std::sync::ledger::{Blank, Ledger};

/// The greeting of each session.
pub(crate) const HELLO: &[u8] =
    b"* ACAP (IMPLEMENTATION \"acapd\") (SASL \"CRAM-MD5\") (CONTEXTLIMIT \"200\")\r\n";

/// A clock that stands still, and one nonce.
#[derive(Drop)]
pub(crate) struct Still {
    pub(crate) clock: Moment,
    pub(crate) nonce: u64,
}

impl Source for Still {
    ghost use Rattle.std.specs.Prelude.{None};

    ghost told = { λ _. record { moments = None; nonces = None } };

    fn moment(&mut self) -> Moment {
        self.clock
    }

    fn nonce(&mut self) -> u64 {
        self.nonce
    }
}

/// Bells that nobody hears.
#[derive(Drop)]
pub(crate) struct Silent;

impl Ringer for Silent {
    fn ring(&self, _seats: u64) {}
}

/// A session that is to run: its user, or nobody, its devices, what its clock shows, and after how many polls it ends.
#[derive(Drop)]
pub(crate) struct Visit<'a, B: Bell> {
    pub(crate) user: Option<&'a [u8]>,
    pub(crate) wire: MemWire,
    pub(crate) bell: B,
    pub(crate) clock: Moment,
    pub(crate) turns: u64,
}

/// What came of a session.
#[derive(Drop)]
pub(crate) struct Done<S: Site> {
    /// Its pass, and whether a Leave was refused.
    pub(crate) lease: SeatLease<S>,
    /// What its wire wrote.
    pub(crate) output: Vec<u8>,
    /// How it ended.
    pub(crate) end: TaskEnd,
    /// How often it was polled.
    pub(crate) polls: u64,
    /// Whether it has entered.
    pub(crate) entered: bool,
    /// Whether its last call was a Leave, or it made none.
    pub(crate) left: bool,
}

/// A plan of one act, `count` times, and of another from then on.
pub(crate) fn plan<T: Copy + Drop>(
    alloc: Global,
    count: usize,
    first: T,
    always: T,
) -> io::Result<Plan<T>> {
    let mut acts = VecDeque::new(alloc);
    for _ in 0..count {
        acts.push_back(first)?;
    }
    Ok(Plan::new(acts, always))
}

/// A wire of octets whose reads and writes go by these plans.
pub(crate) fn wire_of(
    alloc: Global,
    input: &[u8],
    reads: Plan<WireAnswer>,
    writes: Plan<WireAnswer>,
) -> io::Result<MemWire>
    ensures { IfOk result (λ w. w.told ≡ new_wire) }
{
    Ok(MemWire::new(alloc, Vec::from_slice(alloc, input)?, reads, writes))
}

/// A wire that moves `width` octets at once.
pub(crate) fn wire(alloc: Global, input: &[u8], width: usize) -> io::Result<MemWire>
    ensures { IfOk result (λ w. w.told ≡ new_wire) }
{
    let reads = plan(alloc, 0, WireAnswer::Waits, WireAnswer::Moves(width))?;
    let writes = plan(alloc, 0, WireAnswer::Waits, WireAnswer::Moves(width))?;
    wire_of(alloc, input, reads, writes)
}

/// A bell that never rings.
pub(crate) fn no_bell(alloc: Global) -> io::Result<MemBell>
    ensures { IfOk result (λ b. b.0 ≡ new_bell) }
{
    Ok(MemBell::new(plan(alloc, 0, BellAnswer::Waits, BellAnswer::Ends)?))
}

// What answers a session's events.
type DeskOf<'a, S, L, R> = PassDesk<'a, S, L, R, Silent>;

// A session that is about to begin.
fn begin<'a, S: Site, L: Ledger, R: Wait + AllocGlobal, B: Bell>(
    rt: &'a R,
    served: &'a Served<S, L>,
    ringer: &'a Silent,
    pass: Pass<S>,
    users: &'a Users,
    visit: Visit<'_, B>,
) -> io::Result<SessionTask<'a, MemWire, DeskOf<'a, S, L, R>, Still, B>>
    requires wire { visit.wire.told ≡ new_wire }
    requires bell { Agrees (B.told visit.bell).rings 0 }
    requires turns { 0 < visit.turns }
{
    let alloc = rt.alloc();
    let user = match visit.user {
        Some(name) => UserName::read(alloc, name).ok(),
        None => None,
    };
    let source = Still {
        clock: visit.clock,
        nonce: 1896,
    };
    let host = Octets::from_slice(alloc, b"postoffice.reston.mci.net")?;
    let desk = PassDesk::new(alloc, rt, served, ringer, pass);
    let Visit {
        wire,
        bell,
        turns,
        ..
    } = visit;
    let conn = Conn { wire, user, source };
    Ok(SessionTask::new(alloc, conn, desk, bell, users, host, turns))
}

// Whether there is an Enter among these calls, and whether the last one is a Leave, or there is none.
fn ends_of(calls: &[Item]) -> (bool, bool) {
    let entered = calls
        .iter()
        .any(|item| matches!(item.event(), Event::Enter(_)));
    let left = match calls.last() {
        Some(item) => matches!(item.event(), Event::Leave),
        None => true,
    };
    (entered, left)
}

// What came of a session that has ended.
fn done_of<'a, S: Site, L: Ledger, R: Wait + AllocGlobal, B: Bell>(
    alloc: Global,
    over: Over<'a, MemWire, DeskOf<'a, S, L, R>, Still, B>,
) -> io::Result<Done<S>> {
    let output = Vec::from_slice(alloc, over.running.wire.output())?;
    let (entered, left) = ends_of(over.running.desk.calls.as_slice());
    let Over {
        running,
        end,
        polls,
        ..
    } = over;
    Ok(Done {
        lease: running.desk.into_lease(),
        output,
        end,
        polls,
        entered,
        left,
    })
}

/// A session from its beginning to its end.
pub(crate) fn run<'a, S: Site, L: Ledger, R: Wait + RandomSource + AllocGlobal, B: Bell>(
    rt: &'a R,
    served: &'a Served<S, L>,
    pass: Pass<S>,
    users: &'a Users,
    visit: Visit<'_, B>,
) -> io::Result<Done<S>>
    requires wire { visit.wire.told ≡ new_wire }
    requires bell { Agrees (B.told visit.bell).rings 0 }
    requires turns { 0 < visit.turns }
{
    let task = begin(rt, served, &Silent, pass, users, visit)?;
    done_of(rt.alloc(), block_on(rt, task)?)
}

/// What is done with a served machine and its passes.
pub(crate) trait Play<R> {
    /// Does it, and says whether all came out as it should.
    fn comes_true<S: Site, L: Ledger>(
        &self,
        rt: &R,
        served: Served<S, L>,
        passes: Vec<Pass<S>>,
    ) -> io::Result<bool>;
}

// Whether a play comes true over that machine, served.
fn is_true_over<S: Site, L: Ledger, R: AllocGlobal, P: Play<R>>(
    rt: &R,
    play: &P,
    blank: Blank,
    state: State,
    counter: Blank,
) -> bool
    requires { IsBlankFor S.name S.parts S.base L.name L.parts blank state.machine counter }
{
    match Served::<S, L>::new(rt.alloc(), blank, state, Steps::<L>::new(counter)) {
        Ok((served, passes)) => play.comes_true(rt, served, passes).unwrap_or(false),
        Err(_) => false,
    }
}

/// An empty machine without administrators.
pub(crate) fn empty(alloc: Global) -> State {
    State::new(alloc, Realm::new(Vec::new(alloc), Vec::new(alloc)))
}

/// Whether a play comes true over an empty machine.
pub(crate) fn is_true<R: AllocGlobal, P: Play<R>>(rt: &R, play: &P) -> bool {
    let state = empty(rt.alloc());
    is_true_over::<Brand, Brand, R, P>(rt, play, Blank::new(64), state, Blank::new(1))
}
