//! The session at a seat, with what was said to its client and isn't taken yet.

ghost use Rattle.std.specs.Prelude.{◌≡◌, [], false, IfOk, OnErr, OnOk};
ghost use Rattle.acap_dialogue.specs.Session.{is_closed};
ghost use Rattle.acap_session.specs.Live.{ReportsTo};
ghost use Rattle.acap_session.specs.Turning.{BeginsAt, DrainsAt, TurnsAt, scene_at};
ghost use Rattle.acap_session.specs.Places.{places_up_to, saying};
ghost use Rattle.acap_dialogue.specs.declared.stage.Stage.TheVariants as stages;
ghost use Rattle.acap_session.specs.World as world;
ghost use Rattle.acap_session.specs.World.{Begins, said_before};

use crate::occasion::{Occasion, Turn};
use crate::turns::{drain, leave, report_turn, turn};
use acap_commands::{Event, Said};
use acap_dialogue::Session;
use acap_entries::{Memory, Seat, Steps};
use acap_login::Users;
use acap_machine::State;
use std::alloc::Global;
use std::marker::Model;
use std::mem;
use std::sync::ledger::Ledger;

/// The session of a seat, with what was said to its client and isn't taken yet.
#[derive(Drop)]
pub(crate) struct SeatSession {
    session: Session,
    out: Vec<u8>,
}

impl Model for SeatSession {
    ghost use Rattle.acap_session.specs.Places.{SeatSession as Seen};

    ghost Value = { Seen };

    ghost view = { λ p. record { talk = p.session; out = p.out.items } };
}

impl SeatSession {
    /// A session, and what was said before at its seat.
    pub(crate) fn new(session: Session, out: Vec<u8>) -> SeatSession
        ensures { result ≡ record { talk = session; out = out.items } }
    {
        SeatSession { session, out }
    }

    /// Whether the session is over.
    pub(crate) fn is_closed(&self) -> bool
        ensures { result ≡ is_closed self.now.talk.stage }
    {
        self.session.is_closed()
    }

    /// Makes one turn.
    pub(crate) fn turn<L: Ledger>(
        &mut self,
        state: &mut State,
        users: &Users,
        occasion: Occasion,
        steps: &mut Steps<L>,
    ) -> Result<Turn, Memory>
        ensures { TurnsAt users.now occasion state.old self.old state.new self.new result }
    {
        turn(
            &mut self.session,
            state,
            users,
            occasion,
            &mut self.out,
            steps,
        )
    }

    /// Makes one turn, and gives the event that was asked with what the machine said to it.
    pub(crate) fn report_turn<L: Ledger>(
        &mut self,
        state: &mut State,
        users: &Users,
        occasion: Occasion,
        steps: &mut Steps<L>,
    ) -> Result<Option<(Event, Said)>, Memory>
        ensures { ReportsTo users.now occasion
            (scene_at state.old self.old) (scene_at state.new self.new) result }
    {
        report_turn(
            &mut self.session,
            state,
            users,
            occasion,
            &mut self.out,
            steps,
        )
    }

    /// Makes the first turn of a session, which is open then. Where memory is refused nothing was done but to the session.
    pub(crate) fn begin<L: Ledger>(
        &mut self,
        state: &mut State,
        users: &Users,
        occasion: Occasion,
        steps: &mut Steps<L>,
    ) -> Result<(), Memory>
        requires { self.old.talk.stage ≡ stages.Opening }
        ensures ok { OnOk result (BeginsAt users.now occasion state.old self.old state.new self.new) }
        ensures going { OnOk result (is_closed self.new.talk.stage ≡ false) }
        ensures machine { OnErr result (state.new.machine ≡ state.old.machine) }
        ensures out { OnErr result (self.new.out ≡ self.old.out) }
    {
        let _turn = self.turn(state, users, occasion, steps)?;
        if self.is_closed() {
            return Err(Memory);
        }
        Ok(())
    }

    /// Asks for what is pending.
    pub(crate) fn drain<L: Ledger>(
        &mut self,
        state: &mut State,
        occasion: Occasion,
        steps: &mut Steps<L>,
    ) -> Result<Turn, Memory>
        ensures { DrainsAt occasion state.old self.old state.new self.new result }
    {
        drain(&mut self.session, state, occasion, &mut self.out, steps)
    }

    /// Takes a prefix of a piece, and says how many octets that is.
    pub(crate) fn push(&mut self, piece: &[u8]) -> Result<usize, Memory>
        ensures taken { IfOk result (λ n. n ≡ world.room_of self.old.talk piece.now) }
        ensures held { IfOk result (λ n. self.new ≡ world.holding self.old n piece.now) }
        ensures err { OnErr result (self.new ≡ self.old) }
    {
        self.session.push(piece)
    }

    /// Ends the session, which leaves its seat if it has it.
    pub(crate) fn end<L: Ledger>(
        &mut self,
        state: &mut State,
        occasion: Occasion,
        steps: &mut Steps<L>,
    )
        ensures { scene_at state.new self.new ≡ world.ends occasion (scene_at state.old self.old) }
    {
        leave(state, occasion, self.session.has_seat(), steps);
        self.session.close();
    }

    /// Gives what was said, and holds nothing then.
    pub(crate) fn take(&mut self, alloc: Global) -> Vec<u8>
        ensures given { result.items ≡ self.old.out }
        ensures left { self.new ≡ record self.old { out = [] } }
    {
        mem::replace(&mut self.out, Vec::new(alloc))
    }
}

/// Makes places up to a seat, with nobody there. Where memory is refused there are none more.
pub(crate) fn reach(places: &mut Vec<Option<SeatSession>>, seat: Seat) -> Result<(), Memory>
    ensures reached { OnOk result (places.new.items ≡ places_up_to places.old.items seat) }
    ensures kept { OnErr result (places.new.items ≡ places.old.items) }
{
    let index = usize::from(seat.number());
    places.reserve((index + 1).saturating_sub(places.len()))?;
    'nobody: while places.len() <= index {
        places.push(None).unwrap();
    }
    Ok(())
}

// Takes what was said at a seat.
fn take_said(alloc: Global, standing: &mut Option<SeatSession>) -> Vec<u8>
    ensures given { result.items ≡ said_before standing.old }
    ensures left { standing.new ≡ saying [] standing.old }
{
    match standing {
        Some(before) => before.take(alloc),
        None => Vec::new(alloc),
    }
}

// Gives a seat what was said there.
fn give_said(standing: &mut Option<SeatSession>, said: Vec<u8>)
    ensures { standing.new ≡ saying said.items standing.old }
{
    if let Some(before) = standing {
        before.out = said;
    }
}

/// Sets a session at its seat, with what was said there before, and makes its first turn. Where memory is refused nothing
/// was done.
pub(crate) fn begin<L: Ledger>(
    alloc: Global,
    standing: &mut Option<SeatSession>,
    session: Session,
    state: &mut State,
    users: &Users,
    occasion: Occasion,
    steps: &mut Steps<L>,
) -> Result<(), Memory>
    requires { session.stage ≡ stages.Opening }
    ensures { Begins users.now occasion session state.old standing.old state.new standing.new result }
{
    let out = take_said(alloc, standing);
    let mut place = SeatSession::new(session, out);
    let Ok(()) = place.begin(state, users, occasion, steps) else {
        give_said(standing, place.take(alloc));
        return Err(Memory);
    };
    *standing = Some(place);
    Ok(())
}
