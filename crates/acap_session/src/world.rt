//! `World`: one machine, and the sessions at its seats.

ghost use Rattle.std.specs.Prelude.{◌≡◌, true, is_some};
ghost use Rattle.acap_login.specs.Login.{are_named};
ghost use Rattle.acap_session.specs.Live.{LiveLawFor, ReportsAt};
ghost use Rattle.acap_session.specs.Places.{place_at};
ghost use Rattle.acap_session.specs.World.{Drains, Feeds, Leaves, Opens, Turns, new_world, open_at};
ghost use Rattle.acap_session.specs.World.{output_taken, said_before};

use crate::laws::live_law;
use crate::occasion::Occasion;
use crate::seat_session::{SeatSession, begin, reach};
use crate::world_fault::WorldFault;
use acap_commands::{Event, Said};
use acap_dialogue::Session;
use acap_entries::{Copying, Memory, Moment, Octets, Seat, Steps, UserName};
use acap_login::Users;
use acap_machine::State;
use acap_rights::Realm;
use std::alloc::Global;
use std::marker::Model;
use std::sync::ledger::Ledger;

/// One machine, and the sessions of up to 64 seats over it: any step of one session may stand between any two of
/// another (RFC 2244 section 2). What a session says is kept until it is taken.
#[derive(Drop)]
pub struct World {
    alloc: Global,
    host: Octets,
    users: Users,
    state: State,
    places: Vec<Option<SeatSession>>,
}

impl Model for World {
    ghost use Rattle.acap_session.specs.World.{World as Seen};
    ghost use Rattle.acap_machine.specs.Machine.{machine_code};
    ghost use Rattle.std.specs.Coded.{codes};

    ghost Value = { Seen };

    ghost coded = { Prim.hlevel (codes, machine_code) };

    ghost view = { λ w. record {
      machine = w.state.machine;
      places = w.places.items;
      users = w.users;
      host = w.host;
    } };
}

impl World {
    /// The machine of a realm with the empty store, and nobody in any seat; who may log in, and the name of the host
    /// that challenges name (RFC 2195 section 2). Takes no memory.
    pub fn new(alloc: Global, realm: Realm, users: Users, host: Octets) -> World
        ensures { result ≡ new_world realm users host }
    {
        World {
            alloc,
            host,
            users,
            state: State::new(alloc, realm),
            places: Vec::new(alloc),
        }
    }

    /// Who may log in has a user's name: does nothing.
    pub fn form_law(&self)
        ensures { are_named self.now.users ≡ true }
    {
        self.users.form_law();
    }

    /// The law of live views for runs in which those may log in who may here, of which it isn't assumed that they have users'
    /// names: does nothing.
    pub fn live_law(&self)
        ensures { LiveLawFor self.now.users }
    {
        self.form_law();
        live_law();
    }

    /// The machine.
    pub fn state(&self) -> &State
        ensures { result.now.machine ≡ self.now.machine }
    {
        &self.state
    }

    /// Whether a session is open at a seat.
    pub(crate) fn is_open(&self, seat: Seat) -> bool
        ensures { result ≡ is_some (open_at self.now seat) }
    {
        match self.places.get(usize::from(seat.number())) {
            Some(Some(place)) => !place.is_closed(),
            Some(None) => false,
            None => false,
        }
    }

    /// Opens a session at a seat, of that user if there is one, and makes its first turn: its user enters,
    /// and it greets. `Taken` where one is open there. Where memory is refused nothing was done. `now` is
    /// what the clock shows. Here and below each entry that a search of a session looks at counts as a step.
    pub fn open<L: Ledger>(
        &mut self,
        seat: Seat,
        user: Option<UserName>,
        now: Moment,
        steps: &mut Steps<L>,
    ) -> Result<(), WorldFault>
        ensures { Opens (record { seat = seat; clock = now; nonce = 0 }) user self.old self.new result }
    {
        if self.is_open(seat) {
            return Err(WorldFault::Taken);
        }
        let host = self.host.copy()?;
        let count = self.places.len();
        reach(&mut self.places, seat)?;
        let occasion = Occasion {
            seat,
            clock: now,
            nonce: 0,
        };
        let index = usize::from(seat.number());
        let session = Session::new(self.alloc, host, user);
        let standing = &mut self.places[index];
        let Ok(()) = begin(
            self.alloc,
            standing,
            session,
            &mut self.state,
            &self.users,
            occasion,
            steps,
        ) else {
            self.places.truncate(count);
            return Err(WorldFault::Memory);
        };
        Ok(())
    }

    /// Gives what was said at a seat and wasn't taken yet, also of a session that is closed, and holds nothing of it
    /// then. Takes no memory.
    pub fn take_output(&mut self, seat: Seat) -> Vec<u8>
        ensures given { result.items ≡ said_before (place_at self.old.places seat) }
        ensures left { self.new ≡ output_taken self.old seat }
    {
        let index = usize::from(seat.number());
        if self.places.len() <= index {
            return Vec::new(self.alloc);
        }
        match &mut self.places[index] {
            Some(place) => place.take(self.alloc),
            None => Vec::new(self.alloc),
        }
    }

    /// Makes one turn of a seat's session, keeps what it says, and answers whether it came to anything: where
    /// it didn't, more octets are needed. The nonce is the one of a challenge, if this turn sends one (RFC
    /// 2195 section 2). `NoSeat` where none is open there; where memory is refused to the session it is
    /// closed, and an event that it had asked stands.
    pub fn turn<L: Ledger>(
        &mut self,
        seat: Seat,
        nonce: u64,
        now: Moment,
        steps: &mut Steps<L>,
    ) -> Result<bool, WorldFault>
        ensures { Turns (record { seat = seat; clock = now; nonce = nonce }) self.old self.new result }
    {
        if !self.is_open(seat) {
            return Err(WorldFault::NoSeat);
        }
        let occasion = Occasion {
            seat,
            clock: now,
            nonce,
        };
        let index = usize::from(seat.number());
        match &mut self.places[index] {
            Some(place) => match place.turn(&mut self.state, &self.users, occasion, steps) {
                Ok(turn) => Ok(turn.went_on()),
                Err(_refusal) => Err(WorldFault::Memory),
            },
            None => Err(WorldFault::NoSeat),
        }
    }

    /// Makes one turn of a seat's session, keeps what it says, and gives the event that it asked with what the machine said
    /// to it, if it asked one that was answered. `NoSeat` where none is open there. Where memory is refused the turn was made
    /// and can't be reported, or the session is closed, and an event that it had asked stands.
    pub fn report_turn<L: Ledger>(
        &mut self,
        occasion: Occasion,
        steps: &mut Steps<L>,
    ) -> Result<Option<(Event, Said)>, WorldFault>
        ensures { ReportsAt occasion self.old self.new result }
    {
        if !self.is_open(occasion.seat) {
            return Err(WorldFault::NoSeat);
        }
        let index = usize::from(occasion.seat.number());
        match &mut self.places[index] {
            Some(place) => match place.report_turn(&mut self.state, &self.users, occasion, steps) {
                Ok(reported) => Ok(reported),
                Err(_refusal) => Err(WorldFault::Memory),
            },
            None => Err(WorldFault::NoSeat),
        }
    }

    /// Asks for what is pending for the user of a seat's session, if it may be asked, and keeps what is said. `NoSeat`
    /// where none is open there. Where the asking is refused memory nothing was done; where what it says is, the session is
    /// closed, and the asking stands.
    pub fn drain<L: Ledger>(
        &mut self,
        seat: Seat,
        now: Moment,
        steps: &mut Steps<L>,
    ) -> Result<(), WorldFault>
        ensures { Drains (record { seat = seat; clock = now; nonce = 0 }) self.old self.new result }
    {
        if !self.is_open(seat) {
            return Err(WorldFault::NoSeat);
        }
        let occasion = Occasion {
            seat,
            clock: now,
            nonce: 0,
        };
        let index = usize::from(seat.number());
        match &mut self.places[index] {
            Some(place) => match place.drain(&mut self.state, occasion, steps) {
                Ok(_turn) => Ok(()),
                Err(_refusal) => Err(WorldFault::Memory),
            },
            None => Err(WorldFault::NoSeat),
        }
    }

    /// Gives a seat's session a prefix of a piece of its client's octets, and says how many octets that is: all of it,
    /// or as much as a session holds. `NoSeat` where none is open there; where memory is refused nothing is taken.
    pub fn piece(&mut self, seat: Seat, octets: &[u8]) -> Result<usize, WorldFault>
        ensures { Feeds seat octets.now self.old self.new result }
    {
        if !self.is_open(seat) {
            return Err(WorldFault::NoSeat);
        }
        let index = usize::from(seat.number());
        let Some(place) = &mut self.places[index] else {
            return Err(WorldFault::NoSeat);
        };
        let taken = place.push(octets)?;
        Ok(taken)
    }

    /// Ends a seat's session, which leaves its seat. What it said may still be taken. `NoSeat` where none is open
    /// there. Takes no memory.
    pub fn leave<L: Ledger>(
        &mut self,
        seat: Seat,
        now: Moment,
        steps: &mut Steps<L>,
    ) -> Result<(), WorldFault>
        ensures { Leaves (record { seat = seat; clock = now; nonce = 0 }) self.old self.new result }
    {
        if !self.is_open(seat) {
            return Err(WorldFault::NoSeat);
        }
        let occasion = Occasion {
            seat,
            clock: now,
            nonce: 0,
        };
        let index = usize::from(seat.number());
        match &mut self.places[index] {
            Some(place) => {
                place.end(&mut self.state, occasion, steps);
                Ok(())
            }
            None => Err(WorldFault::NoSeat),
        }
    }
}
