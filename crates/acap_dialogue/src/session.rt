//! `Session`: takes a client's octets, and gives what to send and what to ask of the machine.

ghost use Rattle.std.specs.Prelude.{◌≡◌, true, false, IfOk, OnErr};
ghost use Rattle.acap_dialogue.specs.Running.{closes};
ghost use Rattle.acap_dialogue.specs.Saying as saying;
ghost use Rattle.acap_dialogue.specs.Saying.{IfMore, IsCutOff, Makes};
ghost use Rattle.acap_dialogue.specs.Telling.{HearsOf, heard_by, room_for, room_in, with_front};
ghost use Rattle.acap_dialogue.specs.Session.{Awaits, answer_at, after_answer, drain_in, has_seat, heard_at};
ghost use Rattle.acap_dialogue.specs.Session.{is_asked, is_closed, session_drain, session_next};
ghost use Rattle.acap_dialogue.specs.Talking.{beginning};
ghost use Rattle.acap_dialogue.specs.declared.stage.Stage.TheVariants as stages;

use crate::answering::answer;
use crate::hearing::{hear, hear_line, open};
use crate::listener::Listener;
use crate::logging::hear_login;
use crate::next::{Heard, Next};
use crate::stage::Stage;
use acap_commands::{Event, Fault, Reply};
use acap_entries::{Memory, Moment, Octets, UserName};
use acap_lexer::{Lexed, Lexer, Mode};
use acap_login::Users;
use std::alloc::Global;
use std::marker::Model;
use std::mem;

// Hands the memory of a line's tokens back to its lexer.
fn hand_back(lexer: &mut Lexer, lexed: Lexed)
    ensures { lexer.new ≡ lexer.old }
{
    match lexed {
        Lexed::Line(tokens) => lexer.take_back(tokens),
        _ => {}
    }
}

// What was said, as octets of its own.
fn next_of(heard: Heard, octets: Vec<u8>) -> Next
    ensures { result ≡ saying.next_of heard octets.items }
{
    match heard {
        Heard::More => Next::More,
        Heard::Said => Next::Say(Octets::from_vec(octets)),
        Heard::Asks(event) => Next::Ask(event),
        Heard::Closes => Next::Close(Octets::from_vec(octets)),
    }
}

/// A session between a client and the machine (RFC 2244 section 2): octets come in pieces, and it says what is next.
/// It performs no event itself: it asks for one, and is given the machine's answer.
pub struct Session {
    alloc: Global,
    lexer: Lexer,
    host: Octets,
    user: Option<UserName>,
    stage: Stage,
}

// By hand, so that no other crate takes a session apart to drop it.
impl Drop for Session {
    fn drop(self) {
        let Session {
            alloc: _,
            lexer: _,
            host: _,
            user: _,
            stage: _,
        } = self;
    }
}

impl Model for Session {
    ghost use Rattle.acap_dialogue.specs.Talking.{Talking};

    ghost Value = { Talking };

    ghost view = { λ s. record { host = s.host; user = s.user; held = s.lexer; stage = s.stage } };
}

impl Session {
    /// A session at that host, of that user if there is one. Takes no memory.
    pub fn new(alloc: Global, host: Octets, user: Option<UserName>) -> Session
        ensures { result ≡ beginning host user }
    {
        Session {
            alloc,
            lexer: Lexer::new(alloc),
            host,
            user,
            stage: Stage::Opening,
        }
    }

    /// Takes a prefix of a piece of the client's octets, and says how many octets that is: all of it, or as much as
    /// keeps the octets after the last command at 270,336. Where memory is refused nothing is taken.
    pub fn push(&mut self, piece: &[u8]) -> Result<usize, Memory>
        ensures taken { IfOk result (λ n. n ≡ room_for self.old piece.now) }
        ensures held { IfOk result (λ n. self.new ≡ with_front self.old n piece.now) }
        ensures err { OnErr result (self.new ≡ self.old) }
    {
        match self.lexer.push(piece) {
            Ok(taken) => Ok(taken),
            Err(_) => Err(Memory),
        }
    }

    /// How many octets there is room for: `push` takes that many of a longer piece, and all of any other. Takes no memory.
    pub fn room(&self) -> usize
        ensures { result ≡ room_in self.now }
    {
        self.lexer.room()
    }

    /// What is next, where the clock shows that moment; a login that begins has that nonce (RFC 2195 section 2),
    /// and one that ends is judged by those users. Where nothing is next the session is as it was. Where memory is refused
    /// it is closed, and has the user that it had.
    pub fn next(&mut self, users: &Users, nonce: u64, clock: Moment) -> Result<Next, Memory>
        ensures ok { IfOk result (λ next. (next, self.new) ≡ session_next users.now nonce clock self.old) }
        ensures asked { IfOk result (λ next. Awaits next self.new) }
        ensures more { IfOk result (λ next. IfMore next (self.new ≡ self.old)) }
        ensures err { OnErr result (IsCutOff self.old self.new) }
    {
        let mut octets = Vec::new(self.alloc);
        let heard = self.hear(users, nonce, clock, &mut octets)?;
        Ok(next_of(heard, octets))
    }

    /// The same, where the octets that are said are added to those that are lent.
    #[tactic(auto, unfolding(crate::specs::Session::session_next))]
    pub fn hear(
        &mut self,
        users: &Users,
        nonce: u64,
        clock: Moment,
        out: &mut Vec<u8>,
    ) -> Result<Heard, Memory>
        ensures { Makes (session_next users.now nonce clock self.old) result self.old self.new
            out.old out.new }
    {
        if let Stage::Ready = self.stage {
            return self.hear_command(nonce, clock, out);
        }
        match mem::replace(&mut self.stage, Stage::Closed) {
            Stage::Opening => open(&self.user, &mut self.stage, out),
            Stage::Challenged(tag, challenge) => self.hear_answer(users, tag, challenge, out),
            stage => {
                self.stage = stage;
                Ok(Heard::More)
            }
        }
    }

    // What is said to an answer of the lexer where no answer to a challenge is awaited. The memory of a line's tokens
    // is the next line's.
    fn hear_lexed(
        &mut self,
        lexed: Lexed,
        nonce: u64,
        clock: Moment,
        out: &mut Vec<u8>,
    ) -> Result<Heard, Memory>
        ensures hears { HearsOf (heard_by self.old nonce clock lexed) result self.old self.new
            out.old out.new }
        ensures rest { self.new ≡ record self.old { stage = self.new.stage } }
    {
        let listener = Listener {
            alloc: self.alloc,
            host: &self.host,
            user: &self.user,
            nonce,
            clock,
        };
        match lexed {
            Lexed::Line(tokens) => {
                let came = hear_line(&listener, &tokens, &mut self.stage, out);
                self.lexer.take_back(tokens);
                came
            }
            other => hear(&listener, &other, &mut self.stage, out),
        }
    }

    // Hears the lexer's next answer where no answer to a challenge is awaited.
    fn hear_command(
        &mut self,
        nonce: u64,
        clock: Moment,
        out: &mut Vec<u8>,
    ) -> Result<Heard, Memory>
        ensures { Makes (heard_at self.old nonce clock) result self.old self.new out.old out.new }
    {
        let Ok(lexed) = self.lexer.next(Mode::Command) else {
            self.close();
            return Err(Memory);
        };
        let came = self.hear_lexed(lexed, nonce, clock, out);
        if came.is_err() {
            self.close();
        }
        came
    }

    // Hears the lexer's next answer where the answer to a challenge is awaited.
    fn hear_answer(
        &mut self,
        users: &Users,
        tag: Option<Octets>,
        challenge: Octets,
        out: &mut Vec<u8>,
    ) -> Result<Heard, Memory>
        requires { self.old.stage ≡ stages.Closed }
        ensures { Makes (answer_at users.now tag challenge self.old) result self.old self.new
            out.old out.new }
    {
        let Ok(lexed) = self.lexer.next(Mode::Answer) else {
            return Err(Memory);
        };
        let came = hear_login(users, tag, challenge, &lexed, &mut self.stage, out);
        hand_back(&mut self.lexer, lexed);
        came
    }

    /// Takes the machine's answer to the event that was asked, and gives what is said then: `Say` or `Close`. Where
    /// memory is refused the session is closed, and has the user that it had; the event stands, and its answer closes nothing.
    pub fn answer(&mut self, outcome: Result<Reply, Fault>) -> Result<Next, Memory>
        requires { is_asked self.old.stage ≡ true }
        ensures ok { IfOk result (λ next. (next, self.new) ≡ after_answer self.old outcome) }
        ensures err { OnErr result (IsCutOff self.old self.new) }
        ensures open { OnErr result (closes (after_answer self.old outcome).0 ≡ false) }
    {
        let mut octets = Vec::new(self.alloc);
        let heard = self.reply(outcome, &mut octets)?;
        Ok(next_of(heard, octets))
    }

    /// The same, where the octets that are said are added to those that are lent.
    #[tactic(auto, unfolding(crate::specs::Session::after_answer))]
    pub fn reply(
        &mut self,
        outcome: Result<Reply, Fault>,
        out: &mut Vec<u8>,
    ) -> Result<Heard, Memory>
        requires { is_asked self.old.stage ≡ true }
        ensures makes { Makes (after_answer self.old outcome) result self.old self.new out.old out.new }
        ensures open { OnErr result (closes (after_answer self.old outcome).0 ≡ false) }
    {
        let stage = mem::replace(&mut self.stage, Stage::Closed);
        answer(stage, &mut self.user, outcome, &mut self.stage, out)
    }

    /// Asks for what is pending, if the session's user may: else nothing is next. Takes no memory.
    #[tactic(auto, unfolding(crate::specs::Session::session_drain))]
    pub fn drain(&mut self) -> Next
        ensures value { (result, self.new) ≡ session_drain self.old }
        ensures asked { Awaits result self.new }
    {
        if self.begin_drain() {
            return Next::Ask(Event::Drain);
        }
        Next::More
    }

    /// Whether what is pending may be asked for, which is then awaited. Takes no memory.
    #[tactic(auto, unfolding(crate::specs::Session::session_drain))]
    pub fn begin_drain(&mut self) -> bool
        ensures { (drain_in result, self.new) ≡ session_drain self.old }
    {
        match (&self.stage, &self.user) {
            (Stage::Ready, Some(_)) => {
                self.stage = Stage::Draining;
                true
            }
            _ => false,
        }
    }

    /// What is pending is awaited no longer, where it was.
    pub fn end_drain(&mut self)
        requires { self.old.stage ≡ stages.Draining }
        ensures { self.new ≡ record self.old { stage = stages.Ready } }
    {
        self.stage = Stage::Ready;
    }

    /// Whether its user has its seat in the machine.
    pub fn has_seat(&self) -> bool
        ensures { result ≡ has_seat self.now }
    {
        match self.stage {
            Stage::Opening | Stage::Entering | Stage::Closed => false,
            _ => self.user.is_some(),
        }
    }

    /// Whether it is over.
    pub fn is_closed(&self) -> bool
        ensures { result ≡ is_closed self.now.stage }
    {
        matches!(self.stage, Stage::Closed)
    }

    /// Ends it without a word.
    pub fn close(&mut self)
        ensures { self.new ≡ record self.old { stage = stages.Closed } }
    {
        self.stage = Stage::Closed;
    }
}
