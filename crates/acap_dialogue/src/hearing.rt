//! What a session says to, or asks for, a line of its client.

ghost use Rattle.std.specs.Prelude.{◌≡◌, ◌++◌, None, IfOk, OnOk, OnErr};
ghost use Rattle.acap_grammar.specs.Lent.{lent_tag};
ghost use Rattle.acap_lexer.specs.declared.lexed.Lexed.TheVariants.{Line};
ghost use Rattle.acap_dialogue.specs.Hearing as hearing;
ghost use Rattle.acap_dialogue.specs.Hearing.{challenges, closes, response_to, opening, says};
ghost use Rattle.acap_dialogue.specs.Saying.{Hears};
ghost use Rattle.acap_dialogue.specs.Telling.{asks_by, command_by, HearsLogin};
ghost use Rattle.acap_dialogue.specs.declared.next.Heard.TheVariants as hears;

use crate::listener::Listener;
use crate::next::Heard;
use crate::stage::Stage;
use acap_commands::{Command, Event, Refusal, Said, Verb};
use acap_entries::{Copying, Label, Memory, Moment, Octets, UserName};
use acap_grammar::{GrammarFault, is_noop, lexical_refusal, parse, render_said};
use acap_lexer::{Lexed, Tag, Tokens};
use acap_login::challenge;
use std::alloc::Global;

/// Words are said under a tag, and the session is ready again. Where memory is refused its stage stays, as in each call below.
pub(crate) fn says(
    tag: Option<&[u8]>,
    said: &Said,
    stage: &mut Stage,
    out: &mut Vec<u8>,
) -> Result<Heard, Memory>
    ensures { Hears (says (lent_tag tag.entry) said.now) result stage.old stage.new out.old out.new }
{
    render_said(tag, said, out)?;
    *stage = Stage::Ready;
    Ok(Heard::Said)
}

/// Words are said under a tag, and the session is closed.
pub(crate) fn closes(
    tag: Option<&[u8]>,
    said: &Said,
    stage: &mut Stage,
    out: &mut Vec<u8>,
) -> Result<Heard, Memory>
    ensures { Hears (closes (lent_tag tag.entry) said.now) result stage.old stage.new out.old out.new }
{
    render_said(tag, said, out)?;
    *stage = Stage::Closed;
    Ok(Heard::Closes)
}

/// A tag in memory of its own.
fn own_tag(alloc: Global, tag: Option<&[u8]>) -> Result<Option<Octets>, Memory>
    ensures { IfOk result (λ made. made ≡ lent_tag tag.entry) }
{
    match tag {
        Some(tag) => Ok(Some(Octets::from_slice(alloc, tag)?)),
        None => Ok(None),
    }
}

// A command that concerns the store is the machine's, if there is a user.
fn asks(
    listener: &Listener,
    tag: Option<&[u8]>,
    command: Command,
    stage: &mut Stage,
    out: &mut Vec<u8>,
) -> Result<Heard, Memory>
    ensures { Hears (asks_by listener.now tag.entry command) result stage.old stage.new out.old out.new }
{
    match listener.user {
        Some(_) => {
            *stage = Stage::Asked(own_tag(listener.alloc, tag)?);
            Ok(Heard::Asks(Event::Command(command)))
        }
        None => says(tag, &Said::Refused(Refusal::NotLoggedIn), stage, out),
    }
}

// How many whole seconds a moment is after the start of 1970, and none where it lies before.
fn seconds(clock: Moment) -> u64
    ensures { result ≡ hearing.seconds_of clock }
{
    let micros = clock.micros();
    if micros < 0 {
        return 0;
    }
    micros as u64 / 1_000_000
}

// The client is to answer this challenge.
fn challenges(
    tag: Option<Octets>,
    told: Octets,
    stage: &mut Stage,
    out: &mut Vec<u8>,
) -> Result<Heard, Memory>
    ensures { Hears (challenges tag told) result stage.old stage.new out.old out.new }
{
    render_said(None, &Said::Challenge(told.copy()?), out)?;
    *stage = Stage::Challenged(tag, told);
    Ok(Heard::Said)
}

// A user who is logged in needs no mechanism; another is challenged, if the mechanism is CRAM-MD5.
fn authenticates(
    listener: &Listener,
    tag: Option<&[u8]>,
    mechanism: &Label,
    stage: &mut Stage,
    out: &mut Vec<u8>,
) -> Result<Heard, Memory>
    ensures { HearsLogin listener.now tag.entry mechanism.now result stage.old stage.new out.old out.new }
{
    if listener.user.is_some() {
        return says(tag, &Said::Refused(Refusal::LoggedIn), stage, out);
    }
    if !mechanism.as_slice().eq_ignore_ascii_case(b"CRAM-MD5") {
        return says(tag, &Said::Refused(Refusal::NoMechanism), stage, out);
    }
    let told = challenge(
        listener.alloc,
        listener.nonce,
        seconds(listener.clock),
        listener.host.as_slice(),
    )?;
    challenges(
        own_tag(listener.alloc, tag)?,
        Octets::from_vec(told),
        stage,
        out,
    )
}

#[tactic(auto, unfolding(crate::specs::Hearing::heard_command))]
fn hear_command(
    listener: &Listener,
    tag: Option<&[u8]>,
    command: Command,
    stage: &mut Stage,
    out: &mut Vec<u8>,
) -> Result<Heard, Memory>
    ensures { Hears (command_by listener.now tag.entry command) result stage.old stage.new out.old out.new }
{
    match command {
        Command::Noop => says(tag, &Said::Done(Verb::Noop), stage, out),
        Command::Logout => closes(tag, &Said::GoodBye, stage, out),
        Command::Authenticate(mechanism) => {
            authenticates(listener, tag, &mechanism, stage, out)
        },
        command => asks(listener, tag, command, stage, out),
    }
}

// The tag of a line is its first token.
fn tag_of(tokens: &Tokens) -> Option<&[u8]>
    ensures { lent_tag result ≡ hearing.tag_of tokens.now }
{
    if tokens.is_empty() {
        return None;
    }
    Some(tokens.value(0))
}

/// What is said to a whole line, or asked of the machine then.
#[tactic(auto, unfolding(crate::specs::Hearing::response_to, crate::specs::Hearing::heard_command))]
pub(crate) fn hear_line(
    listener: &Listener,
    tokens: &Tokens,
    stage: &mut Stage,
    out: &mut Vec<u8>,
) -> Result<Heard, Memory>
    ensures { Hears (response_to listener.now (Line tokens.now)) result stage.old stage.new out.old out.new }
{
    let tag = tag_of(tokens);
    if is_noop(listener.alloc, tokens) {
        return says(tag, &Said::Done(Verb::Noop), stage, out);
    }
    match parse(listener.alloc, tokens) {
        Ok(command) => hear_command(listener, tag, command, stage, out),
        Err(GrammarFault::Memory) => Err(Memory),
        Err(GrammarFault::Fault(fault)) => {
            says(tag, &Said::Refused(Refusal::from(fault)), stage, out)
        }
    }
}

/// The continuation that a waiting literal is due is said.
pub(crate) fn continues(out: &mut Vec<u8>) -> Result<(), Memory>
    ensures ok { OnOk result (out.new.items ≡ out.old.items ++ hearing.ready_line) }
    ensures err { OnErr result (out.new.items ≡ out.old.items) }
{
    match out.extend_from_slice(b"+ \"Ready\"\r\n") {
        Ok(()) => Ok(()),
        Err(_) => Err(Memory),
    }
}

fn lend(tag: &Option<Tag>) -> Option<&[u8]>
    ensures { lent_tag result ≡ tag.now }
{
    match tag {
        Some(tag) => Some(tag.as_slice()),
        None => None,
    }
}

/// What a session that awaits no answer says to an answer of its lexer, or what it asks the machine then.
#[tactic(auto, unfolding(crate::specs::Hearing::response_to))]
pub(crate) fn hear(
    listener: &Listener,
    lexed: &Lexed,
    stage: &mut Stage,
    out: &mut Vec<u8>,
) -> Result<Heard, Memory>
    ensures { Hears (response_to listener.now lexed.now) result stage.old stage.new out.old out.new }
{
    match lexed {
        Lexed::More => {
            *stage = Stage::Ready;
            Ok(Heard::More)
        }
        Lexed::Plus => {
            continues(out)?;
            *stage = Stage::Ready;
            Ok(Heard::Said)
        }
        Lexed::Line(tokens) => hear_line(listener, tokens, stage, out),
        Lexed::Bad(fault, tag) => {
            says(
                lend(tag),
                &Said::Refused(lexical_refusal(*fault)),
                stage,
                out,
            )
        }
        Lexed::Fatal(fault) => closes(None, &Said::Refused(lexical_refusal(*fault)), stage, out),
    }
}

/// How a session begins: without a user it says the greeting, and a user's session first asks to enter.
#[tactic(auto, unfolding(crate::specs::Hearing::opening))]
pub(crate) fn open(
    user: &Option<UserName>,
    stage: &mut Stage,
    out: &mut Vec<u8>,
) -> Result<Heard, Memory>
    ensures { Hears (opening user.now) result stage.old stage.new out.old out.new }
{
    match user {
        Some(user) => {
            let enters = Event::Enter(user.copy()?);
            *stage = Stage::Entering;
            Ok(Heard::Asks(enters))
        }
        None => says(None, &Said::Greeting, stage, out),
    }
}
