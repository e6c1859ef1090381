//! What a session says to the machine's answers.

ghost use Rattle.std.specs.Prelude.{◌≡◌, OnOk, OnErr, false};
ghost use Rattle.acap_grammar.specs.Lent.{lent_tag};
ghost use Rattle.acap_dialogue.specs.Running.{closes};
ghost use Rattle.acap_dialogue.specs.Saying.{Hears};
ghost use Rattle.acap_dialogue.specs.Session as talk;

use crate::hearing::says;
use crate::next::Heard;
use crate::stage::Stage;
use acap_commands::{Fault, Refusal, Reply, Said, Verb};
use acap_entries::{Memory, Octets, UserName};

/// The octets of a tag.
pub(crate) fn lend(tag: &Option<Octets>) -> Option<&[u8]>
    ensures { lent_tag result ≡ tag.now }
{
    match tag {
        Some(tag) => Some(tag.as_slice()),
        None => None,
    }
}

// The machine's answer to a command is said under its tag.
fn say_reply(
    tag: &Option<Octets>,
    outcome: Result<Reply, Fault>,
    stage: &mut Stage,
    out: &mut Vec<u8>,
) -> Result<Heard, Memory>
    ensures told { Hears (talk.command_said tag.now outcome) result stage.old stage.new out.old out.new }
    ensures open { OnErr result (closes (talk.command_said tag.now outcome).0 ≡ false) }
{
    match outcome {
        Ok(reply) => says(lend(tag), &reply.said, stage, out),
        Err(Fault::Memory) => says(lend(tag), &Said::Refused(Refusal::Memory), stage, out),
        Err(Fault::HistoryFull) => {
            says(lend(tag), &Said::Refused(Refusal::HistoryFull), stage, out)
        }
        Err(Fault::NotEntered) | Err(Fault::AlreadyEntered) => {
            *stage = Stage::Closed;
            Ok(Heard::Closes)
        }
    }
}

// The answer to a user's entering begins the session, or ends it without a word.
fn welcome(
    outcome: Result<Reply, Fault>,
    stage: &mut Stage,
    out: &mut Vec<u8>,
) -> Result<Heard, Memory>
    ensures told { Hears (talk.welcome_said outcome) result stage.old stage.new out.old out.new }
    ensures open { OnErr result (closes (talk.welcome_said outcome).0 ≡ false) }
{
    match outcome {
        Ok(reply) => says(None, &reply.said, stage, out),
        Err(_) => {
            *stage = Stage::Closed;
            Ok(Heard::Closes)
        }
    }
}

// Who has entered after a login is the session's user.
fn log_in(
    tag: &Option<Octets>,
    name: UserName,
    user: &mut Option<UserName>,
    outcome: Result<Reply, Fault>,
    stage: &mut Stage,
    out: &mut Vec<u8>,
) -> Result<Heard, Memory>
    ensures told { Hears (talk.login_said tag.now outcome) result stage.old stage.new out.old out.new }
    ensures open { OnErr result (closes (talk.login_said tag.now outcome).0 ≡ false) }
    ensures user { OnOk result (user.new ≡ talk.login_user name user.old outcome) }
    ensures kept { OnErr result (user.new ≡ user.old) }
{
    match outcome {
        Ok(_) => {
            let heard = says(lend(tag), &Said::Done(Verb::Authenticate), stage, out)?;
            *user = Some(name);
            Ok(heard)
        }
        Err(fault) => say_reply(tag, Err(fault), stage, out),
    }
}

// What is pending is said as it is, and nothing where it was refused; a session whose seat isn't its own is closed.
fn say_pending(
    outcome: Result<Reply, Fault>,
    stage: &mut Stage,
    out: &mut Vec<u8>,
) -> Result<Heard, Memory>
    ensures told { Hears (talk.drain_said outcome) result stage.old stage.new out.old out.new }
    ensures open { OnErr result (closes (talk.drain_said outcome).0 ≡ false) }
{
    match outcome {
        Ok(reply) => says(None, &reply.said, stage, out),
        Err(Fault::Memory) | Err(Fault::HistoryFull) => {
            *stage = Stage::Ready;
            Ok(Heard::Said)
        }
        Err(Fault::NotEntered) | Err(Fault::AlreadyEntered) => {
            *stage = Stage::Closed;
            Ok(Heard::Closes)
        }
    }
}

/// What a session at that stage says to the machine's answer, and who is its user then: where memory is refused, the same. An answer
/// that closes the session says nothing, so that it is never refused.
pub(crate) fn answer(
    was: Stage,
    user: &mut Option<UserName>,
    outcome: Result<Reply, Fault>,
    stage: &mut Stage,
    out: &mut Vec<u8>,
) -> Result<Heard, Memory>
    ensures told { Hears (talk.answer_said was outcome) result stage.old stage.new out.old out.new }
    ensures open { OnErr result (closes (talk.answer_said was outcome).0 ≡ false) }
    ensures user { OnOk result (user.new ≡ talk.answer_user was user.old outcome) }
    ensures kept { OnErr result (user.new ≡ user.old) }
{
    match was {
        Stage::Entering => welcome(outcome, stage, out),
        Stage::Asked(tag) => say_reply(&tag, outcome, stage, out),
        Stage::LoggingIn(tag, name) => log_in(&tag, name, user, outcome, stage, out),
        Stage::Draining => say_pending(outcome, stage, out),
        other => {
            *stage = other;
            Ok(Heard::More)
        }
    }
}
