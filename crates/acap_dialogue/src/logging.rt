//! What a session says to the answer to its challenge: the login succeeds, is refused, or is cancelled.

ghost use Rattle.std.specs.Prelude.{◌≡◌, IfOk};
ghost use Rattle.acap_dialogue.specs.Hearing as hearing;
ghost use Rattle.acap_dialogue.specs.Telling.{HearsAnswer, HearsLine, HearsString, HearsOne};

use crate::answering::lend;
use crate::hearing::{closes, continues, says};
use crate::next::Heard;
use crate::stage::Stage;
use acap_commands::{Event, Refusal, Said};
use acap_entries::{Copying, Memory, Octets, UserName};
use acap_grammar::lexical_refusal;
use acap_lexer::{Kind, Lexed, Tokens};
use acap_login::{Users, check};

// Whom an answer logs in.
fn who(users: &Users, challenge: &Octets, answer: &[u8]) -> Result<Option<UserName>, Memory>
    ensures { IfOk result (λ user. user ≡ hearing.who users.now challenge.now answer.now) }
{
    let Some(place) = check(users, challenge.as_slice(), answer) else {
        return Ok(None);
    };
    match users.name(place) {
        Some(name) => Ok(Some(name.copy()?)),
        None => Ok(None),
    }
}

// A string is an answer: who is logged in by it asks to enter.
fn logs_in(
    users: &Users,
    tag: Option<Octets>,
    challenge: &Octets,
    answer: &[u8],
    stage: &mut Stage,
    out: &mut Vec<u8>,
) -> Result<Heard, Memory>
    ensures { HearsString users.now tag challenge.now answer.now result stage.old stage.new out.old out.new }
{
    match who(users, challenge, answer)? {
        Some(user) => {
            let enters = Event::Enter(user.copy()?);
            *stage = Stage::LoggingIn(tag, user);
            Ok(Heard::Asks(enters))
        }
        None => says(lend(&tag), &Said::Refused(Refusal::LoginFailed), stage, out),
    }
}

// Why a token that is no string is refused: the word `*` gives the login up.
fn refusal_of(kind: Kind, text: &[u8]) -> Refusal
    ensures { result ≡ hearing.refusal_of kind text.now }
{
    if kind == Kind::Word && text == b"*".as_slice() {
        return Refusal::Cancelled;
    }
    Refusal::Arguments
}

fn answer_token(
    users: &Users,
    tag: Option<Octets>,
    challenge: &Octets,
    kind: Kind,
    text: &[u8],
    stage: &mut Stage,
    out: &mut Vec<u8>,
) -> Result<Heard, Memory>
    ensures { HearsOne users.now tag challenge.now kind text.now result stage.old stage.new out.old out.new }
{
    match kind {
        Kind::Quoted | Kind::Literal => logs_in(users, tag, challenge, text, stage, out),
        kind => says(
            lend(&tag),
            &Said::Refused(refusal_of(kind, text)),
            stage,
            out,
        ),
    }
}

// An answer stands alone in its line.
fn answer_line(
    users: &Users,
    tag: Option<Octets>,
    challenge: &Octets,
    tokens: &Tokens,
    stage: &mut Stage,
    out: &mut Vec<u8>,
) -> Result<Heard, Memory>
    ensures { HearsLine users.now tag challenge.now tokens.now result stage.old stage.new out.old out.new }
{
    if tokens.len() != 1 {
        return says(lend(&tag), &Said::Refused(Refusal::Arguments), stage, out);
    }
    answer_token(
        users,
        tag,
        challenge,
        tokens.kind(0),
        tokens.value(0),
        stage,
        out,
    )
}

/// What a session that awaits the answer to a challenge says to an answer of its lexer, or whom it lets enter.
#[tactic(auto, unfolding(crate::specs::Hearing::heard_answer))]
pub(crate) fn hear_login(
    users: &Users,
    tag: Option<Octets>,
    challenge: Octets,
    lexed: &Lexed,
    stage: &mut Stage,
    out: &mut Vec<u8>,
) -> Result<Heard, Memory>
    ensures { HearsAnswer users.now tag challenge lexed.now result stage.old stage.new out.old out.new }
{
    match lexed {
        Lexed::More => {
            *stage = Stage::Challenged(tag, challenge);
            Ok(Heard::More)
        }
        Lexed::Plus => {
            continues(out)?;
            *stage = Stage::Challenged(tag, challenge);
            Ok(Heard::Said)
        }
        Lexed::Line(tokens) => answer_line(users, tag, &challenge, tokens, stage, out),
        Lexed::Bad(_, _) => says(lend(&tag), &Said::Refused(Refusal::Arguments), stage, out),
        Lexed::Fatal(fault) => closes(None, &Said::Refused(lexical_refusal(*fault)), stage, out),
    }
}
