//! Does what a call says: each command of the program begins here.

use crate::beside::beside;
use crate::dumping::print_dump;
use crate::failure::{Failure, Wanted};
use crate::keeper::keep;
use crate::meaning::{Meaning, read_meaning};
use crate::relaying::pass_lines;
use crate::secret::secret;
use crate::session::Session;
use crate::shown::Printing;
use crate::watching::{follow_list, read_watch};
use acap_shell::Form;
use clap::ArgMatches;

/// The user that a call names.
fn user_of<'a>(matches: &ArgMatches<'a>) -> &'a str {
    matches.get_str("USER").unwrap_or("")
}

/// A session of the user that a call names, who is logged in.
fn logged_in(rt: &HostRuntime, matches: &ArgMatches, singly: bool) -> Result<Session, Failure> {
    let secret = secret(rt, matches)?;
    let session = Session::connect(rt, matches.get_str("HOST:PORT").unwrap_or(""), singly)?;
    session.logged_in(user_of(matches).as_bytes(), &secret)
}

/// Sends the line of a command under a tag, and prints what is answered.
fn exchange(
    session: &mut Session,
    printing: &mut Printing,
    tag: &[u8],
    line: &[u8],
) -> Result<(), Failure> {
    session.ask(line)?;
    session.finish(tag, printing)
}

/// Sends the commands of a call one after the other, and prints what is answered.
fn talk(session: &mut Session, printing: &mut Printing, meaning: &Meaning) -> Result<(), Failure> {
    exchange(session, printing, b"A1", &meaning.line)?;
    match &meaning.next {
        Some(next) => exchange(session, printing, b"A2", next),
        None => Ok(()),
    }
}

/// Sends the commands of a call, and prints what is answered, also where that ends in a failure.
fn converse(
    rt: &HostRuntime,
    session: &mut Session,
    form: Form,
    meaning: &Meaning,
) -> Result<(), Failure> {
    let mut printing = Printing::new(rt, form, meaning.shown);
    let done = talk(session, &mut printing, meaning);
    printing.end(done)
}

/// Does what a call says that needs no loop of its own.
fn do_commands(
    rt: &HostRuntime,
    matches: &ArgMatches,
    form: Form,
    verb: &str,
    words: &ArgMatches,
) -> Result<(), Failure> {
    let meaning = read_meaning(rt, verb, words)?;
    let (meaning, mut session) = beside(meaning, logged_in(rt, matches, false))?;
    converse(rt, &mut session, form, &meaning)
}

/// `watch`.
fn watch(
    rt: &HostRuntime,
    matches: &ArgMatches,
    form: Form,
    words: &ArgMatches,
) -> Result<(), Failure> {
    let wanted = read_watch(rt.alloc(), words)?;
    let (wanted, mut session) = beside(wanted, logged_in(rt, matches, false))?;
    follow_list(rt, &mut session, form, wanted)
}

/// How octets are printed.
fn form(matches: &ArgMatches) -> Form {
    if matches.get_flag("raw-octets") {
        Form::Raw
    } else {
        Form::Escaped
    }
}

/// Does what a call says.
pub(crate) fn run(rt: &HostRuntime, matches: &ArgMatches) -> Result<(), Failure> {
    let Some((verb, words)) = matches.subcommand() else {
        return Err(Failure::Word(Wanted::Verb));
    };
    let form = form(matches);
    match verb {
        "watch" => watch(rt, matches, form, words),
        "dump" => print_dump(rt, &mut logged_in(rt, matches, false)?, user_of(matches)),
        "keep" => keep(rt, matches, words),
        "raw" => pass_lines(rt, logged_in(rt, matches, true)?, form, false),
        "load" => pass_lines(rt, logged_in(rt, matches, true)?, form, true),
        _ => do_commands(rt, matches, form, verb, words),
    }
}
