//! Commands that `dump` and `keep` send: for the user's rights, for all entries, and for changes.

use crate::beside::{beside, both};
use crate::failure::{Failure, Problem, Wanted};
use crate::session::Session;
use crate::watching::context_name;
use acap_client::{Line, Response};
use acap_commands::{Command, ContextNames, ObjectName};
use acap_entries::{Boxed, Dataset, Label};
use acap_shell as shell;
use acap_shell::line_of;
use std::alloc::Global;

/// The root of all datasets.
fn root(alloc: Global) -> Result<Dataset, Failure> {
    match Dataset::read(alloc, b"/") {
        Ok(dataset) => Ok(dataset),
        Err(fault) => Err(Failure::of_word(Wanted::Dataset, fault)),
    }
}

/// The line that asks which rights a user has everywhere.
fn ask_rights(alloc: Global, user: &[u8]) -> Result<Vec<u8>, Failure> {
    let dataset = root(alloc)?;
    let object = Boxed::new(alloc, ObjectName::Dataset { dataset })?;
    let (object, user) = beside(object, Label::from_slice(alloc, user))?;
    Ok(line_of(alloc, b"A1", Command::ListRights(object, user))?)
}

/// Whether a response says that a user has all rights, which administrators have.
fn admits(response: &Response) -> bool {
    match response.line() {
        Some(Line::RightsList(_, rights)) => match rights.text() {
            Some((always, _)) => always == b"xrwia".as_slice(),
            None => false,
        },
        _ => false,
    }
}

/// Fails unless what comes next says that a user is an administrator.
fn hear_administrator(session: &mut Session) -> Result<(), Failure> {
    let response = session.hear()?;
    if admits(&response) {
        Ok(())
    } else {
        Err(Failure::Other(Problem::NoAdministrator))
    }
}

/// Fails unless a user is an administrator: another may not see all.
pub(crate) fn need_administrator(
    alloc: Global,
    session: &mut Session,
    user: &[u8],
) -> Result<(), Failure> {
    session.ask(&ask_rights(alloc, user)?)?;
    hear_administrator(session)?;
    session.wait(b"A1")
}

/// Asks for all that the server holds.
pub(crate) fn ask_all(alloc: Global, session: &mut Session) -> Result<(), Failure> {
    let line = line_of(alloc, b"A2", shell::dump(alloc, root(alloc)?)?)?;
    session.ask(&line)
}

/// The SEARCH for all that a server holds, as `dump` sends it, which makes a context.
pub(crate) fn search_all(alloc: Global) -> Result<Command, Failure> {
    let (root, name) = both(root(alloc), context_name(alloc))?;
    Ok(shell::follow_all(alloc, root, name)?)
}

/// The line that asks for all changes up to now.
pub(crate) fn update(alloc: Global) -> Result<Vec<u8>, Failure> {
    let mut names = ContextNames::new(alloc);
    names.push(context_name(alloc)?)?;
    Ok(line_of(alloc, b"A2", Command::UpdateContext(names))?)
}
