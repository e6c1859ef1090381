//! `command_line`: writes any command as the line that is sent.

ghost use Rattle.std.specs.Prelude.{◌≡◌, IfOk, OnOk};
ghost use Rattle.acap_grammar.specs.Spelling as spelling;
ghost use Rattle.acap_grammar.specs.Texts.{line_of};
ghost use Rattle.acap_client.specs.Parts.{arguments_of, verb_of};
ghost use Rattle.acap_client.specs.Writing.{Writes};

use crate::listing::contexts;
use crate::objects::{dataset, object, string_if_there};
use crate::seeking::search;
use crate::storing::entries;
use crate::writing::{Writing, finish, string, tagged, time, word};
use acap_commands::{Command, ObjectName};
use acap_entries::{Label, Memory};
use std::alloc::Global;

/// SETACL.
fn set_acl(
    writing: &mut Writing,
    of: &ObjectName,
    name: &Label,
    rights: &Label,
) -> Result<(), Memory>
    ensures { OnOk result (Writes (λ after. spelling.object of.now
        (spelling.string name.now (spelling.string rights.now after))) writing.old writing.new) }
{
    object(writing, of)?;
    string(writing, name.as_slice())?;
    string(writing, rights.as_slice())
}

/// The arguments of a command.
fn arguments(writing: &mut Writing, command: &Command) -> Result<(), Memory>
    ensures { OnOk result (Writes (arguments_of command.now) writing.old writing.new) }
{
    match command {
        Command::Noop | Command::Logout => Ok(()),
        Command::Authenticate(mechanism) => string(writing, mechanism.as_slice()),
        Command::Store(all) => entries(writing, all.as_slice()),
        Command::Search(wanted) => search(writing, wanted.get()),
        Command::SetAcl(of, name, rights) => {
            set_acl(writing, of.get(), name.get(), rights.get())
        }
        Command::DeleteAcl(of, name) => {
            object(writing, of.get())?;
            string_if_there(writing, name)
        }
        Command::MyRights(of) => object(writing, of.get()),
        Command::ListRights(of, name) => {
            object(writing, of.get())?;
            string(writing, name.as_slice())
        }
        Command::DeletedSince(name, since) => {
            dataset(writing, name)?;
            time(writing, *since)
        }
        Command::FreeContext(name) => string(writing, name.as_slice()),
        Command::UpdateContext(names) => contexts(writing, names.as_slice()),
    }
}

/// The verb of a command.
fn verb(command: &Command) -> &'static [u8]
    ensures { result.now ≡ verb_of command.now }
{
    match command {
        Command::Noop => b"NOOP",
        Command::Logout => b"LOGOUT",
        Command::Authenticate(_) => b"AUTHENTICATE",
        Command::Store(_) => b"STORE",
        Command::Search(_) => b"SEARCH",
        Command::SetAcl(..) => b"SETACL",
        Command::DeleteAcl(..) => b"DELETEACL",
        Command::MyRights(_) => b"MYRIGHTS",
        Command::ListRights(..) => b"LISTRIGHTS",
        Command::DeletedSince(..) => b"DELETEDSINCE",
        Command::FreeContext(_) => b"FREECONTEXT",
        Command::UpdateContext(_) => b"UPDATECONTEXT",
    }
}

/// The line that is sent for a command under this tag, in its plainest spelling, with its CR LF (RFC 2244 sections 2.2, 2.6 and 6).
/// The server reads this command from it, if the tag has 1 to 32 octets of a tag, the command is within the limits, and
/// the line is no longer than a server takes. A string that can't stand between quotes is a literal for which the client
/// doesn't wait. Fails only for want of memory.
pub fn command_line(alloc: Global, tag: &[u8], command: &Command) -> Result<Vec<u8>, Memory>
    ensures { IfOk result (λ line. line.items ≡ line_of tag.now command.now) }
{
    let mut writing = tagged(alloc, tag)?;
    word(&mut writing, verb(command))?;
    arguments(&mut writing, command)?;
    finish(writing)
}
