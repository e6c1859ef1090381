//! `Command` and `Verb`: what a client asks for.
ghost use Rattle.std.specs.Prelude.{◌≡◌, ◌↔◌, IsTrue};

use crate::lists::{ContextNames, Entries};
use crate::object_name::ObjectName;
use crate::search::Search;
use acap_entries::{Boxed, ContextName, Copying, Dataset, Label, Memory, Moment};

/// The verbs of commands (RFC 2244 section 6).
#[derive(Clone, Copy, PartialEq, Eq)]
pub enum Verb {
    /// NOOP (section 6.2).
    Noop,
    /// LOGOUT (section 6.2).
    Logout,
    /// AUTHENTICATE (section 6.3.1).
    Authenticate,
    /// SEARCH (section 6.4.1).
    Search,
    /// FREECONTEXT (section 6.5).
    FreeContext,
    /// UPDATECONTEXT (section 6.5).
    UpdateContext,
    /// STORE (section 6.6.1).
    Store,
    /// DELETEDSINCE (section 6.6.2).
    DeletedSince,
    /// SETACL (section 6.7).
    SetAcl,
    /// DELETEACL (section 6.7).
    DeleteAcl,
    /// MYRIGHTS (section 6.7).
    MyRights,
    /// LISTRIGHTS (section 6.7).
    ListRights,
}

/// What a client asks for (RFC 2244 section 6).
#[derive(Clone, Drop)]
pub enum Command {
    /// NOOP: nothing is asked for (section 6.2).
    Noop,
    /// LOGOUT: the session is to end (section 6.2).
    Logout,
    /// AUTHENTICATE: a user is to be logged in by this mechanism, as sent (section 6.3.1).
    Authenticate(Label),
    /// STORE: entries are to be changed, all or none (section 6.6.1).
    Store(Entries),
    /// SEARCH: entries are to be found (section 6.4.1). It stands in a box, so that the other commands are short.
    Search(Boxed<Search>),
    /// SETACL: the identifier is to have these rights on the object, both as sent (section 6.7). They stand in boxes too.
    SetAcl(Boxed<ObjectName>, Boxed<Label>, Boxed<Label>),
    /// DELETEACL: the identifier is to be taken off the object's list, or the whole list to be removed (section 6.7).
    DeleteAcl(Boxed<ObjectName>, Option<Boxed<Label>>),
    /// MYRIGHTS: the rights are asked for that the user has on the object (section 6.7).
    MyRights(Boxed<ObjectName>),
    /// LISTRIGHTS: the rights are asked for that the identifier may have on the object (section 6.7).
    ListRights(Boxed<ObjectName>, Label),
    /// DELETEDSINCE: the entries of the dataset are asked for that were deleted later than the time (section 6.6.2).
    DeletedSince(Dataset, Moment),
    /// FREECONTEXT: the context is to be given up (section 6.5).
    FreeContext(ContextName),
    /// UPDATECONTEXT: the pending notices of the contexts are asked for (section 6.5).
    UpdateContext(ContextNames),
}

impl Command {
    /// Whether two of them are equal. Takes no memory.
    pub fn equals(&self, other: &Command) -> bool
        ensures { IsTrue result ↔ (self.now ≡ other.now) }
    {
        match (self, other) {
            (Command::Noop, Command::Noop) | (Command::Logout, Command::Logout) => true,
            (Command::Authenticate(one), Command::Authenticate(two)) => one == two,
            (Command::Store(one), Command::Store(two)) => one == two,
            (Command::Search(one), Command::Search(two)) => one.get().equals(two.get()),
            (Command::SetAcl(one, name, rights), Command::SetAcl(two, other_name, letters)) => {
                one == two && name == other_name && rights == letters
            }
            (Command::DeleteAcl(one, name), Command::DeleteAcl(two, other_name)) => {
                one == two && name == other_name
            }
            (Command::MyRights(one), Command::MyRights(two)) => one == two,
            (Command::ListRights(one, name), Command::ListRights(two, other_name)) => {
                one == two && name == other_name
            }
            (Command::DeletedSince(one, since), Command::DeletedSince(two, other_since)) => {
                one == two && since == other_since
            }
            (Command::FreeContext(one), Command::FreeContext(two)) => one == two,
            (Command::UpdateContext(one), Command::UpdateContext(two)) => one == two,
            _ => false,
        }
    }
}

impl Copying for Command {
    fn copy(&self) -> Result<Command, Memory> {
        self.clone()
    }
}
