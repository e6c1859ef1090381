//! `Refusal`: every reason why a command or a connection is refused, and its status.
ghost use Rattle.std.specs.Prelude.{◌≡◌};
ghost use Rattle.acap_commands.specs.Statuses.{status_of};

use crate::object_name::ObjectName;
use acap_entries::{Attribute, Boxed, Copying, Dataset, Memory, Path};

/// How a refusal is sent (RFC 2244 section 6.2).
#[derive(Clone, Copy, PartialEq, Eq)]
pub enum Status {
    /// NO: the command failed.
    No,
    /// BAD: the command can't be one.
    Bad,
    /// BYE: the session is closed.
    Bye,
}

/// Why a command, or a connection, is refused (RFC 2244 sections 3.6 and 6.2).
#[derive(Clone, PartialEq, Eq, Drop)]
pub enum Refusal {
    /// No tag begins the command.
    BadTag,
    /// An octet that may not stand there.
    BadToken,
    /// A `{` that begins no literal.
    BadLiteral,
    /// The command would have more than 262,144 octets; the session is closed.
    CommandTooLong,
    /// A part of more than 8,192 octets; the session is closed.
    LineTooLong,
    /// No verb, or none that is known.
    UnknownCommand,
    /// Another shape than the verb's.
    Arguments,
    /// What may stand once stands again.
    NotPermittedTwice,
    /// A string that is no such name.
    BadName,
    /// A string that is no time.
    BadTime,
    /// A string that is no comparator.
    BadComparator,
    /// A key of more than 32 levels.
    TooDeep,
    /// More items than may stand in one list.
    TooMany,
    /// Nobody is logged in.
    NotLoggedIn,
    /// A user is logged in already.
    LoggedIn,
    /// The client gave the login up.
    Cancelled,
    /// The mechanism isn't offered.
    NoMechanism,
    /// The answer to the challenge isn't the user's.
    LoginFailed,
    /// The rights on the object are missing. What is long stands in a box, so that a refusal is short.
    Permission(Boxed<ObjectName>),
    /// The dataset doesn't exist.
    NoExist(Dataset),
    /// The entry was changed later than the client says.
    Modified(Boxed<Path>),
    /// The attribute of the entry may not have this value.
    Invalid(Boxed<Path>, Attribute),
    /// A limit of the store was reached.
    Limit,
    /// There is no later moment.
    ClockEnd,
    /// RANGE where no enumerated context is searched.
    RangeHere,
    /// The time is before what is remembered.
    TooOld,
    /// More matches than the hard limit.
    WayTooMany,
    /// The session has as many contexts as it may.
    TryFreeContext,
    /// The session has no context of this name.
    NoContext,
    /// The context was freed.
    FreedContext,
    /// The context isn't kept up to date.
    NotNotify,
    /// Memory was refused.
    Memory,
    /// The history holds as many events as it may.
    HistoryFull,
    /// There are as many sessions as there may be; this one is closed.
    TooManySessions,
}

impl Refusal {
    /// Whether it is sent as NO, BAD or BYE (RFC 2244 section 6.2). A session that says BYE is closed.
    pub fn status(&self) -> Status
        ensures { result ≡ status_of self.now }
    {
        match self {
            Refusal::CommandTooLong | Refusal::LineTooLong | Refusal::TooManySessions => {
                Status::Bye
            }
            Refusal::BadTag
            | Refusal::BadToken
            | Refusal::BadLiteral
            | Refusal::UnknownCommand
            | Refusal::Arguments
            | Refusal::NotPermittedTwice
            | Refusal::BadName
            | Refusal::BadTime
            | Refusal::BadComparator
            | Refusal::TooDeep
            | Refusal::TooMany
            | Refusal::NotLoggedIn
            | Refusal::LoggedIn
            | Refusal::Cancelled
            | Refusal::RangeHere => Status::Bad,
            _ => Status::No,
        }
    }
}

impl From<Memory> for Refusal {
    ghost use Rattle.acap_commands.specs.declared.refusal.Refusal.TheVariants as refusal;

    ghost from_gives = { λ _ e. e ≡ refusal.Memory };

    fn from(_error: Memory) -> Refusal {
        Refusal::Memory
    }
}

impl Copying for Refusal {
    fn copy(&self) -> Result<Refusal, Memory> {
        self.clone()
    }
}
