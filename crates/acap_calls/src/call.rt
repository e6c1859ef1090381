//! The calls of the program: `pipe`, `script` and `serve`.

use crate::fault::Fault;
use acap_entries::UserName;

/// What a call of the program asks for.
#[derive(Drop)]
pub(crate) enum Call {
    /// Nothing that it knows.
    Nothing,
    /// One session of a user, between standard input and standard output.
    Pipe(UserName),
    /// A script, from standard input, whose sessions are written to standard output.
    Script,
    /// A server, with the settings of that file.
    Serve(String),
    /// It could not be read.
    Refused(Fault),
}
