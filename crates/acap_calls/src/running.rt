//! Makes a call of the program, and gives its exit status.

ghost use Rattle.acap_calls.specs.Calls.{Calls, DoesServe, EndsIn, fault_in, words_of};
ghost use Rattle.acap_calls.specs.Faults.{of_pipe, of_script};
ghost use Rattle.acap_calls.specs.Printing.{reader_of, streams, writer_of};

use crate::call::Call;
use crate::calls::read_call;
use crate::fault::Fault;
use crate::faults::{refuse, report};
use acap_entries::Steps;
use acap_serving::ServeFault;
use acap_session::{Input, Output, PipeFault, ScriptFault, WriteFailed, run_pipe, run_script};
use std::alloc::Global;
use std::io::ErrorKind;
use std::sync::ledger::Ledger;

/// The status of a normal end.
const DONE: u8 = 0;

// How a session of a user ended.
fn end_pipe<E: Output>(done: Result<(), PipeFault>, errors: &mut E) -> Result<u8, WriteFailed>
    ensures { EndsIn E.contents E.told (fault_in of_pipe done) errors.old errors.new result }
{
    match done {
        Ok(()) => Ok(DONE),
        Err(fault) => report(Fault::from(fault), errors),
    }
}

// How a script ended.
fn end_script<E: Output>(done: Result<(), ScriptFault>, errors: &mut E) -> Result<u8, WriteFailed>
    ensures { EndsIn E.contents E.told (fault_in of_script done) errors.old errors.new result }
{
    match done {
        Ok(()) => Ok(DONE),
        Err(fault) => report(Fault::from(fault), errors),
    }
}

// A server.
fn serve<V, E: Output>(serve: V, file: String, errors: &mut E) -> Result<u8, WriteFailed>
where
    V: FnOnce(String) -> Result<(), ServeFault>,
    requires { V.pre serve file }
    ensures { DoesServe (V.post serve) file (writer_of E.contents E.told errors.old)
        (writer_of E.contents E.told errors.new) result }
{
    match serve(file) {
        Ok(()) => Ok(DONE),
        Err(fault) => report(Fault::from(fault), errors),
    }
}

/// Does what the words after the program's name ask for, and gives the status with which the call ends: 0, or 1
/// where a fault is reported, or 2 where the words are no call, or can't be read. Fails only where standard error
/// fails, when all else was done. A server is what is lent: it is called with the name of its settings file. Each
/// entry that a search looks at counts as a step.
pub fn run_call<R: Input, W: Output, E: Output, L: Ledger, V>(
    alloc: Global,
    words: &Result<Vec<String>, ErrorKind>,
    reader: &mut R,
    writer: &mut W,
    errors: &mut E,
    steps: &mut Steps<L>,
    server: V,
) -> Result<u8, WriteFailed>
where
    V: FnOnce(String) -> Result<(), ServeFault>,
    requires { (file : _) → V.pre server file }
    ensures { Calls (V.post server) (words_of words.now)
        (streams (reader_of R.remaining R.told reader.old) (writer_of W.contents W.told writer.old)
        (writer_of E.contents E.told errors.old))
        (streams (reader_of R.remaining R.told reader.new) (writer_of W.contents W.told writer.new)
        (writer_of E.contents E.told errors.new))
        result }
{
    match read_call(alloc, words) {
        Call::Nothing => refuse(errors),
        Call::Refused(fault) => report(fault, errors),
        Call::Pipe(user) => end_pipe(run_pipe(alloc, reader, writer, user, steps), errors),
        Call::Script => end_script(run_script(alloc, reader, writer, steps), errors),
        Call::Serve(file) => serve(server, file, errors),
    }
}
