//! Reads the arguments of the program as a call.

ghost use Rattle.std.specs.Prelude.{[], ◌∷◌, map, codes, string_bytes};
ghost use Rattle.acap_calls.specs.Calls.{IsCall, IsCallOf, words_of};

use crate::call::Call;
use crate::fault::Fault;
use acap_entries::{NameFault, UserName};
use std::alloc::Global;
use std::io::ErrorKind;

// What the word after `pipe` asks for: a session of the user that it names.
fn pipe_of(alloc: Global, user: &[u8]) -> Call
    ensures { IsCall (codes "pipe" ∷ user.now ∷ []) result }
{
    match UserName::read(alloc, user) {
        Ok(user) => Call::Pipe(user),
        Err(NameFault::BadName) => Call::Nothing,
        Err(NameFault::Memory) => Call::Refused(Fault::Memory),
    }
}

// What the word after `serve` asks for: a server with the settings of the file that it names.
fn serve_of(alloc: Global, file: &str) -> Call
    ensures { IsCall (codes "serve" ∷ file.now ∷ []) result }
{
    match String::from_str(alloc, file) {
        Ok(file) => Call::Serve(file),
        Err(_) => Call::Refused(Fault::Memory),
    }
}

// What two words ask for.
fn call_of(alloc: Global, verb: &[u8], word: &str) -> Call
    ensures { IsCall (verb.now ∷ word.now ∷ []) result }
{
    if verb == b"pipe".as_slice() {
        pipe_of(alloc, word.as_bytes())
    } else if verb == b"serve".as_slice() {
        serve_of(alloc, word)
    } else {
        Call::Nothing
    }
}

// What a word alone asks for.
fn call_alone(verb: &[u8]) -> Call
    ensures { IsCall (verb.now ∷ []) result }
{
    if verb == b"script".as_slice() {
        Call::Script
    } else {
        Call::Nothing
    }
}

// What the words after the program's name ask for.
fn call_by(alloc: Global, words: &[String]) -> Call
    ensures { IsCall (map (λ word. string_bytes word) words.now) result }
{
    let Some((verb, behind)) = words.split_first() else {
        return Call::Nothing;
    };
    let Some((word, more)) = behind.split_first() else {
        return call_alone(verb.as_bytes());
    };
    match more.first() {
        Some(_) => Call::Nothing,
        None => call_of(alloc, verb.as_bytes(), word.as_str()),
    }
}

/// What the words after the program's name ask for, or the kind of fault by which they can't be read.
pub(crate) fn read_call(alloc: Global, words: &Result<Vec<String>, ErrorKind>) -> Call
    ensures { IsCallOf (words_of words.now) result }
{
    match words {
        Ok(words) => call_by(alloc, words.as_slice()),
        Err(ErrorKind::OutOfMemory) => Call::Refused(Fault::Memory),
        Err(_) => Call::Nothing,
    }
}
