//! The words of a call, as `clap` reads them.

use crate::beside::beside;
use crate::verbs::{Kind, PROGRAM, VERBS, Verb, Word};
use clap::{Arg, ArgAction, Command, value_parser};
use std::alloc::{AllocError, Global};

/// A word of a call.
fn argument<'a>(alloc: Global, word: &Word) -> Arg<'a> {
    let argument = Arg::new(alloc, word.name).help(word.help);
    match word.kind {
        Kind::Needed => argument.required(true),
        Kind::Optional => argument,
        Kind::Words(least, most) => argument
            .required(true)
            .num_args(least..=most)
            .action(ArgAction::Append),
        Kind::Text(value) => argument.long(word.name).value_name(value),
        Kind::Number(value) => argument
            .long(word.name)
            .value_name(value)
            .value_parser(value_parser!(u32)),
        Kind::Flag => argument.long(word.name).action(ArgAction::SetTrue),
    }
}

/// A command with one word more.
fn with_word<'a>(
    alloc: Global,
    command: Command<'a>,
    word: &Word,
) -> Result<Command<'a>, AllocError> {
    let argument = argument(alloc, word);
    command.arg(argument)
}

/// A command with words.
fn with_words<'a>(
    alloc: Global,
    command: Command<'a>,
    words: &[Word],
) -> Result<Command<'a>, AllocError> {
    let mut command = command;
    for word in words {
        command = with_word(alloc, command, word)?;
    }
    Ok(command)
}

/// A command of the program.
fn subcommand<'a>(alloc: Global, verb: &Verb) -> Result<Command<'a>, AllocError> {
    let command = Command::new(alloc, verb.name).about(verb.about);
    let command = match verb.usage {
        Some(usage) => command.override_usage(usage),
        None => command,
    };
    with_words(alloc, command, verb.words)
}

/// The program with one command more.
fn with_verb<'a>(
    alloc: Global,
    program: Command<'a>,
    verb: &Verb,
) -> Result<Command<'a>, AllocError> {
    let (program, command) = beside(program, subcommand(alloc, verb))?;
    program.subcommand(command)
}

/// The program with all its commands.
fn with_verbs<'a>(alloc: Global, program: Command<'a>) -> Result<Command<'a>, AllocError> {
    let mut program = program;
    for verb in VERBS.as_slice() {
        program = with_verb(alloc, program, verb)?;
    }
    Ok(program)
}

/// The program, with its words and all its commands.
pub(crate) fn program<'a>(alloc: Global) -> Result<Command<'a>, AllocError> {
    let program = Command::new(alloc, "acapc")
        .version("0.1.0")
        .about("A client of ACAP servers (RFC 2244)")
        .subcommand_required(true);
    with_verbs(alloc, with_words(alloc, program, PROGRAM.as_slice())?)
}
