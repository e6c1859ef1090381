//! `parse`: reads the tokens of a line as a command.

ghost use Rattle.std.specs.Prelude.{◌≡◌, ◌↔◌, Ok, true};
ghost use Rattle.acap_commands.specs.declared.command.Command.TheVariants as commands;
ghost use Rattle.acap_grammar.specs.Outcome.{Gives, Reads};
ghost use Rattle.acap_grammar.specs.Arguments.{object_at as object_in};
ghost use Rattle.acap_grammar.specs.Marks.{string_at as string_in};
ghost use Rattle.acap_grammar.specs.Grammar as grammar;

use crate::arguments::{name_at, object_at};
use crate::command_fault::CommandFault;
use crate::cursor::Cursor;
use crate::grammar_fault::GrammarFault;
use crate::limits::CONTEXT_NAMES;
use crate::searching::search_at;
use crate::several::{Gather, Series, some_of};
use crate::storing::entries_at;
use acap_commands::{Command, ContextNames, ObjectName, Verb};
use acap_entries::{Boxed, ContextName, Dataset, Label, Moment};
use acap_lexer::Tokens;
use std::alloc::Global;

// An object, in a box.
fn boxed_object_at(cursor: &mut Cursor<'_>) -> Result<Boxed<ObjectName>, GrammarFault>
    ensures { Reads result cursor.new (object_in cursor.old) }
{
    let object = object_at(cursor)?;
    Ok(Boxed::new(cursor.alloc(), object)?)
}

// A string, in a box.
fn boxed_label(cursor: &mut Cursor<'_>) -> Result<Boxed<Label>, GrammarFault>
    ensures { Reads result cursor.new (string_in cursor.old) }
{
    let text = cursor.label()?;
    Ok(Boxed::new(cursor.alloc(), text)?)
}

// After SETACL: object identifier rights.
#[tactic(auto, unfolding(crate::specs::Grammar::set_acl_at))]
fn set_acl_at(cursor: &mut Cursor<'_>) -> Result<Command, GrammarFault>
    ensures { Reads result cursor.new (grammar.set_acl_at cursor.old) }
{
    let object = boxed_object_at(cursor)?;
    let identifier = boxed_label(cursor)?;
    let rights = boxed_label(cursor)?;
    Ok(Command::SetAcl(object, identifier, rights))
}

// After DELETEACL and its object: [identifier].
fn identifier_part(cursor: &mut Cursor<'_>) -> Result<Option<Boxed<Label>>, GrammarFault>
    ensures { Reads result cursor.new (grammar.identifier_part cursor.old) }
{
    if cursor.ends() {
        return Ok(None);
    }
    Ok(Some(boxed_label(cursor)?))
}

// After DELETEACL: object [identifier].
#[tactic(auto, unfolding(crate::specs::Grammar::delete_acl_at))]
fn delete_acl_at(cursor: &mut Cursor<'_>) -> Result<Command, GrammarFault>
    ensures { Reads result cursor.new (grammar.delete_acl_at cursor.old) }
{
    let object = boxed_object_at(cursor)?;
    let identifier = identifier_part(cursor)?;
    Ok(Command::DeleteAcl(object, identifier))
}

// After LISTRIGHTS: object identifier.
#[tactic(auto, unfolding(crate::specs::Grammar::list_rights_at))]
fn list_rights_at(cursor: &mut Cursor<'_>) -> Result<Command, GrammarFault>
    ensures { Reads result cursor.new (grammar.list_rights_at cursor.old) }
{
    let object = boxed_object_at(cursor)?;
    let identifier = cursor.label()?;
    Ok(Command::ListRights(object, identifier))
}

// After DELETEDSINCE: dataset time.
#[tactic(auto, unfolding(crate::specs::Grammar::deleted_since_at))]
fn deleted_since_at(cursor: &mut Cursor<'_>) -> Result<Command, GrammarFault>
    ensures { Reads result cursor.new (grammar.deleted_since_at cursor.old) }
{
    let dataset: Dataset = name_at(cursor)?;
    let since: Moment = name_at(cursor)?;
    Ok(Command::DeletedSince(dataset, since))
}

impl Gather for ContextNames {
    ghost item = { grammar.context_at };

    #[tactic(auto, unfolding(crate::specs::Grammar::context_at))]
    fn gather(self, cursor: &mut Cursor<'_>) -> Result<ContextNames, GrammarFault> {
        let name: ContextName = name_at(cursor)?;
        let mut all = self;
        all.push(name)?;
        Ok(all)
    }
}

#[tactic(auto, unfolding(crate::specs::Grammar::contexts_at))]
fn contexts_at(cursor: &mut Cursor<'_>) -> Result<ContextNames, GrammarFault>
    ensures { Reads result cursor.new (grammar.contexts_at cursor.old) }
{
    let none = ContextNames::new(cursor.alloc());
    some_of(Series::Strings, none, CONTEXT_NAMES, cursor)
}

// What stands after a verb.
#[tactic(auto, unfolding(crate::specs::Grammar::arguments_at))]
fn arguments_at(verb: Verb, cursor: &mut Cursor<'_>) -> Result<Command, GrammarFault>
    ensures { Reads result cursor.new (grammar.arguments_at verb cursor.old) }
{
    match verb {
        Verb::Noop => Ok(Command::Noop),
        Verb::Logout => Ok(Command::Logout),
        Verb::Authenticate => Ok(Command::Authenticate(cursor.label()?)),
        Verb::Store => Ok(Command::Store(entries_at(cursor)?)),
        Verb::Search => {
            let search = search_at(cursor)?;
            Ok(Command::Search(Boxed::new(cursor.alloc(), search)?))
        }
        Verb::SetAcl => set_acl_at(cursor),
        Verb::DeleteAcl => delete_acl_at(cursor),
        Verb::MyRights => Ok(Command::MyRights(boxed_object_at(cursor)?)),
        Verb::ListRights => list_rights_at(cursor),
        Verb::DeletedSince => deleted_since_at(cursor),
        Verb::FreeContext => Ok(Command::FreeContext(name_at(cursor)?)),
        Verb::UpdateContext => Ok(Command::UpdateContext(contexts_at(cursor)?)),
    }
}

/// Whether the tokens of a line stand for a NOOP (RFC 2244 section 6.2.1). Takes no memory.
pub fn is_noop(alloc: Global, tokens: &Tokens) -> bool
    ensures { (result ≡ true) ↔ (grammar.command_of tokens.now ≡ Ok commands.Noop) }
{
    let mut cursor = Cursor::new(alloc, tokens, 1);
    if cursor.pass_word(b"NOOP") {
        return cursor.ends();
    }
    false
}

/// The command that the tokens of a line stand for, of which the first is its tag, or the first fault from the
/// left (RFC 2244 sections 2.2 and 6): `UnknownCommand` for a verb that isn't known, or none; `Arguments`,
/// `NotPermittedTwice`, `BadName`, `BadTime`, `BadComparator`, `TooDeep` and `TooMany` for what stands after it;
/// `Memory` where memory was refused.
#[tactic(auto, unfolding(crate::specs::Grammar::command_of))]
pub fn parse(alloc: Global, tokens: &Tokens) -> Result<Command, GrammarFault>
    ensures { Gives result (grammar.command_of tokens.now) }
{
    let mut cursor = Cursor::new(alloc, tokens, 1);
    let Some(verb) = cursor.word() else {
        return Err(GrammarFault::Fault(CommandFault::UnknownCommand));
    };
    let command = arguments_at(verb, &mut cursor)?;
    if cursor.ends() {
        Ok(command)
    } else {
        Err(GrammarFault::Fault(CommandFault::Arguments))
    }
}
