//! Reads the key of a SEARCH (RFC 2244 section 6.4.1).

ghost use Rattle.std.specs.Prelude.{◌≡◌, Ok, Err, MatchResult, if◌then◌else◌};
ghost use Rattle.acap_commands.specs.Wanted.{One};
ghost use Rattle.acap_grammar.specs.Outcome.{Reads};
ghost use Rattle.acap_grammar.specs.Marks.{ends};
ghost use Rattle.acap_grammar.specs.declared.command_fault.CommandFault.TheVariants as fault;
ghost use Rattle.acap_grammar.specs.Keys as keys;

use crate::arguments::{comparator_for_at, name_at, number_at};
use crate::command_fault::CommandFault;
use crate::cursor::Cursor;
use crate::grammar_fault::GrammarFault;
use crate::words::KeyWord;
use acap_commands::{Key, Relation, Test};
use acap_entries::{Attribute, Moment};
use acap_order::Comparator;

// After a relation, its attribute and its comparator: a string, and for EQUAL also NIL.
#[tactic(auto, unfolding(crate::specs::Keys::value_part))]
fn value_part(
    relation: Relation,
    attribute: Attribute,
    comparator: Comparator,
    cursor: &mut Cursor<'_>,
) -> Result<Test, GrammarFault>
    ensures { Reads result cursor.new (keys.value_part relation attribute comparator cursor.old) }
{
    match relation {
        Relation::Equal if cursor.pass_word(b"NIL") => Ok(Test::IsNil(attribute, comparator)),
        _ => {
            let value = cursor.label()?;
            Ok(Test::Meets(relation, attribute, comparator, value))
        }
    }
}

// After a relation: attribute comparator string.
#[tactic(auto, unfolding(crate::specs::Keys::meets_at))]
fn meets_at(relation: Relation, cursor: &mut Cursor<'_>) -> Result<Test, GrammarFault>
    ensures { Reads result cursor.new (keys.meets_at relation cursor.old) }
{
    let attribute = name_at(cursor)?;
    let comparator = comparator_for_at(relation, cursor)?;
    value_part(relation, attribute, comparator, cursor)
}

// After RANGE: number number time.
#[tactic(auto, unfolding(crate::specs::Keys::range_at))]
fn range_at(cursor: &mut Cursor<'_>) -> Result<Test, GrammarFault>
    ensures { Reads result cursor.new (keys.range_at cursor.old) }
{
    let first = number_at(cursor)?;
    let last = number_at(cursor)?;
    let since: Moment = name_at(cursor)?;
    Ok(Test::Range(first, last, since))
}

// What is wrong where one level too many would begin.
fn too_deep(cursor: &Cursor<'_>) -> CommandFault
    ensures { result ≡ (if ends cursor.now then fault.Arguments else fault.TooDeep) }
{
    if cursor.ends() {
        CommandFault::Arguments
    } else {
        CommandFault::TooDeep
    }
}

// One test as a key.
fn one_of(test: Result<Test, GrammarFault>) -> Result<Key, GrammarFault>
    ensures { MatchResult test (λ test. result ≡ Ok (One test)) (λ e. result ≡ Err e) }
{
    Ok(Key::one(test?))
}

// Both keys, where there is a second. Of any type, as letting a key go is slow to prove.
fn both<T: Drop>(first: T, second: Result<T, GrammarFault>) -> Result<(T, T), GrammarFault>
    ensures { MatchResult second (λ second. result ≡ Ok (first, second)) (λ e. result ≡ Err e) }
{
    Ok((first, second?))
}

/// A key of at most `levels` levels.
#[tactic(auto, unfolding(crate::specs::Keys::key_at, crate::specs::Keys::key_behind))]
pub(crate) fn key_at(levels: u32, cursor: &mut Cursor<'_>) -> Result<Key, GrammarFault>
    ensures { Reads result cursor.new (keys.key_at levels cursor.old) }
{
    if levels == 0 {
        return Err(GrammarFault::Fault(too_deep(cursor)));
    }
    let Some(word) = cursor.word() else {
        return Err(GrammarFault::Fault(CommandFault::Arguments));
    };
    let alloc = cursor.alloc();
    match word {
        KeyWord::All => Ok(Key::one(Test::All)),
        KeyWord::And => {
            let first = key_at(levels - 1, cursor)?;
            let (first, second) = both(first, key_at(levels - 1, cursor))?;
            Ok(Key::and(alloc, first, second)?)
        }
        KeyWord::Or => {
            let first = key_at(levels - 1, cursor)?;
            let (first, second) = both(first, key_at(levels - 1, cursor))?;
            Ok(Key::or(alloc, first, second)?)
        }
        KeyWord::Not => {
            let key = key_at(levels - 1, cursor)?;
            Ok(Key::not(alloc, key)?)
        }
        KeyWord::Range => one_of(range_at(cursor)),
        KeyWord::Meets(relation) => one_of(meets_at(relation, cursor)),
    }
}
