//! The arguments of commands: names, numbers, times, comparators and objects (RFC 2244 sections 2.2, 3, 6 and 8).

ghost use Rattle.std.specs.Prelude.{◌≡◌, ◌++◌, ℕ, List, Result, IfOk, MatchResult};
ghost use Rattle.acap_grammar.specs.declared.command_fault.CommandFault.{CommandFault as FaultOf};
ghost use Rattle.acap_grammar.specs.Outcome.{Gives, Reads};
ghost use Rattle.std.specs.List.{list_all};
ghost use Rattle.std.specs.Char.{is_ascii_digit};
ghost use Rattle.acap_entries.specs.Names.{is_path as is_path_text};
ghost use Rattle.acap_grammar.specs.Arguments as argument;
ghost use Rattle.acap_grammar.specs.Unnamed.{name_error};

use crate::command_fault::CommandFault;
use crate::cursor::{Cursor, Piece};
use crate::grammar_fault::GrammarFault;
use acap_commands::{ObjectName, Relation, Target};
use acap_entries::{
    Attribute, ContextName, Dataset, EntryName, Memory, Moment, NameFault, Path, begins_with,
    is_path, read_time,
};
use acap_lexer::{Kind, count_of};
use acap_order::Comparator;
use std::alloc::Global;

// ---- strings that are read as something

/// What a string is read as.
pub(crate) trait Named: Drop + Sized {
    ghost named: { List ℕ → Result Self FaultOf };

    /// What a text is read as.
    fn of_text(alloc: Global, text: &[u8]) -> Result<Self, GrammarFault>
        ensures { Gives result (named text.now) };
}

/// What the string that stands first is read as.
#[tactic(auto, unfolding(crate::specs::Arguments::named_at))]
pub(crate) fn name_at<N: Named>(cursor: &mut Cursor<'_>) -> Result<N, GrammarFault>
    ensures { Reads result cursor.new (argument.named_at N.named cursor.old) }
{
    let text = cursor.string()?;
    N::of_text(cursor.alloc(), text)
}

// A name, or why it wasn't read.
fn accept_name<T: Drop>(read: Result<T, NameFault>) -> Result<T, GrammarFault>
    ensures { MatchResult read (λ name. result ≡ Ok name) (λ fault. result ≡ Err (name_error fault)) }
{
    match read {
        Ok(name) => Ok(name),
        Err(NameFault::BadName) => Err(GrammarFault::Fault(CommandFault::BadName)),
        Err(NameFault::Memory) => Err(GrammarFault::Memory),
    }
}

impl Named for Path {
    ghost named = { argument.path_named };

    #[tactic(auto, unfolding(crate::specs::Arguments::path_named))]
    fn of_text(alloc: Global, text: &[u8]) -> Result<Path, GrammarFault> {
        accept_name(Path::read(alloc, text))
    }
}

impl Named for Attribute {
    ghost named = { argument.attribute_named };

    #[tactic(auto, unfolding(crate::specs::Arguments::attribute_named))]
    fn of_text(alloc: Global, text: &[u8]) -> Result<Attribute, GrammarFault> {
        accept_name(Attribute::read(alloc, text))
    }
}

impl Named for Dataset {
    ghost named = { argument.dataset_named };

    #[tactic(auto, unfolding(crate::specs::Arguments::dataset_named))]
    fn of_text(alloc: Global, text: &[u8]) -> Result<Dataset, GrammarFault> {
        accept_name(Dataset::read(alloc, text))
    }
}

impl Named for ContextName {
    ghost named = { argument.context_named };

    #[tactic(auto, unfolding(crate::specs::Arguments::context_named))]
    fn of_text(alloc: Global, text: &[u8]) -> Result<ContextName, GrammarFault> {
        accept_name(ContextName::read(alloc, text))
    }
}

impl Named for Target {
    ghost named = { argument.target_named };

    #[tactic(auto, unfolding(crate::specs::Arguments::target_named))]
    fn of_text(alloc: Global, text: &[u8]) -> Result<Target, GrammarFault> {
        if begins_with(text, b'/') {
            Ok(Target::Dataset(Dataset::of_text(alloc, text)?))
        } else {
            Ok(Target::Context(ContextName::of_text(alloc, text)?))
        }
    }
}

impl Named for Moment {
    ghost named = { argument.time_named };

    fn of_text(_alloc: Global, text: &[u8]) -> Result<Moment, GrammarFault> {
        match read_time(text) {
            Some(moment) => Ok(moment),
            None => Err(GrammarFault::Fault(CommandFault::BadTime)),
        }
    }
}

impl Named for Comparator {
    ghost named = { argument.comparator_named };

    fn of_text(_alloc: Global, text: &[u8]) -> Result<Comparator, GrammarFault> {
        match Comparator::read(text) {
            Some(comparator) => Ok(comparator),
            None => Err(GrammarFault::Fault(CommandFault::BadComparator)),
        }
    }
}

// ---- numbers

fn are_digits(text: &[u8]) -> bool
    ensures { result ≡ list_all is_ascii_digit text.now }
{
    text.iter().all(|octet| octet.is_ascii_digit())
}

// The number that a text of 1 to 10 digits writes, up to 4294967295.
fn number_in(text: &[u8]) -> Option<u32>
    ensures { result ≡ argument.number_in text.now }
{
    if are_digits(text) {
        count_of(text)
    } else {
        None
    }
}

/// A number.
#[tactic(auto, unfolding(crate::specs::Arguments::number_at))]
pub(crate) fn number_at(cursor: &mut Cursor<'_>) -> Result<u32, GrammarFault>
    ensures { Reads result cursor.new (argument.number_at cursor.old) }
{
    let Some(
        Piece {
            kind: Kind::Word,
            value,
            ..
        },
    ) = cursor.first()
    else {
        return Err(GrammarFault::Fault(CommandFault::Arguments));
    };
    cursor.pass();
    match number_in(value) {
        Some(number) => Ok(number),
        None => Err(GrammarFault::Fault(CommandFault::Arguments)),
    }
}

// ---- comparators for a relation

// Numbers have no fronts and no parts.
fn is_of_texts(relation: Relation) -> bool
    ensures { result ≡ argument.is_of_texts relation }
{
    matches!(relation, Relation::Begins | Relation::Contains)
}

#[tactic(auto, unfolding(crate::specs::Arguments::comparator_for))]
fn comparator_for(
    alloc: Global,
    relation: Relation,
    text: &[u8],
) -> Result<Comparator, GrammarFault>
    ensures { Gives result (argument.comparator_for relation text.now) }
{
    let comparator = Comparator::of_text(alloc, text)?;
    if is_of_texts(relation) && comparator.is_numeric() {
        return Err(GrammarFault::Fault(CommandFault::BadComparator));
    }
    Ok(comparator)
}

/// A comparator for a relation.
#[tactic(auto, unfolding(crate::specs::Arguments::named_at))]
pub(crate) fn comparator_for_at(
    relation: Relation,
    cursor: &mut Cursor<'_>,
) -> Result<Comparator, GrammarFault>
    ensures { Reads result cursor.new (argument.named_at (argument.comparator_for relation) cursor.old) }
{
    let text = cursor.string()?;
    comparator_for(cursor.alloc(), relation, text)
}

// ---- objects

// Whether a dataset and the name of an entry are together a path as it may be sent.
fn is_path_of(alloc: Global, dataset: &Dataset, name: &[u8]) -> Result<bool, Memory>
    ensures { IfOk result (λ good. good ≡ is_path_text (dataset.now ++ name.now)) }
{
    let mut whole = Vec::from_slice(alloc, dataset.as_slice())?;
    whole.extend_from_slice(name)?;
    Ok(is_path(&whole))
}

#[tactic(auto, unfolding(crate::specs::Arguments::entry_named))]
fn read_entry_name(alloc: Global, dataset: &Dataset, text: &[u8]) -> Result<EntryName, GrammarFault>
    ensures { Gives result (argument.entry_named dataset.now text.now) }
{
    let name = accept_name(EntryName::read(alloc, text))?;
    if !is_path_of(alloc, dataset, text)? {
        return Err(GrammarFault::Fault(CommandFault::BadName));
    }
    Ok(name)
}

#[tactic(auto, unfolding(crate::specs::Arguments::named_at))]
fn entry_name_at(dataset: &Dataset, cursor: &mut Cursor<'_>) -> Result<EntryName, GrammarFault>
    ensures { Reads result cursor.new (argument.named_at (argument.entry_named dataset.now) cursor.old) }
{
    let text = cursor.string()?;
    read_entry_name(cursor.alloc(), dataset, text)
}

// An object after its attribute: the name of an entry, where it is there.
#[tactic(auto, unfolding(crate::specs::Arguments::entry_part))]
fn entry_part(
    dataset: Dataset,
    attribute: Attribute,
    cursor: &mut Cursor<'_>,
) -> Result<ObjectName, GrammarFault>
    ensures { Reads result cursor.new (argument.entry_part dataset attribute cursor.old) }
{
    if cursor.closes() {
        return Ok(ObjectName::attribute(cursor.alloc(), dataset, attribute)?);
    }
    let name = entry_name_at(&dataset, cursor)?;
    Ok(ObjectName::entry(cursor.alloc(), dataset, attribute, name)?)
}

// An object after its dataset: an attribute, and the name of an entry after it, where they are there.
#[tactic(auto, unfolding(crate::specs::Arguments::attribute_part))]
fn attribute_part(dataset: Dataset, cursor: &mut Cursor<'_>) -> Result<ObjectName, GrammarFault>
    ensures { Reads result cursor.new (argument.attribute_part dataset cursor.old) }
{
    if cursor.closes() {
        return Ok(ObjectName::Dataset { dataset });
    }
    let attribute = name_at(cursor)?;
    entry_part(dataset, attribute, cursor)
}

/// An object: `(` dataset [attribute [entry name]] `)` (RFC 2244 section 3.5).
#[tactic(auto, unfolding(crate::specs::Arguments::object_at))]
pub(crate) fn object_at(cursor: &mut Cursor<'_>) -> Result<ObjectName, GrammarFault>
    ensures { Reads result cursor.new (argument.object_at cursor.old) }
{
    cursor.pass_open()?;
    let dataset = name_at(cursor)?;
    let object = attribute_part(dataset, cursor)?;
    cursor.closed(object)
}
