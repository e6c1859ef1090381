//! Reads a SEARCH (RFC 2244 section 6.4.1).

ghost use Rattle.std.specs.Prelude.{◌≡◌, Some, Ok, Err, IfOk, MatchResult};
ghost use Rattle.acap_grammar.specs.Outcome.{Gives, Reads, ReadsBy};
ghost use Rattle.acap_grammar.specs.Searching as searching;

use crate::arguments::{Named, name_at, number_at};
use crate::command_fault::CommandFault;
use crate::cursor::Cursor;
use crate::grammar_fault::GrammarFault;
use crate::keys::key_at;
use crate::limits::{KEY_LEVELS, METADATA_ITEMS, RETURN_ITEMS, SORT_ITEMS};
use crate::several::{Gather, Series, read_enclosed, several};
use crate::storing::once;
use crate::words::{METADATA, SearchWord, find_text};
use acap_commands::{
    Limit, MakeContext, Metadata, MetadataList, ReturnItem, ReturnName, Returns, Search,
    SearchModifiers, SortItem, SortItems, Target,
};
use acap_entries::{Attribute, ContextName, Label, Memory, ends_with, is_attribute};
use acap_order::Comparator;
use std::alloc::Global;

// ---- RETURN

impl Named for ReturnName {
    ghost named = { searching.return_named };

    #[tactic(auto, unfolding(crate::specs::Searching::return_named))]
    fn of_text(alloc: Global, text: &[u8]) -> Result<ReturnName, GrammarFault> {
        if !ends_with(text, b'*') {
            return Ok(ReturnName::Named(Attribute::of_text(alloc, text)?));
        }
        let front = &text[..text.len() - 1];
        if !front.is_empty() && !is_attribute(front) {
            return Err(GrammarFault::Fault(CommandFault::BadName));
        }
        Ok(ReturnName::Beginning(Label::from_slice(alloc, front)?))
    }
}

impl Named for Metadata {
    ghost named = { searching.metadata_named };

    fn of_text(_alloc: Global, text: &[u8]) -> Result<Metadata, GrammarFault> {
        match find_text(&METADATA, text) {
            Some(metadata) => Ok(metadata),
            None => Err(GrammarFault::Fault(CommandFault::Arguments)),
        }
    }
}

impl Gather for MetadataList {
    ghost item = { searching.metadata_at };

    #[tactic(auto, unfolding(crate::specs::Searching::metadata_at))]
    fn gather(self, cursor: &mut Cursor<'_>) -> Result<MetadataList, GrammarFault> {
        let metadata: Metadata = name_at(cursor)?;
        let mut all = self;
        all.push(metadata)?;
        Ok(all)
    }
}

// What is printed where no metadata is asked for.
fn default_metadata(alloc: Global, name: &ReturnName) -> Result<MetadataList, Memory>
    ensures { IfOk result (λ made. made ≡ searching.default_metadata name.now) }
{
    let mut all = MetadataList::new(alloc);
    if let ReturnName::Beginning(_) = name {
        all.push(Metadata::Attribute)?;
    }
    all.push(Metadata::Value)?;
    Ok(all)
}

#[tactic(auto, unfolding(crate::specs::Searching::metadata_part))]
fn metadata_part(name: &ReturnName, cursor: &mut Cursor<'_>) -> Result<MetadataList, GrammarFault>
    ensures { Reads result cursor.new (searching.metadata_part name.now cursor.old) }
{
    if cursor.opens() {
        return read_enclosed(MetadataList::new(cursor.alloc()), METADATA_ITEMS, cursor);
    }
    Ok(default_metadata(cursor.alloc(), name)?)
}

impl Gather for Returns {
    ghost item = { searching.return_at };

    #[tactic(auto, unfolding(crate::specs::Searching::return_at))]
    fn gather(self, cursor: &mut Cursor<'_>) -> Result<Returns, GrammarFault> {
        let name: ReturnName = name_at(cursor)?;
        let metadata = metadata_part(&name, cursor)?;
        let mut all = self;
        all.push(ReturnItem { name, metadata })?;
        Ok(all)
    }
}

#[tactic(auto, unfolding(crate::specs::Searching::returns_at))]
fn returns_at(cursor: &mut Cursor<'_>) -> Result<Returns, GrammarFault>
    ensures { Reads result cursor.new (searching.returns_at cursor.old) }
{
    cursor.pass_open()?;
    let none = Returns::new(cursor.alloc());
    let items = several(Series::Enclosed, none, RETURN_ITEMS, cursor)?;
    cursor.closed(items)
}

// ---- SORT

impl Gather for SortItems {
    ghost item = { searching.sort_at };

    #[tactic(auto, unfolding(crate::specs::Searching::sort_at))]
    fn gather(self, cursor: &mut Cursor<'_>) -> Result<SortItems, GrammarFault> {
        let attribute: Attribute = name_at(cursor)?;
        let comparator: Comparator = name_at(cursor)?;
        let mut all = self;
        all.push(SortItem {
            attribute,
            comparator,
        })?;
        Ok(all)
    }
}

#[tactic(auto, unfolding(crate::specs::Searching::sorts_at))]
fn sorts_at(cursor: &mut Cursor<'_>) -> Result<SortItems, GrammarFault>
    ensures { Reads result cursor.new (searching.sorts_at cursor.old) }
{
    read_enclosed(SortItems::new(cursor.alloc()), SORT_ITEMS, cursor)
}

// ---- the other modifiers

#[tactic(auto, unfolding(crate::specs::Searching::limit_at))]
fn limit_at(cursor: &mut Cursor<'_>) -> Result<Limit, GrammarFault>
    ensures { Reads result cursor.new (searching.limit_at cursor.old) }
{
    let over = number_at(cursor)?;
    let most = number_at(cursor)?;
    Ok(Limit { over, most })
}

// Passes that word, if it stands first, and says whether it does.
#[tactic(auto, unfolding(crate::specs::Searching::flag_at))]
fn flag_at(word: &[u8], cursor: &mut Cursor<'_>) -> bool
    ensures { (result, cursor.new) ≡ searching.flag_at word.now cursor.old }
{
    cursor.pass_word(word)
}

#[tactic(auto, unfolding(crate::specs::Searching::make_context_at))]
fn make_context_at(cursor: &mut Cursor<'_>) -> Result<MakeContext, GrammarFault>
    ensures { Reads result cursor.new (searching.make_context_at cursor.old) }
{
    let enumerate = flag_at(b"ENUMERATE", cursor);
    let notify = flag_at(b"NOTIFY", cursor);
    let name: ContextName = name_at(cursor)?;
    Ok(MakeContext {
        enumerate,
        notify,
        name,
    })
}

// ---- all modifiers

/// What is looked through, and the modifiers read so far.
#[derive(Drop)]
pub(crate) struct Scope {
    pub(crate) target: Target,
    pub(crate) modifiers: SearchModifiers,
}

// Puts what is read in its place. Of any type, as letting a large one go is slow to prove.
fn put<T: Drop>(place: &mut Option<T>, read: Result<T, GrammarFault>) -> Result<(), GrammarFault>
    ensures { MatchResult read (λ x. (result ≡ Ok tt) × (place.new ≡ Some x)) (λ e. result ≡ Err e) }
{
    *place = Some(read?);
    Ok(())
}

// After the word of a modifier.
#[tactic(auto, unfolding(crate::specs::Searching::behind_modifier))]
fn modify(
    modifiers: &mut SearchModifiers,
    word: SearchWord,
    cursor: &mut Cursor<'_>,
) -> Result<(), GrammarFault>
    ensures { ReadsBy (λ _ left. (modifiers.new, left))
        result cursor.new (searching.behind_modifier modifiers.old word cursor.old) }
{
    match word {
        SearchWord::Depth => put(&mut modifiers.depth, number_at(cursor)),
        SearchWord::HardLimit => put(&mut modifiers.hard_limit, number_at(cursor)),
        SearchWord::Limit => put(&mut modifiers.limit, limit_at(cursor)),
        SearchWord::MakeContext => put(&mut modifiers.make_context, make_context_at(cursor)),
        SearchWord::NoInherit => {
            modifiers.no_inherit = true;
            Ok(())
        }
        SearchWord::Return => put(&mut modifiers.returns, returns_at(cursor)),
        SearchWord::Sort => put(&mut modifiers.sort, sorts_at(cursor)),
    }
}

fn is_of_datasets(word: SearchWord) -> bool
    ensures { result ≡ searching.is_of_datasets word }
{
    matches!(
        word,
        SearchWord::Depth | SearchWord::MakeContext | SearchWord::NoInherit
    )
}

fn is_context(target: &Target) -> bool
    ensures { result ≡ searching.is_context target.now }
{
    matches!(target, Target::Context(_))
}

// Whether that modifier stands among those before.
fn has_modifier(modifiers: &SearchModifiers, word: SearchWord) -> bool
    ensures { result ≡ searching.has_modifier modifiers.now word }
{
    match word {
        SearchWord::Depth => modifiers.depth.is_some(),
        SearchWord::HardLimit => modifiers.hard_limit.is_some(),
        SearchWord::Limit => modifiers.limit.is_some(),
        SearchWord::MakeContext => modifiers.make_context.is_some(),
        SearchWord::NoInherit => modifiers.no_inherit,
        SearchWord::Return => modifiers.returns.is_some(),
        SearchWord::Sort => modifiers.sort.is_some(),
    }
}

impl Scope {
    // A modifier that may stand over what is looked through, and didn't stand before.
    fn may_modify(&self, word: SearchWord) -> Result<(), GrammarFault>
        ensures { Gives result (searching.may_modify self.now word) }
    {
        if is_context(&self.target) && is_of_datasets(word) {
            return Err(GrammarFault::Fault(CommandFault::Arguments));
        }
        once(has_modifier(&self.modifiers, word))
    }

    // One modifier more.
    #[tactic(auto, unfolding(crate::specs::Searching::modifier_at))]
    fn modify(&mut self, cursor: &mut Cursor<'_>) -> Result<(), GrammarFault>
        ensures { ReadsBy (λ _ left. (self.new, left))
            result cursor.new (searching.modifier_at self.old cursor.old) }
    {
        let Some(word) = cursor.word() else {
            return Err(GrammarFault::Fault(CommandFault::Arguments));
        };
        self.may_modify(word)?;
        modify(&mut self.modifiers, word, cursor)
    }
}

impl Gather for Scope {
    ghost item = { searching.modifier_at };

    fn gather(self, cursor: &mut Cursor<'_>) -> Result<Scope, GrammarFault> {
        let mut scope = self;
        scope.modify(cursor)?;
        Ok(scope)
    }
}

#[tactic(auto, unfolding(crate::specs::Searching::modifiers_at))]
fn modifiers_at(target: Target, cursor: &mut Cursor<'_>) -> Result<Scope, GrammarFault>
    ensures { Reads result cursor.new (searching.modifiers_at target cursor.old) }
{
    let scope = Scope {
        target,
        modifiers: SearchModifiers::none(),
    };
    several(Series::SearchModifiers, scope, 8, cursor)
}

/// What stands after SEARCH.
#[tactic(auto, unfolding(crate::specs::Searching::search_at))]
pub(crate) fn search_at(cursor: &mut Cursor<'_>) -> Result<Search, GrammarFault>
    ensures { Reads result cursor.new (searching.search_at cursor.old) }
{
    let target: Target = name_at(cursor)?;
    let scope = modifiers_at(target, cursor)?;
    let key = key_at(KEY_LEVELS, cursor)?;
    Ok(Search {
        target: scope.target,
        modifiers: scope.modifiers,
        key,
    })
}
