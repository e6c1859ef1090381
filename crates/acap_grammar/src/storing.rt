//! Reads the entries of a STORE (RFC 2244 section 6.6.1).

ghost use Rattle.std.specs.Prelude.{◌≡◌, ◌++◌, ◌∷◌, [], IfOk};
ghost use Rattle.acap_grammar.specs.Outcome.{Finds, Gives, Reads, ReadsBy};
ghost use Rattle.acap_grammar.specs.Marks.{word_at};
ghost use Rattle.acap_grammar.specs.Storing as storing;
ghost use Rattle.acap_grammar.specs.Storing.{with_gift};

use crate::arguments::{Named, name_at};
use crate::command_fault::CommandFault;
use crate::cursor::Cursor;
use crate::gathered::{GatheredEntries, GatheredItems};
use crate::grammar_fault::GrammarFault;
use crate::limits::{STORE_ENTRIES, STORE_ITEMS};
use crate::several::{Gather, Series, read_enclosed, several, some_of};
use crate::words::{STORE_METADATA, StoreWord, find_text};
use acap_commands::{
    Entries, Given, StoreEntry, StoreItem, StoreItems, StoreMetadata, StoreModifiers,
};
use acap_entries::{Attribute, Cell, Copying, Memory, Path, Sequence, Value, Values};
use acap_lexer::Kind;
use std::alloc::Global;

// ---- what may stand once

/// Goes on where what may stand once didn't stand before.
pub(crate) fn once(stood: bool) -> Result<(), GrammarFault>
    ensures { Gives result (storing.once stood) }
{
    if stood {
        Err(GrammarFault::Fault(CommandFault::NotPermittedTwice))
    } else {
        Ok(())
    }
}

// ---- what is given

// The strings up to the parenthesis that closes them.
#[tactic(auto, unfolding(crate::specs::Storing::strings_at))]
fn strings_at(cursor: &mut Cursor<'_>) -> Result<Values, GrammarFault>
    ensures { Reads result cursor.new (storing.strings_at [] cursor.old) }
{
    let mut strings = Sequence::new(cursor.alloc());
    while let Some(piece) = cursor.first() {
        cursor.pass();
        match piece.kind {
            Kind::Close => return Ok(Values::new(strings)?),
            Kind::Quoted | Kind::Literal => {
                strings.push(Value::from_slice(cursor.alloc(), piece.value)?)?;
            }
            _ => return Err(GrammarFault::Fault(CommandFault::Arguments)),
        }
    }
    Err(GrammarFault::Fault(CommandFault::Arguments))
}

// NIL or DEFAULT.
#[tactic(auto, unfolding(crate::specs::Marks::word_at, crate::specs::Marks::behind_word))]
fn given_word(cursor: &mut Cursor<'_>) -> Option<Given>
    ensures { Finds result cursor.old cursor.new (word_at storing.given_words cursor.old) }
{
    if cursor.pass_word(b"NIL") {
        return Some(Given::Put(Cell::Nil));
    }
    if cursor.pass_word(b"DEFAULT") {
        return Some(Given::Default);
    }
    None
}

// A string, NIL or DEFAULT.
#[tactic(auto, unfolding(crate::specs::Storing::plain_at))]
fn plain_at(cursor: &mut Cursor<'_>) -> Result<Given, GrammarFault>
    ensures { Reads result cursor.new (storing.plain_at cursor.old) }
{
    if cursor.starts_string() {
        return Ok(Given::Put(Cell::Single(cursor.value()?)));
    }
    match given_word(cursor) {
        Some(given) => Ok(given),
        None => Err(GrammarFault::Fault(CommandFault::Arguments)),
    }
}

// One of these, or a list.
#[tactic(auto, unfolding(crate::specs::Storing::given_at))]
fn given_at(cursor: &mut Cursor<'_>) -> Result<Given, GrammarFault>
    ensures { Reads result cursor.new (storing.given_at cursor.old) }
{
    if cursor.opens() {
        cursor.pass();
        Ok(Given::Put(Cell::Multi(strings_at(cursor)?)))
    } else {
        plain_at(cursor)
    }
}

// ---- an item

impl Named for StoreMetadata {
    ghost named = { storing.metadata_named };

    fn of_text(_alloc: Global, text: &[u8]) -> Result<StoreMetadata, GrammarFault> {
        match find_text(&STORE_METADATA, text) {
            Some(metadata) => Ok(metadata),
            None => Err(GrammarFault::Fault(CommandFault::Arguments)),
        }
    }
}

/// What one attribute is given, after what those before it are given.
#[derive(Drop)]
pub(crate) struct Gifts {
    pub(crate) attribute: Attribute,
    pub(crate) items: GatheredItems,
}

impl Gifts {
    // One thing more for the attribute.
    fn put(self, metadata: StoreMetadata, given: Given) -> Result<Gifts, Memory>
        ensures { IfOk result (λ made. made ≡ record self { items = with_gift self metadata given }) }
    {
        let attribute = self.attribute.copy()?;
        let items = self.items.with(StoreItem {
            attribute,
            metadata,
            given,
        })?;
        Ok(Gifts {
            attribute: self.attribute,
            items,
        })
    }

    // One last thing for the attribute, which moves there.
    fn put_last(self, metadata: StoreMetadata, given: Given) -> Result<GatheredItems, Memory>
        ensures { IfOk result (λ made. made ≡ with_gift self metadata given) }
    {
        let Gifts { attribute, items } = self;
        items.with(StoreItem {
            attribute,
            metadata,
            given,
        })
    }
}

impl Gather for Gifts {
    ghost item = { storing.gift_at };

    #[tactic(auto, unfolding(crate::specs::Storing::gift_at))]
    fn gather(self, cursor: &mut Cursor<'_>) -> Result<Gifts, GrammarFault> {
        let metadata: StoreMetadata = name_at(cursor)?;
        once(self.items.has_item(&self.attribute, metadata))?;
        let given = given_at(cursor)?;
        Ok(self.put(metadata, given)?)
    }
}

// After an attribute: what its value is given, or its metadata.
#[tactic(auto, unfolding(crate::specs::Storing::gifts_at))]
fn gifts_at(seen: Gifts, cursor: &mut Cursor<'_>) -> Result<GatheredItems, GrammarFault>
    ensures { Reads result cursor.new (storing.gifts_at seen cursor.old) }
{
    if cursor.opens() {
        let gifts = read_enclosed(seen, 3, cursor)?;
        return Ok(gifts.items);
    }
    let given = plain_at(cursor)?;
    Ok(seen.put_last(StoreMetadata::Value, given)?)
}

impl Gather for GatheredItems {
    ghost item = { storing.item_at };

    #[tactic(auto, unfolding(crate::specs::Storing::item_at))]
    fn gather(self, cursor: &mut Cursor<'_>) -> Result<GatheredItems, GrammarFault> {
        let attribute: Attribute = name_at(cursor)?;
        once(self.has_attribute(&attribute))?;
        let seen = Gifts {
            attribute,
            items: self,
        };
        gifts_at(seen, cursor)
    }
}

#[tactic(auto, unfolding(crate::specs::Storing::items_at))]
fn items_at(cursor: &mut Cursor<'_>) -> Result<StoreItems, GrammarFault>
    ensures { Reads result cursor.new (storing.items_at cursor.old) }
{
    let none = GatheredItems::new(cursor.alloc());
    let gathered = some_of(Series::Enclosed, none, STORE_ITEMS, cursor)?;
    Ok(gathered.items)
}

// ---- modifiers

// Whether that modifier stands among those before.
fn has_condition(seen: &StoreModifiers, word: StoreWord) -> bool
    ensures { result ≡ storing.has_condition seen.now word }
{
    match word {
        StoreWord::NoCreate => seen.no_create,
        StoreWord::UnchangedSince => seen.unchanged_since.is_some(),
    }
}

// After the word of a modifier.
#[tactic(auto, unfolding(crate::specs::Storing::behind_condition))]
fn condition(
    seen: StoreModifiers,
    word: StoreWord,
    cursor: &mut Cursor<'_>,
) -> Result<StoreModifiers, GrammarFault>
    ensures { Reads result cursor.new (storing.behind_condition seen word cursor.old) }
{
    match word {
        StoreWord::NoCreate => Ok(StoreModifiers {
            no_create: true,
            ..seen
        }),
        StoreWord::UnchangedSince => Ok(StoreModifiers {
            unchanged_since: Some(name_at(cursor)?),
            ..seen
        }),
    }
}

impl Gather for StoreModifiers {
    ghost item = { storing.condition_at };

    #[tactic(auto, unfolding(crate::specs::Storing::condition_at))]
    fn gather(self, cursor: &mut Cursor<'_>) -> Result<StoreModifiers, GrammarFault> {
        let Some(word) = cursor.word() else {
            return Err(GrammarFault::Fault(CommandFault::Arguments));
        };
        once(has_condition(&self, word))?;
        condition(self, word, cursor)
    }
}

#[tactic(auto, unfolding(crate::specs::Storing::conditions_at))]
fn conditions_at(cursor: &mut Cursor<'_>) -> Result<StoreModifiers, GrammarFault>
    ensures { Reads result cursor.new (storing.conditions_at cursor.old) }
{
    // Written out: after a call of `none` the prover misses the option in it.
    let none = StoreModifiers {
        no_create: false,
        unchanged_since: None,
    };
    several(Series::StoreModifiers, none, 3, cursor)
}

// ---- entries

#[tactic(auto, unfolding(crate::specs::Storing::path_at))]
fn new_path_at(seen: &GatheredEntries, cursor: &mut Cursor<'_>) -> Result<Path, GrammarFault>
    ensures { Reads result cursor.new (storing.path_at seen.now cursor.old) }
{
    let path: Path = name_at(cursor)?;
    once(seen.has_path(&path))?;
    Ok(path)
}

// One entry more. Those before are only looked at here: letting them go at each fault is slow to prove.
#[tactic(auto, unfolding(crate::specs::Storing::entry_at))]
fn entry_at(seen: &GatheredEntries, cursor: &mut Cursor<'_>) -> Result<StoreEntry, GrammarFault>
    ensures { ReadsBy (λ entry left. (seen.now ++ entry ∷ [], left))
        result cursor.new (storing.entry_at seen.now cursor.old) }
{
    cursor.pass_open()?;
    let path = new_path_at(seen, cursor)?;
    let modifiers = conditions_at(cursor)?;
    let items = items_at(cursor)?;
    cursor.closed(StoreEntry {
        path,
        modifiers,
        items,
    })
}

impl Gather for GatheredEntries {
    ghost item = { storing.entry_at };

    fn gather(self, cursor: &mut Cursor<'_>) -> Result<GatheredEntries, GrammarFault> {
        let entry = entry_at(&self, cursor)?;
        Ok(self.with(cursor.alloc(), entry)?)
    }
}

/// The entries up to the end of the line.
#[tactic(auto, unfolding(crate::specs::Storing::entries_at))]
pub(crate) fn entries_at(cursor: &mut Cursor<'_>) -> Result<Entries, GrammarFault>
    ensures { Reads result cursor.new (storing.entries_at cursor.old) }
{
    let none = GatheredEntries::new(cursor.alloc());
    let gathered = some_of(Series::Entries, none, STORE_ENTRIES, cursor)?;
    Ok(gathered.entries)
}
