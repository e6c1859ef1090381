//! Writes a SEARCH (RFC 2244 section 6.4.1).

ghost use Rattle.std.specs.Prelude.{◌≡◌, OnOk, codes};
ghost use Rattle.acap_grammar.specs.Spelling as spelling;
ghost use Rattle.acap_client.specs.Writing.{Writes};

use crate::objects::dataset_text;
use crate::writing::{Writing, close, number, open, string, time, word};
use acap_commands::{
    Key, Limit, MakeContext, Metadata, Node, Relation, ReturnItem, ReturnName, Returns, Search,
    SearchModifiers, SortItem, SortItems, Target, Test,
};
use acap_entries::Memory;
use acap_order::{Collation, Comparator, Direction};

/// A word, if it stands there.
pub(crate) fn flag(writing: &mut Writing, text: &[u8], stands: bool) -> Result<(), Memory>
    ensures { OnOk result (Writes (spelling.flag text.now stands) writing.old writing.new) }
{
    if stands { word(writing, text) } else { Ok(()) }
}

/// The name of a comparator.
fn comparator_name(comparator: Comparator) -> &'static [u8]
    ensures { result.now ≡ spelling.comparator_name comparator }
{
    match (comparator.direction, comparator.collation) {
        (Direction::Ascending, Collation::Octet) => b"i;octet",
        (Direction::Ascending, Collation::AsciiCasemap) => b"i;ascii-casemap",
        (Direction::Ascending, Collation::AsciiNumeric) => b"i;ascii-numeric",
        (Direction::Descending, Collation::Octet) => b"-i;octet",
        (Direction::Descending, Collation::AsciiCasemap) => b"-i;ascii-casemap",
        (Direction::Descending, Collation::AsciiNumeric) => b"-i;ascii-numeric",
    }
}

/// A comparator.
fn comparator(writing: &mut Writing, comparator: Comparator) -> Result<(), Memory>
    ensures { OnOk result (Writes (spelling.comparator comparator) writing.old writing.new) }
{
    string(writing, comparator_name(comparator))
}

// ---- modifiers

/// DEPTH and HARDLIMIT.
fn number_if_there(writing: &mut Writing, name: &[u8], n: Option<u32>) -> Result<(), Memory>
    ensures { let word = spelling.if_there (λ n after. spelling.word name.now (spelling.number n after)) n in
        OnOk result (Writes word writing.old writing.new) }
{
    match n {
        None => Ok(()),
        Some(n) => {
            word(writing, name)?;
            number(writing, n)
        }
    }
}

/// LIMIT.
fn limit(writing: &mut Writing, limit: &Option<Limit>) -> Result<(), Memory>
    ensures { OnOk result (Writes (spelling.if_there spelling.limit limit.now) writing.old writing.new) }
{
    match limit {
        None => Ok(()),
        Some(limit) => {
            word(writing, b"LIMIT")?;
            number(writing, limit.over)?;
            number(writing, limit.most)
        }
    }
}

/// MAKECONTEXT.
fn make_context(writing: &mut Writing, make: &Option<MakeContext>) -> Result<(), Memory>
    ensures { OnOk result
        (Writes (spelling.if_there spelling.make_context make.now) writing.old writing.new) }
{
    match make {
        None => Ok(()),
        Some(make) => {
            word(writing, b"MAKECONTEXT")?;
            flag(writing, b"ENUMERATE", make.enumerate)?;
            flag(writing, b"NOTIFY", make.notify)?;
            string(writing, make.name.as_slice())
        }
    }
}

// ---- what is returned, and in which order

/// The name of a metadata item.
fn metadata_name(metadata: Metadata) -> &'static [u8]
    ensures { result.now ≡ spelling.metadata_name metadata }
{
    match metadata {
        Metadata::Acl => b"acl",
        Metadata::Attribute => b"attribute",
        Metadata::MyRights => b"myrights",
        Metadata::Size => b"size",
        Metadata::Value => b"value",
    }
}

/// Metadata items, one after the other.
fn metadata_items(writing: &mut Writing, items: &[Metadata]) -> Result<(), Memory>
    ensures { OnOk result (Writes (spelling.each spelling.metadata_then items.now) writing.old writing.new) }
{
    for item in items {
        string(writing, metadata_name(*item))?;
    }
    Ok(())
}

/// Whether the metadata are those that are sent where nothing is asked for.
fn is_left_out(name: &ReturnName, metadata: &[Metadata]) -> bool
    ensures { result ≡ spelling.is_left_out name.now metadata.now }
{
    match (name, metadata) {
        (ReturnName::Named(_), [Metadata::Value]) => true,
        (ReturnName::Beginning(_), [Metadata::Attribute, Metadata::Value]) => true,
        _ => false,
    }
}

/// The name of an item of RETURN.
fn return_name(writing: &mut Writing, name: &ReturnName) -> Result<(), Memory>
    ensures { OnOk result (Writes (spelling.string (spelling.return_text name.now)) writing.old writing.new) }
{
    match name {
        ReturnName::Named(attribute) => string(writing, attribute.as_slice()),
        ReturnName::Beginning(prefix) => {
            let mut text = Vec::from_slice(*writing.octets.allocator(), prefix.as_slice())?;
            text.push(b'*')?;
            string(writing, &text)
        }
    }
}

/// An item of RETURN.
fn return_item(writing: &mut Writing, item: &ReturnItem) -> Result<(), Memory>
    ensures { OnOk result (Writes (spelling.return_item item.now) writing.old writing.new) }
{
    let metadata = item.metadata.as_slice();
    return_name(writing, &item.name)?;
    if is_left_out(&item.name, metadata) {
        return Ok(());
    }
    open(writing)?;
    metadata_items(writing, metadata)?;
    close(writing)
}

/// Items of RETURN, one after the other.
fn return_items(writing: &mut Writing, items: &[ReturnItem]) -> Result<(), Memory>
    ensures { OnOk result (Writes (spelling.each spelling.return_item items.now) writing.old writing.new) }
{
    for item in items {
        return_item(writing, item)?;
    }
    Ok(())
}

/// RETURN.
fn returns(writing: &mut Writing, returns: &Option<Returns>) -> Result<(), Memory>
    ensures { OnOk result (Writes (spelling.if_there spelling.returns returns.now) writing.old writing.new) }
{
    match returns {
        None => Ok(()),
        Some(items) => {
            word(writing, b"RETURN")?;
            open(writing)?;
            return_items(writing, items.as_slice())?;
            close(writing)
        }
    }
}

/// Items of SORT, one after the other.
fn sort_items(writing: &mut Writing, items: &[SortItem]) -> Result<(), Memory>
    ensures { OnOk result (Writes (spelling.each spelling.sort_item items.now) writing.old writing.new) }
{
    for item in items {
        string(writing, item.attribute.as_slice())?;
        comparator(writing, item.comparator)?;
    }
    Ok(())
}

/// SORT.
fn sort(writing: &mut Writing, sort: &Option<SortItems>) -> Result<(), Memory>
    ensures { OnOk result (Writes (spelling.if_there spelling.sort sort.now) writing.old writing.new) }
{
    match sort {
        None => Ok(()),
        Some(items) => {
            word(writing, b"SORT")?;
            open(writing)?;
            sort_items(writing, items.as_slice())?;
            close(writing)
        }
    }
}

// ---- the whole

/// All modifiers of a SEARCH.
fn modifiers(writing: &mut Writing, modifiers: &SearchModifiers) -> Result<(), Memory>
    ensures { OnOk result (Writes (spelling.modifiers modifiers.now) writing.old writing.new) }
{
    number_if_there(writing, b"DEPTH", modifiers.depth)?;
    number_if_there(writing, b"HARDLIMIT", modifiers.hard_limit)?;
    limit(writing, &modifiers.limit)?;
    make_context(writing, &modifiers.make_context)?;
    flag(writing, b"NOINHERIT", modifiers.no_inherit)?;
    returns(writing, &modifiers.returns)?;
    sort(writing, &modifiers.sort)
}

/// The word for a relation.
fn relation_word(relation: Relation) -> &'static [u8]
    ensures { result.now ≡ spelling.relation_word relation }
{
    match relation {
        Relation::Equal => b"EQUAL",
        Relation::AtLeast => b"COMPARE",
        Relation::Greater => b"COMPARESTRICT",
        Relation::Begins => b"PREFIX",
        Relation::Contains => b"SUBSTRING",
    }
}

/// A test.
fn test(writing: &mut Writing, test: &Test) -> Result<(), Memory>
    ensures { OnOk result (Writes (spelling.test_tokens test.now) writing.old writing.new) }
{
    match test {
        Test::All => word(writing, b"ALL"),
        Test::IsNil(attribute, by) => {
            word(writing, b"EQUAL")?;
            string(writing, attribute.as_slice())?;
            comparator(writing, *by)?;
            word(writing, b"NIL")
        }
        Test::Meets(relation, attribute, by, value) => {
            word(writing, relation_word(*relation))?;
            string(writing, attribute.as_slice())?;
            comparator(writing, *by)?;
            string(writing, value.as_slice())
        }
        Test::Range(first, last, since) => {
            word(writing, b"RANGE")?;
            number(writing, *first)?;
            number(writing, *last)?;
            time(writing, *since)
        }
    }
}

/// A key.
fn key(writing: &mut Writing, wanted: &Key) -> Result<(), Memory>
    ensures { OnOk result (Writes (spelling.key wanted.now) writing.old writing.new) }
{
    match wanted.node() {
        Node::One(one) => test(writing, one),
        Node::And(first, second) => {
            word(writing, b"AND")?;
            key(writing, first)?;
            key(writing, second)
        }
        Node::Or(first, second) => {
            word(writing, b"OR")?;
            key(writing, first)?;
            key(writing, second)
        }
        Node::Not(other) => {
            word(writing, b"NOT")?;
            key(writing, other)
        }
    }
}

/// What is looked through.
fn target(writing: &mut Writing, target: &Target) -> Result<(), Memory>
    ensures { OnOk result
        (Writes (spelling.string (spelling.target_text target.now)) writing.old writing.new) }
{
    match target {
        Target::Dataset(name) => string(writing, dataset_text(name)),
        Target::Context(name) => string(writing, name.as_slice()),
    }
}

/// The arguments of a SEARCH (RFC 2244 section 6.4.1).
pub(crate) fn search(writing: &mut Writing, search: &Search) -> Result<(), Memory>
    ensures { OnOk result (Writes (spelling.search_tokens search.now) writing.old writing.new) }
{
    target(writing, &search.target)?;
    modifiers(writing, &search.modifiers)?;
    key(writing, &search.key)
}
