//! What a STORE gives, as it is gathered: what comes in ascending order is known not to repeat (RFC 2244 section 6.6.1).
ghost use Rattle.std.specs.Prelude.{◌≡◌, ◌&&◌, [], ◌++◌, ◌∷◌, IfOk};
ghost use Rattle.std.specs.Str.{bytes_eq};
ghost use Rattle.acap_entries.specs.Orders.{octets_cmp};
ghost use Rattle.acap_entries.specs.Store.{path_cmp};
ghost use Rattle.acap_grammar.specs.Ascending.{last_cmp};
ghost use Rattle.acap_commands.specs.EntryOrder.{Orders, has_path};
ghost use Rattle.acap_grammar.specs.Storing as storing;

use acap_commands::{Entries, EntryOrder, StoreEntry, StoreItem, StoreItems, StoreMetadata};
use acap_entries::{Attribute, Memory, Path};
use std::alloc::Global;
use std::cmp::Ordering;
use std::marker::Model;

// ---- entries

/// The entries so far, and their order once their paths don't ascend.
#[derive(Drop)]
pub(crate) struct GatheredEntries {
    pub(crate) entries: Entries,
    order: Option<EntryOrder>,
}

impl Model for GatheredEntries {
    ghost use Rattle.std.specs.Prelude.{List};
    ghost use Rattle.acap_grammar.specs.Gathering.{Gathered};
    ghost use Rattle.acap_commands.specs.declared.store.StoreEntry.{StoreEntry};

    ghost Value = { List StoreEntry };

    ghost view = { λ g. g.entries };

    ghost invariant = { λ g. Gathered g.order g.entries };
}

// How the path of the last entry compares with another; none is less.
#[tactic(auto, unfolding(crate::specs::Ascending::last_cmp))]
fn last_path_cmp(seen: &[StoreEntry], path: &Path) -> Ordering
    ensures { result ≡ last_cmp (λ e. e.path) path_cmp seen.now path.now }
{
    match seen.last() {
        Some(last) => last.path.cmp(path),
        None => Ordering::Less,
    }
}

// Whether two paths are the same: their names are compared first, as few differ in their datasets.
#[inline]
fn is_same_path(a: &Path, b: &Path) -> bool
    ensures { result ≡ (bytes_eq a.now.dataset b.now.dataset && bytes_eq a.now.name b.now.name) }
{
    a.name.as_slice() == b.name.as_slice() && a.dataset.as_slice() == b.dataset.as_slice()
}

#[tactic(auto, unfolding(acap_commands::specs::EntryOrder::has_path))]
fn has_path(path: &Path, seen: &[StoreEntry]) -> bool
    ensures { result ≡ has_path path.now seen.now }
{
    seen.iter().any(|e| is_same_path(&e.path, path))
}

// The order of entries whose paths don't ascend with one more.
fn order_with(alloc: Global, seen: &[StoreEntry], next: &StoreEntry) -> Result<EntryOrder, Memory>
    ensures { IfOk result (λ order. Orders order (seen.now ++ next.now ∷ [])) }
{
    let mut order = EntryOrder::of(alloc, seen)?;
    let _ = order.add(seen, next)?;
    Ok(order)
}

impl GatheredEntries {
    /// None yet. Takes no memory.
    pub(crate) fn new(alloc: Global) -> GatheredEntries
        ensures { result ≡ [] }
    {
        GatheredEntries {
            entries: Entries::new(alloc),
            order: None,
        }
    }

    /// Whether an entry with this path is among them. Takes no memory.
    pub(crate) fn has_path(&self, path: &Path) -> bool
        ensures { result ≡ has_path path.now self.now }
    {
        let seen = self.entries.as_slice();
        match &self.order {
            Some(order) => order.has_path(seen, path),
            None => !last_path_cmp(seen, path).is_lt() && has_path(path, seen),
        }
    }

    /// One entry more. Fails only for want of memory.
    pub(crate) fn with(self, alloc: Global, entry: StoreEntry) -> Result<GatheredEntries, Memory>
        ensures { IfOk result (λ made. made ≡ self ++ entry ∷ []) }
    {
        let GatheredEntries { entries, order } = self;
        let order = match order {
            Some(mut order) => {
                let _ = order.add(entries.as_slice(), &entry)?;
                Some(order)
            }
            None => {
                if last_path_cmp(entries.as_slice(), &entry.path).is_le() {
                    None
                } else {
                    Some(order_with(alloc, entries.as_slice(), &entry)?)
                }
            }
        };
        let mut entries = entries;
        entries.push(entry)?;
        Ok(GatheredEntries { entries, order })
    }
}

// ---- items

/// The items so far, and whether the attribute of the last is the greatest of all, as it is while they come in ascending order.
#[derive(Drop)]
pub(crate) struct GatheredItems {
    pub(crate) items: StoreItems,
    ascend: bool,
}

impl Model for GatheredItems {
    ghost use Rattle.std.specs.Prelude.{List};
    ghost use Rattle.acap_entries.specs.Orders.{octets_cmp};
    ghost use Rattle.acap_grammar.specs.Ascending.{Ascends};
    ghost use Rattle.acap_commands.specs.declared.store.StoreItem.{StoreItem};

    ghost Value = { List StoreItem };

    ghost view = { λ g. g.items };

    ghost invariant = { λ g. Ascends (λ i. i.attribute) octets_cmp g.ascend g.items };
}

// How the attribute of the last item compares with another; none is less.
#[tactic(auto, unfolding(crate::specs::Ascending::last_cmp))]
fn last_attribute_cmp(seen: &[StoreItem], attribute: &Attribute) -> Ordering
    ensures { result ≡ last_cmp (λ i. i.attribute) octets_cmp seen.now attribute.now }
{
    match seen.last() {
        Some(last) => last.attribute.cmp(attribute),
        None => Ordering::Less,
    }
}

#[tactic(auto, unfolding(crate::specs::Storing::has_attribute))]
fn has_attribute(attribute: &Attribute, seen: &[StoreItem]) -> bool
    ensures { result ≡ storing.has_attribute attribute.now seen.now }
{
    let attribute = attribute.as_slice();
    seen.iter().any(|i| i.attribute.as_slice() == attribute)
}

fn same_metadata(a: StoreMetadata, b: StoreMetadata) -> bool
    ensures { result ≡ storing.same_metadata a b }
{
    a == b
}

#[tactic(auto, unfolding(crate::specs::Storing::has_item))]
fn has_item(attribute: &Attribute, metadata: StoreMetadata, seen: &[StoreItem]) -> bool
    ensures { result ≡ storing.has_item attribute.now metadata seen.now }
{
    let attribute = attribute.as_slice();
    seen.iter().any(|i| i.attribute.as_slice() == attribute && same_metadata(i.metadata, metadata))
}

impl GatheredItems {
    /// None yet. Takes no memory.
    pub(crate) fn new(alloc: Global) -> GatheredItems
        ensures { result ≡ [] }
    {
        GatheredItems {
            items: StoreItems::new(alloc),
            ascend: true,
        }
    }

    /// Whether an item with this attribute is among them. Takes no memory.
    pub(crate) fn has_attribute(&self, attribute: &Attribute) -> bool
        ensures { result ≡ storing.has_attribute attribute.now self.now }
    {
        let seen = self.items.as_slice();
        if self.ascend && last_attribute_cmp(seen, attribute).is_lt() {
            return false;
        }
        has_attribute(attribute, seen)
    }

    /// Whether an item with this attribute and this metadata is among them. Takes no memory.
    pub(crate) fn has_item(&self, attribute: &Attribute, metadata: StoreMetadata) -> bool
        ensures { result ≡ storing.has_item attribute.now metadata self.now }
    {
        let seen = self.items.as_slice();
        if self.ascend && last_attribute_cmp(seen, attribute).is_lt() {
            return false;
        }
        has_item(attribute, metadata, seen)
    }

    /// One item more. Fails only for want of memory.
    pub(crate) fn with(self, item: StoreItem) -> Result<GatheredItems, Memory>
        ensures { IfOk result (λ made. made ≡ self ++ item ∷ []) }
    {
        let ascend = self.ascend
            && last_attribute_cmp(self.items.as_slice(), &item.attribute).is_le();
        let mut items = self.items;
        items.push(item)?;
        Ok(GatheredItems { items, ascend })
    }
}
