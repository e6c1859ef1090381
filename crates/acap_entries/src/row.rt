//! `Row` and `Items`: what is printed of an entry.
ghost use Rattle.std.specs.Prelude.{◌≡◌, ◌↔◌, IsTrue, [], ◌∷◌, IfOk};
ghost use Rattle.std.specs.Cmp.Lexicographic.{pointwise, lists_per, lists_equiv};
ghost use Rattle.acap_entries.specs.Items.{items_lent, text_alone};
ghost use Rattle.acap_entries.specs.declared.record.Cell.TheVariants.{Single};
ghost use Rattle.acap_entries.specs.declared.row.Item.TheVariants.{One};
ghost use Rattle.acap_entries.specs.contracts.row.ItemPartialEq.TheImpl as printed;
ghost use Rattle.acap_entries.specs.contracts.row.ItemPartialEq.TheImpl.Laws as part;
ghost use Rattle.acap_entries.specs.contracts.row.ItemEq.TheImpl.Laws as whole;

use crate::record::{Cell, CellList, CellLists};
use crate::sequence::Sequence;
use crate::text::Label;
use crate::value::Value;
use acap_ordmap::{Copying, Memory};
use std::alloc::Global;
use std::marker::Model;

/// What is printed of an entry: its name and an item for each of RETURN (RFC 2244 section 6.4.1).
#[derive(Clone, PartialEq, Eq, Drop)]
pub struct Row {
    /// The name as printed, or the full path.
    pub name: Label,
    /// The items, in the order of RETURN.
    pub items: Items,
}

impl Row {
    /// Whether two of them are equal, as `==` says it. Takes no memory.
    pub fn equals(&self, other: &Row) -> bool
        ensures { IsTrue result ↔ (self.now ≡ other.now) }
    {
        *self == *other
    }
}

impl Copying for Row {
    fn copy(&self) -> Result<Row, Memory> {
        self.clone()
    }
}

/// What is printed for one item of RETURN (RFC 2244 section 6.4.1).
#[derive(Clone, PartialEq, Eq, Drop)]
pub enum Item {
    /// One datum, printed bare.
    One(Cell),
    /// Several data in one parenthesis.
    Several(CellList),
    /// For a name with `*`: a parenthesis that holds one for each attribute.
    PerAttribute(CellLists),
}

impl Copying for Item {
    fn copy(&self) -> Result<Item, Memory> {
        self.clone()
    }
}

/// The items that are printed of an entry, in their order (RFC 2244 section 6.4.1), which contracts see as their list.
#[derive(Drop)]
pub struct Items {
    held: Held,
}

/// Where the items lie.
#[derive(Drop)]
pub(crate) enum Held {
    /// One string alone lies in place.
    Text(Value),
    /// Any others.
    List(Sequence<Item>),
}

/// The items as they are lent.
#[derive(Clone, Copy)]
pub enum LentItems<'a> {
    /// One item, which is one string.
    Text(&'a Value),
    /// Any others, in their order.
    List(&'a [Item]),
}

impl Model for Items {
    ghost use Rattle.std.specs.Prelude.{List};
    ghost use Rattle.acap_entries.specs.Items.{items_in};
    ghost use Rattle.acap_entries.specs.contracts.row.Item as item;
    ghost use Rattle.acap_entries.specs.declared.row.Item.{Item};
    ghost use Rattle.std.specs.Coded.{coded_list};

    ghost Value = { List Item };

    ghost coded = { coded_list item.the_row.coded };

    ghost view = { λ i. items_in i.held };
}

impl Items {
    /// No items. Takes no memory.
    pub fn new(alloc: Global) -> Items
        ensures { result ≡ [] }
    {
        Items {
            held: Held::List(Sequence::new(alloc)),
        }
    }

    /// One item. Fails only for want of memory.
    pub fn one(alloc: Global, item: Item) -> Result<Items, Memory>
        ensures { IfOk result (λ made. made ≡ item ∷ []) }
    {
        if let Item::One(Cell::Single(text)) = item {
            return Ok(Items {
                held: Held::Text(text),
            });
        }
        let mut list = Sequence::new(alloc);
        list.push(item)?;
        Ok(Items::from_list(list))
    }

    /// The items of a list, in its memory.
    pub fn from_list(list: Sequence<Item>) -> Items
        ensures { result ≡ list }
    {
        Items {
            held: Held::List(list),
        }
    }

    /// The items in their order.
    pub fn lend(&self) -> LentItems<'_>
        ensures { items_lent result ≡ self.now }
    {
        match &self.held {
            Held::Text(text) => LentItems::Text(text),
            Held::List(list) => LentItems::List(list.as_slice()),
        }
    }
}

// Whether an item is this string.
fn is_text(item: &Item, text: &Value) -> bool
    ensures left { result ≡ printed.ghosts.eq item.now (One (Single text.now)) }
    ensures right { result ≡ printed.ghosts.eq (One (Single text.now)) item.now }
{
    match item {
        Item::One(Cell::Single(other)) => text == other,
        _ => false,
    }
}

// Whether items are this string alone.
fn are_text(items: &[Item], text: &Value) -> bool
    ensures left { result ≡ pointwise printed.ghosts.eq items.now (text_alone text.now) }
    ensures right { result ≡ pointwise printed.ghosts.eq (text_alone text.now) items.now }
{
    match items {
        [item] => is_text(item, text),
        _ => false,
    }
}

impl PartialEq for Items {
    ghost eq = { pointwise printed.ghosts.eq };

    ghost laws = { lists_per part.laws-law };

    fn eq(&self, other: &Items) -> bool {
        match (self.lend(), other.lend()) {
            (LentItems::Text(one), LentItems::Text(two)) => one == two,
            (LentItems::Text(text), LentItems::List(list))
            | (LentItems::List(list), LentItems::Text(text)) => are_text(list, text),
            (LentItems::List(one), LentItems::List(two)) => one == two,
        }
    }
}

impl Eq for Items {
    ghost laws = { lists_equiv whole.laws-law };
}

impl Clone for Items {
    ghost is_clone = { λ x y. y ≡ x };

    fn clone(&self) -> Result<Items, Memory> {
        let held = match &self.held {
            Held::Text(text) => Held::Text(text.copy()?),
            Held::List(list) => Held::List(list.copy()?),
        };
        Ok(Items { held })
    }
}

impl Copying for Items {
    fn copy(&self) -> Result<Items, Memory> {
        self.clone()
    }
}
