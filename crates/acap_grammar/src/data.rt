//! Prints the data of a row (RFC 2244 section 6.4.1).

ghost use Rattle.std.specs.Prelude.{◌∷◌};
ghost use Rattle.acap_lexer.specs.Printing.{printed_form};
ghost use Rattle.acap_grammar.specs.Appending.{Appends};
ghost use Rattle.acap_grammar.specs.Replies.{behind_spaces, list_form, cell_form, item_form};

use crate::strings::{append_string, append_values};
use acap_entries::{Cell, CellList, Item, Items, LentItems, Memory, Value};

#[tactic(auto, unfolding(crate::specs::Replies::cell_form))]
fn append_cell(cell: &Cell, out: &mut Vec<u8>) -> Result<(), Memory>
    ensures { Appends result out.old.items out.new.items (cell_form cell.now) }
{
    match cell {
        Cell::Nil => {
            out.extend_from_slice(b"NIL")?;
            Ok(())
        }
        Cell::Single(value) => append_string(value.as_slice(), out),
        Cell::Multi(values) => append_values(values.as_slice(), out),
    }
}

fn append_spaced_cells(cells: &[Cell], out: &mut Vec<u8>) -> Result<(), Memory>
    ensures { Appends result out.old.items out.new.items (behind_spaces cell_form cells.now) }
{
    for cell in cells {
        out.push(b' ')?;
        append_cell(cell, out)?;
    }
    Ok(())
}

#[tactic(auto, unfolding(crate::specs::Replies::list_form))]
fn append_cells(cells: &[Cell], out: &mut Vec<u8>) -> Result<(), Memory>
    ensures { Appends result out.old.items out.new.items (list_form cell_form cells.now) }
{
    out.push(b'(')?;
    if let Some((first, others)) = cells.split_first() {
        append_cell(first, out)?;
        append_spaced_cells(others, out)?;
    }
    out.push(b')')?;
    Ok(())
}

fn append_spaced_lists(lists: &[CellList], out: &mut Vec<u8>) -> Result<(), Memory>
    ensures { Appends result out.old.items out.new.items (behind_spaces (list_form cell_form) lists.now) }
{
    for list in lists {
        out.push(b' ')?;
        append_cells(list.as_slice(), out)?;
    }
    Ok(())
}

#[tactic(auto, unfolding(crate::specs::Replies::list_form))]
fn append_lists(lists: &[CellList], out: &mut Vec<u8>) -> Result<(), Memory>
    ensures { Appends result out.old.items out.new.items (list_form (list_form cell_form) lists.now) }
{
    out.push(b'(')?;
    if let Some((first, others)) = lists.split_first() {
        append_cells(first.as_slice(), out)?;
        append_spaced_lists(others, out)?;
    }
    out.push(b')')?;
    Ok(())
}

#[tactic(auto, unfolding(crate::specs::Replies::item_form))]
fn append_item(item: &Item, out: &mut Vec<u8>) -> Result<(), Memory>
    ensures { Appends result out.old.items out.new.items (item_form item.now) }
{
    match item {
        Item::One(cell) => append_cell(cell, out),
        Item::Several(cells) => append_cells(cells.as_slice(), out),
        Item::PerAttribute(lists) => append_lists(lists.as_slice(), out),
    }
}

// One string after a space.
fn append_text(text: &Value, out: &mut Vec<u8>) -> Result<(), Memory>
    ensures { Appends result out.old.items out.new.items (32 ∷ printed_form text.now) }
{
    out.push(b' ')?;
    append_string(text.as_slice(), out)?;
    Ok(())
}

// Each item of a list after a space.
fn append_listed(items: &[Item], out: &mut Vec<u8>) -> Result<(), Memory>
    ensures { Appends result out.old.items out.new.items (behind_spaces item_form items.now) }
{
    for item in items {
        out.push(b' ')?;
        append_item(item, out)?;
    }
    Ok(())
}

/// Each item after a space.
#[tactic(auto, unfolding(crate::specs::Replies::item_form, crate::specs::Replies::cell_form))]
pub(crate) fn append_items(items: &Items, out: &mut Vec<u8>) -> Result<(), Memory>
    ensures { Appends result out.old.items out.new.items (behind_spaces item_form items.now) }
{
    match items.lend() {
        LentItems::Text(text) => append_text(text, out),
        LentItems::List(list) => append_listed(list, out),
    }
}
