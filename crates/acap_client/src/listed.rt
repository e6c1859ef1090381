//! A context with positions: its rows in their order, and how notices change them.

ghost use Rattle.std.specs.Prelude.{◌≡◌, ◌↔◌, ◌<◌, ◌≤◌, Some, None, IfSome, OnOk, OnErr, length, option_map};
ghost use Rattle.std.specs.List.{insert, remove as remove_at, find as find_first};
ghost use Rattle.std.specs.Option.{option_copied};
ghost use Rattle.acap_entries.specs.Orders.{octets_eq};
ghost use Rattle.acap_grammar.specs.Printed.{printed_list_after, put_at, taken_from, is_held as is_held_in};
ghost use Rattle.acap_grammar.specs.Printed as printed;
ghost use Rattle.acap_client.specs.Arguments.{data_in, value_in};
ghost use Rattle.acap_client.specs.Following.{row_of};
ghost use Rattle.acap_client.specs.Keeping.{IsMisfit};

use crate::data::Data;
use crate::number::Number;
use crate::row::Row;
use acap_notices::HeldFault;
use std::alloc::Global;

/// The row of an entry, if it is among them.
pub(crate) fn find<'a>(rows: &'a [Row], entry: &[u8]) -> Option<&'a Row>
    ensures { option_copied result ≡ find_first (λ row. octets_eq entry.now row.name) rows.now }
{
    rows.iter().find(|row| entry == row.name())
}

/// Whether a row of the entry is among them.
fn is_held(rows: &[Row], entry: &[u8]) -> bool
    ensures { result ≡ is_held_in entry.now rows.now }
{
    rows.iter().any(|row| entry == row.name())
}

/// Where a row is to be put in, if it may have this position.
fn gap(rows: &[Row], position: &Number) -> Option<usize>
    ensures gap { (row : printed.PrintedRow)
        → put_at (value_in position.now) row rows.now ≡ option_map (λ at. insert rows.now at row) result }
    ensures within { IfSome result (λ at. at ≤ length rows.now) }
{
    position.index_within(rows.len() + 1)
}

/// Where the entry stands, if it has this position.
fn stand(rows: &[Row], entry: &[u8], position: &Number) -> Option<usize>
    ensures stand { taken_from (value_in position.now) entry.now rows.now
        ≡ option_map (λ at. remove_at rows.now at) result }
    ensures within { IfSome result (λ at. at < length rows.now) }
{
    let at = position.index_within(rows.len())?;
    if entry == rows[at].name() {
        Some(at)
    } else {
        None
    }
}

/// Puts in an entry that isn't held yet.
#[tactic(auto, unfolding(acap_grammar::specs::Printed::printed_list_after))]
pub(crate) fn add(
    alloc: Global,
    rows: &mut Vec<Row>,
    position: &Number,
    name: &[u8],
    items: &Data,
) -> Result<(), HeldFault>
    ensures ok { OnOk result (printed_list_after rows.old.items
        (printed.AddTo (value_in position.now) (row_of name.now (data_in items.now))) ≡ Some rows.new.items) }
    ensures misfit { IsMisfit result ↔ (printed_list_after rows.old.items
        (printed.AddTo (value_in position.now) (row_of name.now (data_in items.now))) ≡ None) }
    ensures err { OnErr result (rows.new.items ≡ rows.old.items) }
{
    if is_held(rows.as_slice(), name) {
        return Err(HeldFault::Misfit);
    }
    let Some(at) = gap(rows.as_slice(), position) else {
        return Err(HeldFault::Misfit);
    };
    let row = Row::read(alloc, name, items)?;
    rows.insert(at, row)?;
    Ok(())
}

/// Takes out an entry that stands at a position.
#[tactic(auto, unfolding(acap_grammar::specs::Printed::printed_list_after))]
pub(crate) fn remove(rows: &mut Vec<Row>, entry: &[u8], position: &Number) -> Result<(), HeldFault>
    ensures ok { OnOk result (printed_list_after rows.old.items
        (printed.RemoveFrom entry.now (value_in position.now)) ≡ Some rows.new.items) }
    ensures misfit { IsMisfit result ↔ (printed_list_after rows.old.items
        (printed.RemoveFrom entry.now (value_in position.now)) ≡ None) }
    ensures err { OnErr result (rows.new.items ≡ rows.old.items) }
{
    let Some(at) = stand(rows.as_slice(), entry, position) else {
        return Err(HeldFault::Misfit);
    };
    let _gone = rows.remove(at);
    Ok(())
}

/// Takes out an entry that stands at a position, and puts it in again with other data.
#[tactic(auto, unfolding(acap_grammar::specs::Printed::printed_list_after))]
pub(crate) fn change(
    alloc: Global,
    rows: &mut Vec<Row>,
    old: &Number,
    new: &Number,
    name: &[u8],
    items: &Data,
) -> Result<(), HeldFault>
    ensures ok { OnOk result (printed_list_after rows.old.items
        (printed.Change (value_in old.now) (value_in new.now) (row_of name.now (data_in items.now)))
        ≡ Some rows.new.items) }
    ensures misfit { IsMisfit result ↔ (printed_list_after rows.old.items
        (printed.Change (value_in old.now) (value_in new.now) (row_of name.now (data_in items.now))) ≡ None) }
    ensures err { OnErr result (rows.new.items ≡ rows.old.items) }
{
    let Some(from) = stand(rows.as_slice(), name, old) else {
        return Err(HeldFault::Misfit);
    };
    // The new position is counted when the entry has been taken out.
    let Some(to) = new.index_within(rows.len()) else {
        return Err(HeldFault::Misfit);
    };
    let row = Row::read(alloc, name, items)?;
    let _gone = rows.remove(from);
    rows.insert(to, row).unwrap();
    Ok(())
}
