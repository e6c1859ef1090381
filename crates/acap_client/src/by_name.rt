//! A context without positions: rows in the order of their names, found by halving, and how notices change them.

ghost use Rattle.std.specs.Prelude.{◌≡◌, ◌↔◌, ◌<◌, ◌≤◌, IsTrue, Some, None, OnOk, OnErr, length};
ghost use Rattle.std.specs.Option.{option_copied};
ghost use Rattle.std.specs.FinMap as finite;
ghost use Rattle.acap_entries.specs.Orders.{octets_cmp};
ghost use Rattle.acap_ordmap.specs.Sorted.{place, is_tied, InOrder};
ghost use Rattle.acap_grammar.specs.Printed.{printed_map_after};
ghost use Rattle.acap_grammar.specs.Printed as printed;
ghost use Rattle.acap_client.specs.Arguments.{data_in};
ghost use Rattle.acap_client.specs.Following.{row_of};
ghost use Rattle.acap_client.specs.Keeping.{IsMisfit};
ghost use Rattle.acap_client.specs.Placing.{keyed, by_order};

use crate::data::Data;
use crate::row::Row;
use acap_notices::HeldFault;
use std::alloc::Global;
use std::cmp::Ordering;

/// Where the row of an entry stands or would stand, and whether it is there.
pub(crate) fn place_of(rows: &[Row], entry: &[u8]) -> (usize, bool)
    requires { InOrder octets_cmp (keyed rows.now) }
    ensures place { result.0 ≡ place octets_cmp entry.now (keyed rows.now) }
    ensures tied { result.1 ≡ is_tied octets_cmp entry.now (keyed rows.now) }
    ensures within { result.0 ≤ length rows.now }
    ensures below { IsTrue result.1 → result.0 < length rows.now }
{
    let mut low = 0;
    let mut high = rows.len();
    while low < high {
        let mid = low + (high - low) / 2;
        match entry.cmp(rows[mid].name()) {
            Ordering::Less => high = mid,
            Ordering::Equal => return (mid, true),
            Ordering::Greater => low = mid + 1,
        }
    }
    (low, false)
}

/// The row of an entry, if it is among them.
pub(crate) fn find<'a>(rows: &'a [Row], entry: &[u8]) -> Option<&'a Row>
    requires { InOrder octets_cmp (keyed rows.now) }
    ensures { option_copied result ≡ finite.get (by_order rows.now) entry.now }
{
    let (at, tied) = place_of(rows, entry);
    if tied { Some(&rows[at]) } else { None }
}

/// Puts in an entry that isn't held yet.
#[tactic(auto, unfolding(acap_grammar::specs::Printed::printed_map_after))]
pub(crate) fn add(
    alloc: Global,
    rows: &mut Vec<Row>,
    name: &[u8],
    items: &Data,
) -> Result<(), HeldFault>
    requires { InOrder octets_cmp (keyed rows.old.items) }
    ensures ok { OnOk result (printed_map_after (by_order rows.old.items)
        (printed.AddTo 0 (row_of name.now (data_in items.now))) ≡ Some (by_order rows.new.items)) }
    ensures misfit { IsMisfit result ↔ (printed_map_after (by_order rows.old.items)
        (printed.AddTo 0 (row_of name.now (data_in items.now))) ≡ None) }
    ensures order { InOrder octets_cmp (keyed rows.new.items) }
    ensures err { OnErr result (rows.new.items ≡ rows.old.items) }
{
    let (at, tied) = place_of(rows.as_slice(), name);
    if tied {
        return Err(HeldFault::Misfit);
    }
    let row = Row::read(alloc, name, items)?;
    rows.insert(at, row)?;
    Ok(())
}

/// Takes out an entry that is held.
#[tactic(auto, unfolding(acap_grammar::specs::Printed::printed_map_after))]
pub(crate) fn remove(rows: &mut Vec<Row>, entry: &[u8]) -> Result<(), HeldFault>
    requires { InOrder octets_cmp (keyed rows.old.items) }
    ensures ok { OnOk result (printed_map_after (by_order rows.old.items)
        (printed.RemoveFrom entry.now 0) ≡ Some (by_order rows.new.items)) }
    ensures misfit { IsMisfit result ↔ (printed_map_after (by_order rows.old.items)
        (printed.RemoveFrom entry.now 0) ≡ None) }
    ensures order { InOrder octets_cmp (keyed rows.new.items) }
    ensures err { OnErr result (rows.new.items ≡ rows.old.items) }
{
    let (at, tied) = place_of(rows.as_slice(), entry);
    if !tied {
        return Err(HeldFault::Misfit);
    }
    let _gone = rows.remove(at);
    Ok(())
}

/// Gives an entry that is held other data.
#[tactic(auto, unfolding(acap_grammar::specs::Printed::printed_map_after))]
pub(crate) fn change(
    alloc: Global,
    rows: &mut Vec<Row>,
    name: &[u8],
    items: &Data,
) -> Result<(), HeldFault>
    requires { InOrder octets_cmp (keyed rows.old.items) }
    ensures ok { OnOk result (printed_map_after (by_order rows.old.items)
        (printed.Change 0 0 (row_of name.now (data_in items.now))) ≡ Some (by_order rows.new.items)) }
    ensures misfit { IsMisfit result ↔ (printed_map_after (by_order rows.old.items)
        (printed.Change 0 0 (row_of name.now (data_in items.now))) ≡ None) }
    ensures order { InOrder octets_cmp (keyed rows.new.items) }
    ensures err { OnErr result (rows.new.items ≡ rows.old.items) }
{
    let (at, tied) = place_of(rows.as_slice(), name);
    if !tied {
        return Err(HeldFault::Misfit);
    }
    let row = Row::read(alloc, name, items)?;
    rows[at] = row;
    Ok(())
}
