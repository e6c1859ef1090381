//! Applies a notice to rows with positions.
ghost use Rattle.std.specs.Prelude.{◌≡◌, ◌↔◌, OnOk, OnErr};
ghost use Rattle.acap_notices.specs.Client.{ListLeads, ListMisfits};
ghost use Rattle.acap_notices.specs.Faults.{IsMisfit};
ghost use Rattle.acap_notices.specs.declared.notice.Notice.TheVariants.{AddTo, RemoveFrom, Change};

use crate::held_fault::HeldFault;
use crate::places::{has_position, is_held, stands_at};
use acap_entries::{Copying, Label, Row};

/// Puts in an entry that isn't held yet.
#[tactic(auto, unfolding(crate::specs::Client::listed_after))]
pub(crate) fn add(rows: &mut Vec<Row>, position: usize, row: &Row) -> Result<(), HeldFault>
    ensures ok { OnOk result (ListLeads rows.old.items (AddTo position row.now) rows.new.items) }
    ensures misfit { IsMisfit result ↔ ListMisfits rows.old.items (AddTo position row.now) }
    ensures err { OnErr result (rows.new.items ≡ rows.old.items) }
{
    if is_held(rows.as_slice(), &row.name) {
        return Err(HeldFault::Misfit);
    }
    if !has_position(rows.as_slice(), position) {
        return Err(HeldFault::Misfit);
    }
    let row = row.copy()?;
    rows.insert(position - 1, row)?;
    Ok(())
}

/// Takes out an entry that stands at a position.
#[tactic(auto, unfolding(crate::specs::Client::listed_after))]
pub(crate) fn remove(rows: &mut Vec<Row>, entry: &Label, position: usize) -> Result<(), HeldFault>
    ensures ok { OnOk result (ListLeads rows.old.items (RemoveFrom entry.now position) rows.new.items) }
    ensures misfit { IsMisfit result ↔ ListMisfits rows.old.items (RemoveFrom entry.now position) }
    ensures err { OnErr result (rows.new.items ≡ rows.old.items) }
{
    if !stands_at(rows.as_slice(), entry, position) {
        return Err(HeldFault::Misfit);
    }
    let _gone = rows.remove(position - 1);
    Ok(())
}

/// Takes out an entry that stands at a position, and puts it in again with another row.
#[tactic(auto, unfolding(crate::specs::Client::listed_after))]
pub(crate) fn change(
    rows: &mut Vec<Row>,
    from: usize,
    to: usize,
    row: &Row,
) -> Result<(), HeldFault>
    ensures ok { OnOk result (ListLeads rows.old.items (Change from to row.now) rows.new.items) }
    ensures misfit { IsMisfit result ↔ ListMisfits rows.old.items (Change from to row.now) }
    ensures err { OnErr result (rows.new.items ≡ rows.old.items) }
{
    if !stands_at(rows.as_slice(), &row.name, from) {
        return Err(HeldFault::Misfit);
    }
    if to == 0 || rows.len() < to {
        return Err(HeldFault::Misfit);
    }
    let row = row.copy()?;
    rows.reserve(1)?;
    let _gone = rows.remove(from - 1);
    rows.insert(to - 1, row).unwrap();
    Ok(())
}
