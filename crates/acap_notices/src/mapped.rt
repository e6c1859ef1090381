//! Applies a notice to rows without positions, by the entry's name alone.
ghost use Rattle.std.specs.Prelude.{◌≡◌, ◌↔◌, OnOk, OnErr};
ghost use Rattle.acap_notices.specs.Rows.{IsEachOnce};
ghost use Rattle.acap_notices.specs.Client.{MapLeads, MapMisfits};
ghost use Rattle.acap_notices.specs.Faults.{IsMisfit};
ghost use Rattle.acap_notices.specs.declared.notice.Notice.TheVariants.{AddTo, RemoveFrom, Change};

use crate::held_fault::HeldFault;
use crate::listed;
use crate::places::position_of;
use acap_entries::{Label, Row};

/// Puts in an entry that isn't held yet.
pub(crate) fn add(rows: &mut Vec<Row>, row: &Row) -> Result<(), HeldFault>
    ensures ok { OnOk result (MapLeads rows.old.items (AddTo 0 row.now) rows.new.items) }
    ensures misfit { IsMisfit result ↔ MapMisfits rows.old.items (AddTo 0 row.now) }
    ensures once { IsEachOnce rows.old.items → IsEachOnce rows.new.items }
    ensures err { OnErr result (rows.new.items ≡ rows.old.items) }
{
    let behind = rows.len() + 1;
    listed::add(rows, behind, row)
}

/// Takes out an entry that is held.
pub(crate) fn remove(rows: &mut Vec<Row>, entry: &Label) -> Result<(), HeldFault>
    requires { IsEachOnce rows.old.items }
    ensures ok { OnOk result (MapLeads rows.old.items (RemoveFrom entry.now 0) rows.new.items) }
    ensures misfit { IsMisfit result ↔ MapMisfits rows.old.items (RemoveFrom entry.now 0) }
    ensures once { IsEachOnce rows.old.items → IsEachOnce rows.new.items }
    ensures err { OnErr result (rows.new.items ≡ rows.old.items) }
{
    let position = position_of(rows.as_slice(), entry);
    listed::remove(rows, entry, position)
}

/// Gives an entry that is held another row.
pub(crate) fn change(rows: &mut Vec<Row>, row: &Row) -> Result<(), HeldFault>
    requires { IsEachOnce rows.old.items }
    ensures ok { OnOk result (MapLeads rows.old.items (Change 0 0 row.now) rows.new.items) }
    ensures misfit { IsMisfit result ↔ MapMisfits rows.old.items (Change 0 0 row.now) }
    ensures once { IsEachOnce rows.old.items → IsEachOnce rows.new.items }
    ensures err { OnErr result (rows.new.items ≡ rows.old.items) }
{
    let position = position_of(rows.as_slice(), &row.name);
    listed::change(rows, position, position, row)
}
