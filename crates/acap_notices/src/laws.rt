//! Laws of notices, from the client's rule alone: each function does nothing, and its contract is the law.
ghost use Rattle.acap_notices.specs.Laws.{JoinedLaw, PlacesLaw, OnceLaw, ChangeLaw, SameRowsLaw};
ghost use Rattle.acap_notices.specs.Examples.{RowExamples, MisfitExamples};

/// Joined lists of notices are applied one after the other.
pub fn joined_law()
    ensures { JoinedLaw }
{}

/// An entry that is added or changed stands at its new position, one that is removed or changed stood at its old one, and all others
/// are as they were, in their order.
pub fn places_law()
    ensures { PlacesLaw }
{}

/// Where no name comes twice, none does after a notice.
pub fn once_law()
    ensures { OnceLaw }
{}

/// To change an entry is to remove it and then to add it.
pub fn change_law()
    ensures { ChangeLaw }
{}

/// Whoever passes positions over has the same rows by name as whoever heeds them.
pub fn same_rows_law()
    ensures { SameRowsLaw }
{}

/// Rows after notices, computed from the client's rule alone.
pub fn row_examples()
    ensures { RowExamples }
{}

/// Notices that don't fit, one for each way.
pub fn misfit_examples()
    ensures { MisfitExamples }
{}
