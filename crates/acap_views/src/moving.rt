//! How little of the store live searches look at: what follows from the definitions alone.
ghost use Rattle.acap_views.specs.Moving.{TouchedMovesLaw};
ghost use Rattle.acap_views.specs.PreparedLaws.{PreparedLaw};

use crate::laws::{changed_law, found_law, moved_law};
use acap_inherit::{names_law, nothing_law, touched_paths_law};
use acap_search::{hit_law, seen_law, touched_law, tuple_law};

/// A live search is brought up to date by what is made of each touched entry that it looks at, and of no other (RFC 2244 sections 3.3
/// and 6.5).
pub fn touched_moves_law()
    ensures { TouchedMovesLaw }
{
    nothing_law();
    names_law();
    touched_paths_law();
    seen_law();
    touched_law();
    changed_law();
    found_law();
    moved_law();
}

/// What is prepared of each touched entry comes to the change, in all contexts, and is as much as they look at (RFC 2244 sections 3.3
/// and 6.5).
pub fn prepared_law()
    ensures { PreparedLaw }
{
    nothing_law();
    names_law();
    touched_paths_law();
    seen_law();
    touched_law();
    changed_law();
    found_law();
    tuple_law();
    hit_law();
    touched_moves_law();
}
