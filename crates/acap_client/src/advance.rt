//! Reads octets up to the end of a line, or as far as they go.

ghost use Rattle.std.specs.Prelude.{◌≡◌, ◌≤◌, IfOk};
ghost use Rattle.acap_client.specs.Drafting.{IsDraft};
ghost use Rattle.acap_client.specs.Advancing.{IsDue};

use crate::draft::Draft;
use crate::due::{Due, Step};
use crate::hearing::hear;
use acap_entries::Memory;
use std::alloc::Global;

/// Hears octets up to the end of a line, of which `at` octets were heard before.
pub(crate) fn advance(
    alloc: Global,
    draft: &mut Draft,
    limit: u32,
    at: u32,
    octets: &[u8],
) -> Result<Due, Memory>
    requires draft { IsDraft draft.old }
    requires within { at ≤ limit }
    ensures { IfOk result (λ due. IsDue limit at octets.now draft.old draft.new due) }
{
    let mut left = octets;
    let mut at = at;
    'octets: while let Some((c, rest)) = left.split_first() {
        if at >= limit {
            return Ok(Due::TooLong);
        }
        at += 1;
        match hear(alloc, draft, *c, limit - at)? {
            Step::Goes => left = rest,
            Step::Ends => return Ok(Due::Ends(at)),
            Step::Lost => return Ok(Due::Lost),
            Step::TooLong => return Ok(Due::TooLong),
        }
    }
    Ok(Due::More(at))
}
