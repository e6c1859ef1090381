//! What follows of the lists of contexts from the definitions alone: the contract of each function is the law.
ghost use Rattle.acap_search.specs.ContextExamples.{ContextExamples};
ghost use Rattle.acap_search.specs.ContextLaws.{HitLaw, WithinLaw};

use acap_inherit::{names_law, nothing_law};

/// In a sound store the matches of one search ascend strictly, each has a full path of its own, and its name is one that the full
/// path gives (RFC 2244 section 6.4.1).
pub fn hit_law()
    ensures { HitLaw }
{
    nothing_law();
    names_law();
}

/// A search over the list of a context that was just made, by the key that made it, finds that list again (RFC 2244 section 3.3).
pub fn within_law()
    ensures { WithinLaw }
{}

/// What searches over contexts find and why they are refused, one for each case (RFC 2244 sections 3.3 and 6.4.1).
pub fn context_examples()
    ensures { ContextExamples }
{}
