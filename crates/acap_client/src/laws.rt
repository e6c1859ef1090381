//! Laws of what a client reads and holds, from the definitions alone: each function does nothing, and its contract is the law.

ghost use Rattle.acap_client.specs.FollowingExamples.{FollowingExamples};
ghost use Rattle.acap_client.specs.Laws.{FirstLaw};

/// What a reader answers next is the next line that a client hears, of each line that is no longer than the limit, whatever
/// octets follow it (RFC 2244 section 2.2).
#[tactic(auto, using(crate::proofs::FirstLines::first_law))]
pub fn first_law()
    ensures { FirstLaw }
{}

/// What a follower holds of a context: rows that are found, notices, MODTIMEs, misfits, SEARCHes that succeed and that are
/// refused, and an ALERT (RFC 2244 sections 3.3 and 6.5).
pub fn following_examples()
    ensures { FollowingExamples }
{}
