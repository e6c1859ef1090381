//! LIMIT: how many of the matches are printed.
ghost use Rattle.std.specs.Prelude.{◌≡◌};
ghost use Rattle.acap_search.specs.Cutting as rule;

use acap_commands::Limit;

/// How many of the matches of a SEARCH are printed (RFC 2244 section 6.4.1).
#[derive(Clone, Copy, PartialEq, Eq)]
pub struct Cut {
    /// How many are printed, from the first on.
    pub told: usize,
    /// How many there are in all, which TOOMANY says where LIMIT keeps some back.
    pub total: Option<usize>,
}

/// How many of `count` matches are printed: where there are more than the first number of LIMIT, as many as its second number says
/// (RFC 2244 section 6.4.1).
pub fn cut_by(limit: Option<Limit>, count: usize) -> Cut
    ensures { result ≡ rule.cut_of limit count }
{
    match limit {
        Some(Limit { over, most }) if count > over as usize => Cut {
            told: count.min(most as usize),
            total: Some(count),
        },
        _ => Cut {
            told: count,
            total: None,
        },
    }
}

/// How many matches of a SEARCH are printed at most, whatever their number: the greater of both numbers of
/// LIMIT.
pub(crate) fn most_told(limit: Option<Limit>) -> usize
    ensures { result ≡ rule.most_told limit }
{
    match limit {
        Some(Limit { over, most }) => over.max(most) as usize,
        None => usize::MAX,
    }
}
