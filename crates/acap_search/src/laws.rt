//! What follows from the definitions alone: the contract of each function is the law, and its body names
//! at most a law of the crates below.
ghost use Rattle.acap_search.specs.Examples.{KeyExamples, OrderExamples, ScopeExamples, LimitExamples, SightExamples, RowExamples};
ghost use Rattle.acap_search.specs.Once.{OnceLaw, ScopeLaw};
ghost use Rattle.acap_search.specs.Withheld.{WithheldLaw};
ghost use Rattle.acap_search.specs.Laws.{AclLaw, FreshLaw, SeenLaw, SightLaw, StarLaw, PlaceLaw, TupleLaw};
ghost use Rattle.acap_search.specs.Named.{NameLaw};
ghost use Rattle.acap_search.specs.Touched.{TouchedLaw};

use acap_inherit::{names_law, nothing_law, reading_law, unread_law};

/// What a search finds depends on nothing but the four answers about what the user sees (RFC 2244 section 3.5).
pub fn sight_law()
    ensures { SightLaw }
{
    nothing_law();
}

/// A value on which a user holds neither x nor r makes no difference to what the user sees, finds and is refused (RFC 2244
/// section 3.5).
pub fn withheld_law()
    ensures { WithheldLaw }
{
    reading_law();
    sight_law();
}

/// Which datasets of a sound store a search looks through, each once (RFC 2244 section 6.4.1).
pub fn scope_law()
    ensures { ScopeLaw }
{}

/// In a sound store what is in sight comes once, each name of what is found does, and matches that tie have one path.
pub fn once_law()
    ensures { OnceLaw }
{
    nothing_law();
    names_law();
}

/// Which entries are in sight (RFC 2244 sections 3.5 and 6.4.1).
pub fn seen_law()
    ensures { SeenLaw }
{
    nothing_law();
    names_law();
}

/// Which paths have a tuple, and which one: what `row_of` makes of an entry in the scope is its tuple (RFC
/// 2244 section 6.4.1).
pub fn tuple_law()
    ensures { TupleLaw }
{
    nothing_law();
    names_law();
}

/// An entry that a key wants which gives the only name has that name (RFC 2244 section 6.4.1).
pub fn name_law()
    ensures { NameLaw }
{}

/// What a change doesn't touch is found, or not, as before it (RFC 2244 sections 5.1, 5.2 and 6.4.1).
pub fn touched_law()
    ensures { TouchedLaw }
{
    nothing_law();
    names_law();
    unread_law();
}

/// What a search finds is what is matched, in order (RFC 2244 section 6.4.1).
pub fn fresh_law()
    ensures { FreshLaw }
{}

/// Which attributes a name with `*` lists (RFC 2244 section 6.4.1).
pub fn star_law()
    ensures { StarLaw }
{
    nothing_law();
}

/// Which list is printed of an attribute (RFC 2244 section 3.5).
pub fn acl_law()
    ensures { AclLaw }
{}

/// In which order SORT puts entries (RFC 2244 sections 3.4 and 6.4.1).
pub fn place_law()
    ensures { PlaceLaw }
{}

/// Which entries keys want, one for each case (RFC 2244 section 6.4.1).
pub fn key_examples()
    ensures { KeyExamples }
{}

/// Orders of values and of paths, one for each case.
pub fn order_examples()
    ensures { OrderExamples }
{}

/// How deep a search looks, and how entries are named.
pub fn scope_examples()
    ensures { ScopeExamples }
{}

/// How many matches are printed, and when there are too many.
pub fn limit_examples()
    ensures { LimitExamples }
{}

/// What is seen of a value and of an entry, by the rights there, and where it then stands.
pub fn sight_examples()
    ensures { SightExamples }
{}

/// What a RETURN prints of an attribute (RFC 2244 section 6.4.1).
pub fn row_examples()
    ensures { RowExamples }
{}
