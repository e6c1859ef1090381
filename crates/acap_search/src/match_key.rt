//! The path of a match and its SORT terms, before a row is made of it.
use crate::path_ref::PathRef;
use crate::sort_key::SortKey;
use acap_entries::Path;
use std::marker::Model;

/// Where an entry that is found is, and where it stands for SORT: all that its order goes by.
#[derive(Drop)]
pub(crate) struct MatchKey<'a> {
    /// Where it is.
    pub(crate) lying: PathRef<'a>,
    /// Where it stands for SORT.
    pub(crate) footing: SortKey,
}

impl<'a> Model for MatchKey<'a> {
    ghost use Rattle.acap_search.specs.PathRefs.{path_in, places_on, untold_at};
    ghost use Rattle.acap_search.specs.Matches.{Match, match_code};

    ghost Value = { Match };

    ghost coded = { match_code };

    ghost view = { λ s. untold_at (path_in s.lying) (places_on s.footing) };
}

impl<'a> MatchKey<'a> {
    ghost use Rattle.std.specs.Prelude.{◌≡◌};

    /// Where it is.
    pub(crate) fn path(&self) -> &Path
        ensures { result.now ≡ self.now.path }
    {
        self.lying.path()
    }
}
