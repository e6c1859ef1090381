//! A match with its row, which borrows its path from the store.
ghost use Rattle.std.specs.Prelude.{◌≡◌, IfOk};

use crate::hit::Hit;
use crate::match_key::MatchKey;
use acap_entries::{Memory, Row};
use std::alloc::Global;
use std::marker::Model;

/// An entry that is found: a hit whose path is made only where it is asked for.
#[derive(Drop)]
pub(crate) struct Found<'a> {
    /// Where it is, and where it stands for SORT.
    pub(crate) stand: MatchKey<'a>,
    /// What is printed of it.
    pub(crate) row: Row,
}

impl<'a> Model for Found<'a> {
    ghost use Rattle.acap_search.specs.Matches.{Match, match_code};

    ghost Value = { Match };

    ghost coded = { match_code };

    ghost view = { λ f. record { path = f.stand.path; places = f.stand.places; row = f.row } };
}

impl<'a> Found<'a> {
    /// As a hit. Fails only for want of memory.
    pub(crate) fn into_hit(self, alloc: Global) -> Result<Hit, Memory>
        ensures { IfOk result (λ hit. hit ≡ self.entry) }
    {
        let Found { stand, row } = self;
        let MatchKey { lying, footing } = stand;
        let path = lying.into_path()?;
        let places = footing.into_places(alloc)?;
        Ok(Hit { path, places, row })
    }

    /// What is printed of it, in the memory that it has.
    pub(crate) fn into_row(self) -> Row
        ensures { result ≡ self.entry.row }
    {
        self.row
    }
}

/// All that is found, as hits. Fails only for want of memory.
pub(crate) fn hits_of(alloc: Global, found: Vec<Found<'_>>) -> Result<Vec<Hit>, Memory>
    ensures { IfOk result (λ hits. hits.items ≡ found.entry.items) }
{
    let mut hits = Vec::with_capacity(alloc, found.len())?;
    for finding in found {
        hits.push(finding.into_hit(alloc)?)?;
    }
    Ok(hits)
}
