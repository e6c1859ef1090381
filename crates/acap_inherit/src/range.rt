//! The records of one dataset, name after name.
ghost use Rattle.std.specs.Prelude.{◌≡◌, map, slice_get};
ghost use Rattle.std.specs.Option.{option_copied};
ghost use Rattle.acap_inherit.specs.Merging.{past_name};

use acap_entries::{EntryName, Listing};
use std::marker::Model;

/// Names of records, seen as the list of those that are still to come.
#[derive(Default, Drop)]
pub(crate) struct Range<'a> {
    left: Option<(&'a EntryName, Listing<'a>)>,
}

impl<'a> Model for Range<'a> {
    ghost use Rattle.std.specs.Prelude.{ℕ, List, [], ◌∷◌, map};
    ghost use Rattle.std.specs.Option.{option_map_or};

    ghost Value = { List (List ℕ) };

    ghost view = { λ r. option_map_or (λ left. left.0.now ∷ map (λ e. e.0.name) left.1) r.left [] };
}

impl<'a> Range<'a> {
    /// The names of those records.
    pub(crate) fn of(mut records: Listing<'a>) -> Range<'a>
        ensures { result ≡ map (λ e. e.0.name) records.entry }
    {
        match records.next() {
            Some((path, _)) => Range {
                left: Some((&path.name, records)),
            },
            None => Range { left: None },
        }
    }

    /// The first of them.
    pub(crate) fn first(&self) -> Option<&'a EntryName>
        ensures { option_copied result ≡ slice_get self.now 0 }
    {
        match &self.left {
            Some((first, _)) => Some(*first),
            None => None,
        }
    }

    /// Passes a name, if it is the first.
    pub(crate) fn pass(&mut self, name: &EntryName)
        ensures { self.new ≡ past_name name.now self.old }
    {
        if self.first() == Some(name)
            && let Some((_, records)) = self.left.take()
        {
            *self = Range::of(records);
        }
    }
}
