//! One entry as a user sees it, with the record and rights that were looked up already.

use crate::cached::{ChainRights, OwnRecord};
use crate::dataset_view::DatasetView;
use acap_entries::{EntryName, Records};
use std::marker::Model;

/// An entry that is looked at by its name. Where its dataset inherits nothing, its record and the rights that it shares
/// may be at hand: the store is then asked for neither. Where it inherits, the rights along its chain may be.
#[derive(Drop)]
pub(crate) struct EntryView<'a, R: Records> {
    /// Who looks, and from where.
    pub(crate) by: &'a DatasetView<'a, R>,
    /// The entry's name.
    pub(crate) name: &'a EntryName,
    /// What is at hand of it.
    pub(crate) kept: Option<OwnRecord<'a>>,
    /// The rights that are at hand along its dataset's chain.
    pub(crate) along: Option<ChainRights<'a>>,
}

impl<'a, R: Records> Model for EntryView<'a, R> {
    ghost use Rattle.acap_search.specs.RecordCaches.{IsAtHandOf};
    ghost use Rattle.acap_search.specs.Views.{Spotted, spot_in, spotted_code};

    ghost Value = { Spotted };

    ghost coded = { spotted_code };

    ghost view = { λ s. spot_in s.by.now s.name.now };

    ghost invariant = { λ s. IsAtHandOf (spot_in s.by.now s.name.now) s.kept s.along };
}

impl<'a, R: Records> EntryView<'a, R> {
    ghost use Rattle.std.specs.Prelude.{◌≡◌, Some};
    ghost use Rattle.acap_search.specs.RecordCaches.{AreAlong, IsNear};
    ghost use Rattle.acap_search.specs.Views.{spot_in};

    /// An entry of which nothing is at hand.
    pub(crate) fn far(by: &'a DatasetView<'a, R>, name: &'a EntryName) -> EntryView<'a, R>
        ensures { result ≡ spot_in by.now name.now }
    {
        EntryView::along(by, name, None)
    }

    /// An entry whose record is at hand, with the rights that it shares.
    pub(crate) fn near(
        by: &'a DatasetView<'a, R>,
        name: &'a EntryName,
        kept: OwnRecord<'a>,
    ) -> EntryView<'a, R>
        requires { IsNear (spot_in by.now name.now) (Some kept) }
        ensures { result ≡ spot_in by.now name.now }
    {
        EntryView {
            by,
            name,
            kept: Some(kept),
            along: None,
        }
    }

    /// An entry of which no record is at hand. The rights along its dataset's chain may be.
    pub(crate) fn along(
        by: &'a DatasetView<'a, R>,
        name: &'a EntryName,
        along: Option<ChainRights<'a>>,
    ) -> EntryView<'a, R>
        requires { AreAlong by.now along }
        ensures { result ≡ spot_in by.now name.now }
    {
        EntryView {
            by,
            name,
            kept: None,
            along,
        }
    }
}
