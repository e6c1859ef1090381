//! The touched paths and datasets of a change, kept for the next context that asks.
use crate::shared_rights::CachedRights;
use acap_entries::{Boxed, Dataset, Paths, Ranked};

/// A dataset that a context looks into, and the entries in it that a change touches.
#[derive(Drop)]
pub(crate) struct CachedPaths<'a> {
    pub(crate) dataset: &'a [u8],
    pub(crate) paths: Paths,
}

/// What was made for one context and serves the next ones: the touched entries of the last dataset that was
/// asked, since the next context often looks into the same one, the rights that its entries share, and for all
/// contexts with DEPTH the datasets in which something may be touched.
#[derive(Drop)]
pub(crate) struct TouchedCache<'a> {
    pub(crate) last: Option<CachedPaths<'a>>,
    pub(crate) datasets: Option<Ranked<Boxed<Dataset>>>,
    pub(crate) shares: Option<CachedRights<'a>>,
}

impl<'a> TouchedCache<'a> {
    ghost use Rattle.std.specs.Prelude.{◌≡◌, None};

    /// Nothing was listed yet.
    pub(crate) fn nothing() -> TouchedCache<'a>
        ensures last { result.last ≡ None }
        ensures datasets { result.datasets ≡ None }
        ensures shares { result.shares ≡ None }
    {
        TouchedCache {
            last: None,
            datasets: None,
            shares: None,
        }
    }
}
