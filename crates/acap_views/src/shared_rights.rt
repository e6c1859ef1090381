//! The rights that the entries of a dataset share, before a change and after it.
use acap_entries::{Dataset, UserName};
use acap_rights::SharedRights;

/// The rights that the entries of a dataset share, before a change and afterwards, where it inherits nothing.
#[derive(Drop)]
pub(crate) struct RightsPair {
    pub(crate) before: Option<SharedRights>,
    pub(crate) after: Option<SharedRights>,
}

/// The same, as they are lent.
#[derive(Clone, Copy)]
pub(crate) struct LentRightsPair<'a> {
    pub(crate) before: Option<&'a SharedRights>,
    pub(crate) after: Option<&'a SharedRights>,
}

impl<'a> LentRightsPair<'a> {
    ghost use Rattle.std.specs.Prelude.{◌≡◌, None};

    /// Where none are at hand.
    pub(crate) fn nothing() -> LentRightsPair<'a>
        ensures before { result.before ≡ None }
        ensures after { result.after ≡ None }
    {
        LentRightsPair {
            before: None,
            after: None,
        }
    }
}

/// Those of a user and a dataset, made for one context: the next one often is of the same user and looks into
/// the same dataset.
#[derive(Drop)]
pub(crate) struct CachedRights<'a> {
    pub(crate) user: &'a UserName,
    pub(crate) dataset: &'a Dataset,
    pub(crate) no_inherit: bool,
    pub(crate) is_sorted: bool,
    pub(crate) shares: RightsPair,
}
