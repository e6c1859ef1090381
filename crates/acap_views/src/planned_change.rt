//! `PlannedChange`: a change that isn't committed yet, with the store before it and after it.
use acap_entries::{After, Change, Tree};
use acap_inherit::Reach;
use acap_rights::Realm;
use std::marker::Model;

/// A change that is about to be committed: the store before it and after it, who is who, and what decides in which
/// datasets it touches something.
#[derive(Drop)]
pub(crate) struct PlannedChange<'a, 'r> {
    pub(crate) tree: &'a Tree,
    pub(crate) change: &'a Change,
    pub(crate) after: &'a After<'a>,
    pub(crate) realm: &'a Realm,
    pub(crate) reach: &'a Reach<'r>,
}

impl<'a, 'r> Model for PlannedChange<'a, 'r> {
    ghost use Rattle.acap_views.specs.PlannedChanges.{Planned, planned_code, IsAhead};

    ghost Value = { Planned };

    ghost coded = { planned_code };

    ghost view = { λ a. record { change = a.change.now; old = a.tree.now.store; realm = a.realm.now } };

    ghost invariant = { λ a. IsAhead a.change a.tree a.after a.reach };
}
