//! Who writes, and into which store.

use acap_entries::{Tree, UserName};
use acap_rights::Realm;
use std::marker::Model;

/// Who asks, and of what store.
#[derive(Drop)]
pub(crate) struct WriteEnv<'a> {
    /// The store.
    pub(crate) tree: &'a Tree,
    /// Who is who.
    pub(crate) realm: &'a Realm,
    /// The user.
    pub(crate) user: &'a UserName,
}

impl<'a> Model for WriteEnv<'a> {
    ghost use Rattle.acap_store.specs.Asking.{Asking, asking_code};

    ghost Value = { Asking };

    ghost coded = { asking_code };

    ghost view = { λ a. record { store = a.tree.now.store; realm = a.realm.now; user = a.user.now } };
}
