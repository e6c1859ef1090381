//! What a walk needs at each entry: the store, the groups, the user and the query.
use crate::query::SearchSpec;
use acap_entries::{Tree, UserName};
use acap_rights::Realm;
use std::marker::Model;

/// Whose search it is, over which store, and what it looks for.
#[derive(Drop)]
pub(crate) struct Walk<'a> {
    /// The store.
    pub(crate) tree: &'a Tree,
    /// Who is who.
    pub(crate) realm: &'a Realm,
    /// The user who searches.
    pub(crate) user: &'a UserName,
    /// What is looked for.
    pub(crate) sought: &'a SearchSpec,
}

impl<'a> Model for Walk<'a> {
    ghost use Rattle.acap_search.specs.Walks.{Walk, quest_code};

    ghost Value = { Walk };

    ghost coded = { quest_code };

    ghost view = { λ s. record {
      records = s.tree.now.store.records;
      realm = s.realm.now;
      user = s.user.now;
      sought = s.sought.now;
    } };
}
