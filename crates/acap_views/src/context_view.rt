//! One context as a change meets it: its user, its query, and the store before and after.
ghost use Rattle.std.specs.Prelude.{◌≡◌, IsTrue};
ghost use Rattle.acap_views.specs.ContextViews as rule;
ghost use Rattle.acap_views.specs.ContextViews.{IsAlone};

use crate::first_written::FirstWritten;
use crate::with_record::WithRecord;
use acap_entries::{After, Tree, UserName};
use acap_inherit::chain_unless;
use acap_rights::Realm;
use acap_search::{DatasetView, SearchSpec};
use std::marker::Model;

/// What is looked at for a context: the store before a change and after it, the latter also as the change alone
/// says it, what the change writes first, who is who, whose context it is, and what it looks for.
#[derive(Drop)]
pub(crate) struct ContextView<'a> {
    pub(crate) before: &'a Tree,
    pub(crate) ahead: &'a After<'a>,
    pub(crate) first: Option<FirstWritten<'a>>,
    pub(crate) after: &'a WithRecord<'a, WithRecord<'a, After<'a>>>,
    pub(crate) realm: &'a Realm,
    pub(crate) user: &'a UserName,
    pub(crate) sought: &'a SearchSpec,
}

impl<'a> Model for ContextView<'a> {
    ghost use Rattle.acap_views.specs.ContextViews as scenes;
    ghost use Rattle.acap_views.specs.ContextViews.{scene_code, IsBetween};

    ghost Value = { scenes.ContextView };

    ghost coded = { scene_code };

    ghost view = { λ s. record {
      old = s.before.now.store.records;
      new = s.after.now.records;
      realm = s.realm.now;
      user = s.user.now;
      sought = s.sought.now;
    } };

    ghost invariant = { λ s. IsBetween s.before.now.store.records s.after.now.records s.ahead s.first };
}

impl<'a> ContextView<'a> {
    /// Who looks into the context's dataset before the change, where it may be known that it inherits nothing.
    /// Takes no memory.
    pub(crate) fn view_before(&'a self, is_alone: bool) -> DatasetView<'a, Tree>
        requires { IsTrue is_alone → IsAlone (rule.view_before self.now) }
        ensures { result ≡ rule.view_before self.now }
    {
        let sought = self.sought;
        DatasetView {
            records: self.before,
            realm: self.realm,
            user: self.user,
            dataset: &sought.dataset,
            chain: chain_unless(self.before, &sought.dataset, is_alone || sought.no_inherit),
        }
    }

    /// Who looks into it afterwards, in the same way. Takes no memory.
    pub(crate) fn view_after(
        &'a self,
        is_alone: bool,
    ) -> DatasetView<'a, WithRecord<'a, WithRecord<'a, After<'a>>>>
        requires { IsTrue is_alone → IsAlone (rule.view_after self.now) }
        ensures { result ≡ rule.view_after self.now }
    {
        let sought = self.sought;
        DatasetView {
            records: self.after,
            realm: self.realm,
            user: self.user,
            dataset: &sought.dataset,
            chain: chain_unless(self.after, &sought.dataset, is_alone || sought.no_inherit),
        }
    }
}
