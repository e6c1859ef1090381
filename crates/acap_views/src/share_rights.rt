//! The rights that the entries of a dataset share, worked out once for several contexts.
ghost use Rattle.std.specs.Prelude.{◌≡◌, IfOk, IsTrue, OnOk};
ghost use Rattle.std.specs.Option.{ForSome};
ghost use Rattle.acap_search.specs.RecordCaches.{IsPlain};
ghost use Rattle.acap_views.specs.ContextViews.{own_view, view_before, view_after};
ghost use Rattle.acap_views.specs.SharedRights as rule;
ghost use Rattle.acap_views.specs.SharedRights.{AreLentFor, scene_by};
ghost use Rattle.acap_views.specs.Touching.{AreNotedFor, IsNoted};

use crate::planned_change::PlannedChange;
use crate::shared_rights::{CachedRights, LentRightsPair, RightsPair};
use crate::touched_cache::TouchedCache;
use acap_entries::{Memory, Records, UserName, is_same};
use acap_inherit::chain_unless;
use acap_rights::{Realm, SharedRights};
use acap_search::{DatasetView, SearchSpec, share_rights};
use std::alloc::Global;

// The rights that the entries of the dataset share among some records, where it inherits nothing.
fn share_in<R: Records>(
    alloc: Global,
    records: &R,
    realm: &Realm,
    user: &UserName,
    sought: &SearchSpec,
) -> Result<Option<SharedRights>, Memory>
    ensures { IfOk result (λ made.
        ForSome made (IsPlain (own_view (R.store records.now).records realm.now user.now sought.now))) }
{
    let by = DatasetView {
        records,
        realm,
        user,
        dataset: &sought.dataset,
        chain: chain_unless(records, &sought.dataset, sought.no_inherit),
    };
    share_rights(alloc, &by)
}

// Those of the dataset that a context looks into: of before the change where its entries are sorted alone.
fn shares_of(
    alloc: Global,
    ahead: &PlannedChange<'_, '_>,
    user: &UserName,
    sought: &SearchSpec,
) -> Result<RightsPair, Memory>
    ensures before { IfOk result (λ made.
        ForSome made.before (IsPlain (view_before (scene_by ahead.now user.now sought.now)))) }
    ensures after { IfOk result (λ made.
        ForSome made.after (IsPlain (view_after (scene_by ahead.now user.now sought.now)))) }
{
    let before = if sought.sort.is_some() {
        share_in(alloc, ahead.tree, ahead.realm, user, sought)?
    } else {
        None
    };
    let after = share_in(alloc, ahead.after, ahead.realm, user, sought)?;
    Ok(RightsPair { before, after })
}

// Whether those that were made are of a context: of its user and its dataset, and all that it needs.
fn are_of(noted: &CachedRights<'_>, user: &UserName, sought: &SearchSpec) -> bool
    ensures { IsTrue result → rule.AreOf noted.now user.now sought.now }
{
    noted.no_inherit == sought.no_inherit
        && (noted.is_sorted || sought.sort.is_none())
        && is_same(noted.dataset.as_slice(), sought.dataset.as_slice())
        && is_same(noted.user.as_slice(), user.as_slice())
}

/// Whether the rights that are kept, if any are, were made for such a context.
pub(crate) fn are_noted(noted: &TouchedCache<'_>, user: &UserName, sought: &SearchSpec) -> bool
    ensures { IsTrue result → AreNotedFor user.now sought.now noted.now }
{
    match &noted.shares {
        Some(known) => are_of(known, user, sought),
        None => false,
    }
}

/// Makes the rights that the entries of a context's dataset share. Fails only for want of memory.
pub(crate) fn note_shares<'a>(
    alloc: Global,
    ahead: &PlannedChange<'_, '_>,
    user: &'a UserName,
    sought: &'a SearchSpec,
    noted: &mut TouchedCache<'a>,
) -> Result<(), Memory>
    requires { IsNoted ahead.now noted.old }
    ensures noted { IsNoted ahead.now noted.new }
    ensures made { OnOk result (AreNotedFor user.now sought.now noted.new) }
{
    noted.shares = Some(CachedRights {
        user,
        dataset: &sought.dataset,
        no_inherit: sought.no_inherit,
        is_sorted: sought.sort.is_some(),
        shares: shares_of(alloc, ahead, user, sought)?,
    });
    Ok(())
}

/// Those that were made for a context. Takes no memory.
pub(crate) fn lend_shares<'n>(
    ahead: &PlannedChange<'_, '_>,
    noted: &'n TouchedCache<'_>,
    user: &UserName,
    sought: &SearchSpec,
) -> LentRightsPair<'n>
    requires noted { IsNoted ahead.now noted.now }
    requires made { AreNotedFor user.now sought.now noted.now }
    ensures { AreLentFor (scene_by ahead.now user.now sought.now) result }
{
    match &noted.shares {
        Some(known) => LentRightsPair {
            before: known.shares.before.as_ref(),
            after: known.shares.after.as_ref(),
        },
        None => LentRightsPair::nothing(),
    }
}
