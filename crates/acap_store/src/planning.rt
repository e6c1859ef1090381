//! `plan`: the change that a command makes, or why it is refused.
ghost use Rattle.std.specs.Prelude.{◌≡◌, IfOk};
ghost use Rattle.acap_commands.specs.Answers.{IsAnswer, IsCheck};
ghost use Rattle.acap_store.specs.Planning as rule;

use crate::deleting::{ending, keep_gone};
use crate::limits::{gives_large, is_too_much};
use crate::meaning::meaning;
use crate::refusing::check;
use crate::write::{ResolvedWrite, Write};
use crate::write_env::WriteEnv;
use crate::writing::write_for;
use acap_commands::{Entries, Refusal};
use acap_entries::{Change, Memory, Moment, Tree, UserName};
use acap_rights::Realm;
use std::alloc::Global;

// The moment of what is written: the change's, or where there is none, the last one.
fn choose_moment(tree: &Tree, now: Moment) -> Moment
    ensures { result ≡ rule.written_at tree.now.store now }
{
    match tree.last().after(now) {
        Some(moment) => moment,
        None => tree.last(),
    }
}

// The change of entries at a moment.
#[tactic(auto, unfolding(crate::specs::Planning::change_of, crate::specs::Deleting::deleted_by))]
fn change_of(
    alloc: Global,
    tree: &Tree,
    user: &UserName,
    entries: Entries,
    moment: Moment,
) -> Result<Change, Memory>
    ensures { IfOk result (λ change. change ≡ rule.change_of tree.now.store user.now entries moment) }
{
    let ending = ending(alloc, tree, entries.as_slice())?;
    let writes = write_for(alloc, tree, user, entries, moment)?;
    let deleted = keep_gone(alloc, tree, &writes, ending)?;
    Ok(Change {
        writes,
        moment,
        deleted,
    })
}

// That the store has room for a change, as the clock shows.
fn check_room(tree: &Tree, gives_large: bool, change: &Change, now: Moment) -> Result<(), Refusal>
    ensures { IsCheck (rule.room_refusal tree.now.store gives_large change.now.writes now) result }
{
    if is_too_much(tree, gives_large, &change.writes) {
        return Err(Refusal::Limit);
    }
    match tree.last().after(now) {
        Some(_) => Ok(()),
        None => Err(Refusal::ClockEnd),
    }
}

// The change of what a command stores, or its first refusal.
#[tactic(auto, unfolding(crate::specs::Planning::planned_for, crate::specs::Planning::refusals_of, crate::specs::Planning::change_of))]
fn plan_for(
    alloc: Global,
    by: &WriteEnv<'_>,
    meant: ResolvedWrite,
    now: Moment,
) -> Result<Change, Refusal>
    ensures { IsAnswer result (rule.planned_for by.now.store by.now.realm by.now.user meant now) }
{
    check(alloc, by, &meant)?;
    let gives_large = gives_large(meant.entries.as_slice());
    let moment = choose_moment(by.tree, now);
    let change = change_of(alloc, by.tree, by.user, meant.entries, moment)?;
    check_room(by.tree, gives_large, &change, now)?;
    Ok(change)
}

/// The change that a user's command makes of the store in a tree when the clock shows `now`, or its first refusal (RFC 2244
/// sections 3.6, 6.6.1 and 6.7). The refusals are, in this order and each over all entries before the next: `NotPermittedTwice`,
/// `Permission`, `NoExist`, `Modified`, `Invalid`, `Limit`, `ClockEnd`; and `Memory`. Nothing is changed yet.
pub fn plan(
    alloc: Global,
    tree: &Tree,
    realm: &Realm,
    user: &UserName,
    write: Write,
    now: Moment,
) -> Result<Change, Refusal>
    ensures { IsAnswer result (rule.plan tree.now.store realm.now user.now write now) }
{
    let by = WriteEnv { tree, realm, user };
    let meant = meaning(alloc, tree, user, write)?;
    plan_for(alloc, &by, meant, now)
}
