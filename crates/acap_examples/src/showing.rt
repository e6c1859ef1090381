//! `show`: runs a story, and gives what its client holds in the end, with the premises that were checked.
ghost use Rattle.std.specs.Prelude.{◌≡◌, [], IfOk, IsTrue};
ghost use Rattle.acap_examples.specs.Stories.{Shows, ShowsRows, telling_of};
ghost use Rattle.acap_session.specs.World.{new_world};

use crate::following::follow;
use crate::story::Story;
use crate::story_fault::StoryFault;
use acap_entries::{Octets, Row, Steps};
use acap_login::Users;
use acap_notices::Held;
use acap_rights::Realm;
use acap_session::World;
use std::alloc::Global;
use std::sync::ledger::Ledger;

// The world before the first step, into which nobody logs in by a secret.
fn begin(alloc: Global, realm: Realm, host: Octets) -> World
    ensures { result ≡ new_world realm [] host }
{
    World::new(alloc, realm, Users::new(Vec::new(alloc)), host)
}

/// Runs a story, and gives what the client of its context then holds. All premises of the law of such clients (`live_law` of
/// `acap_session`) hold of it: where one doesn't, or memory is refused, nothing is given.
pub fn show<L: Ledger>(
    alloc: Global,
    story: Story,
    steps: &mut Steps<L>,
) -> Result<Held, StoryFault>
    ensures { IfOk result (λ held. Shows (telling_of story) held) }
{
    let Story {
        realm,
        host,
        steps: before,
        last,
        seat,
        name,
    } = story;
    let mut world = begin(alloc, realm, host);
    let mut held = None;
    for step in before {
        let (_tells, after) = follow(alloc, &mut world, held, seat, &name, step, steps)?;
        held = after;
    }
    let (tells, after) = follow(alloc, &mut world, held, seat, &name, last, steps)?;
    if !tells {
        return Err(StoryFault::Untold);
    }
    after.ok_or(StoryFault::Unbegun)
}

/// Whether the client of a story's context holds these rows at its end, in their order where it has positions.
/// Where a premise of the law doesn't hold, or memory is refused, that is reported instead. Without positions the
/// rows are compared in the order in which they are held, and so `false` says nothing there.
pub fn shows<L: Ledger>(
    alloc: Global,
    story: Story,
    rows: &[Row],
    steps: &mut Steps<L>,
) -> Result<bool, StoryFault>
    ensures { IfOk result (λ same. IsTrue same → ShowsRows (telling_of story) rows.now) }
{
    let held = show(alloc, story, steps)?;
    Ok(held.rows() == rows)
}
