//! The contexts that a client follows, and the lines that apply a notice, complete one or free one.
ghost use Rattle.std.specs.Prelude.{◌≡◌, ◌↔◌, ◌≤◌, ◌<◌, Some, None, [], OnOk, OnErr, vec_len, vec_capacity};
ghost use Rattle.acap_client.specs.Following as following;
ghost use Rattle.acap_client.specs.Keeping.{IsMisfit, changed_in, freed_in, noted, kept_after, kept_upto};
ghost use Rattle.acap_client.specs.Keeping.{made_of};
ghost use Rattle.acap_client.specs.Keeping.{unplaced};

use crate::asked::Asked;
use crate::held::Held;
use crate::kept::Kept;
use crate::named::{place_of, put_in_room};
use crate::note::Note;
use crate::row::Row;
use crate::wish::Wish;
use acap_entries::ContextName;
use acap_notices::HeldFault;
use std::alloc::Global;

/// A notice of a context. `Misfit` exactly where it doesn't fit, and at a fault nothing has changed.
pub(crate) fn apply(
    alloc: Global,
    contexts: &mut Vec<(ContextName, Kept)>,
    context: &[u8],
    note: &Note,
) -> Result<(), HeldFault>
    ensures ok { OnOk result
        (changed_in (kept_after (noted note.now)) context.now contexts.old.items ≡ Some contexts.new.items) }
    ensures misfit { IsMisfit result ↔
        (changed_in (kept_after (noted note.now)) context.now contexts.old.items ≡ None) }
    ensures err { OnErr result (contexts.new.items ≡ contexts.old.items) }
{
    let Some(at) = place_of(contexts.as_slice(), context) else {
        return Err(HeldFault::Misfit);
    };
    contexts[at].1.apply(alloc, note)
}

/// All changes of a context up to a stamp were sent. `Misfit` exactly where that doesn't fit, and at a fault nothing has
/// changed.
pub(crate) fn complete(
    contexts: &mut Vec<(ContextName, Kept)>,
    context: &[u8],
) -> Result<(), HeldFault>
    ensures ok { OnOk result (changed_in kept_upto context.now contexts.old.items ≡ Some contexts.new.items) }
    ensures misfit { IsMisfit result ↔ (changed_in kept_upto context.now contexts.old.items ≡ None) }
    ensures err { OnErr result (contexts.new.items ≡ contexts.old.items) }
{
    let Some(at) = place_of(contexts.as_slice(), context) else {
        return Err(HeldFault::Misfit);
    };
    contexts[at].1.complete()
}

/// A context was freed, if it is held. Takes no memory.
pub(crate) fn free(contexts: &mut Vec<(ContextName, Kept)>, context: &[u8])
    ensures { contexts.new.items ≡ freed_in context.now contexts.old.items }
{
    if let Some(at) = place_of(contexts.as_slice(), context) {
        contexts[at].1.free();
    }
}

/// A command has succeeded: it has made a context, in the room that there is, or freed one. Takes no memory.
pub(crate) fn finish(contexts: &mut Vec<(ContextName, Kept)>, asked: Asked, room: Vec<Row>)
    requires place { vec_len contexts.old < vec_capacity contexts.old }
    requires none { room.items ≡ [] }
    requires room { unplaced asked ≤ vec_capacity room }
    ensures { contexts.new.items ≡ made_of asked contexts.old.items }
{
    match asked.into_wish() {
        Wish::Make(make, rows) => {
            let held = Held::start(rows, room, make.enumerate);
            put_in_room(contexts, make.name, Kept::start(held));
        }
        Wish::Free(name) => free(contexts, name.as_slice()),
    }
}
