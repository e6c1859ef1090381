//! The commands whose completions haven't come yet, by their tags.
ghost use Rattle.std.specs.Prelude.{◌≡◌, OnOk, OnErr};
ghost use Rattle.acap_client.specs.Arguments.{data_in};
ghost use Rattle.acap_client.specs.Following as following;
ghost use Rattle.acap_client.specs.Following.{row_of};
ghost use Rattle.acap_client.specs.Keeping.{done_in, row_added};

use crate::asked::Asked;
use crate::contexts::finish;
use crate::data::Data;
use crate::kept::Kept;
use crate::named::{place_of, put_in_room, take_out};
use acap_entries::{ContextName, Label, Memory};
use std::alloc::Global;

/// A command is sent under a tag. At a fault nothing has changed.
pub(crate) fn ask(
    alloc: Global,
    waiting: &mut Vec<(Label, Asked)>,
    tag: &[u8],
    asked: Asked,
) -> Result<(), Memory>
    ensures ok { OnOk result (waiting.new.items ≡ following.put tag.now asked waiting.old.items) }
    ensures err { OnErr result (waiting.new.items ≡ waiting.old.items) }
{
    let tag = Label::from_slice(alloc, tag)?;
    waiting.reserve(1)?;
    put_in_room(waiting, tag, asked);
    Ok(())
}

/// A row has come under a tag. At a fault nothing has changed.
pub(crate) fn add(
    alloc: Global,
    waiting: &mut Vec<(Label, Asked)>,
    tag: &[u8],
    name: &[u8],
    items: &Data,
) -> Result<(), Memory>
    ensures ok { OnOk result (waiting.new.items
        ≡ row_added tag.now (row_of name.now (data_in items.now)) waiting.old.items) }
    ensures err { OnErr result (waiting.new.items ≡ waiting.old.items) }
{
    let Some(at) = place_of(waiting.as_slice(), tag) else {
        return Ok(());
    };
    waiting[at].1.add(alloc, name, items)
}

/// The command of a tag has succeeded. At a fault nothing has changed.
pub(crate) fn succeed(
    alloc: Global,
    waiting: &mut Vec<(Label, Asked)>,
    contexts: &mut Vec<(ContextName, Kept)>,
    tag: &[u8],
) -> Result<(), Memory>
    ensures contexts { OnOk result (contexts.new.items
        ≡ done_in (following.look_up tag.now waiting.old.items) contexts.old.items) }
    ensures waiting { OnOk result (waiting.new.items ≡ following.without tag.now waiting.old.items) }
    ensures same { OnErr result (contexts.new.items ≡ contexts.old.items) }
    ensures err { OnErr result (waiting.new.items ≡ waiting.old.items) }
{
    let Some(at) = place_of(waiting.as_slice(), tag) else {
        return Ok(());
    };
    contexts.reserve(1)?;
    let room = waiting[at].1.prepare(alloc)?;
    let (_, asked) = waiting.remove(at);
    take_out(waiting, tag);
    finish(contexts, asked, room);
    Ok(())
}
