//! The rows that a client holds after what its session is sent.
ghost use Rattle.std.specs.Prelude.{◌≡◌, Some, is_some, IfOk, IfSome, OnOk};
ghost use Rattle.std.specs.List.{list_any};
ghost use Rattle.acap_machine.specs.Client.{answered_on, client_after, makes, client_after_tolds};
ghost use Rattle.acap_machine.specs.Client.{tells_named, whole_after, whole_over};
ghost use Rattle.acap_entries.specs.Orders.{octets_eq};
ghost use Rattle.acap_moves.specs.Hits.{is_among};
ghost use Rattle.acap_notices.specs.Batches.{told_of};
ghost use Rattle.acap_notices.specs.Holding.{holding_after_all};
ghost use Rattle.acap_views.specs.Clients.{notice_for, notices_for};
ghost use Rattle.acap_examples.specs.Followed.{IsBegun, updates};

use crate::story_fault::StoryFault;
use acap_commands::{Command, Event, MakeContext, Said, Search, SearchReply, Target, Tolds};
use acap_entries::ContextName;
use acap_notices::{Held, ToldRef, is_each_once};
use std::alloc::Global;

// Whether one of some names is that.
fn any_is(name: &ContextName, names: &[ContextName]) -> bool
    ensures { result ≡ list_any (λ other. octets_eq name.now other) names.now }
{
    names.iter().any(|other| *name == *other)
}

// Whether a name is among others.
fn is_among(name: &ContextName, names: &[ContextName]) -> bool
    ensures { result ≡ is_among name.now names.now }
{
    any_is(name, names)
}

// Whether an event is an UPDATECONTEXT of a name.
fn names(name: &ContextName, event: &Event) -> bool
    ensures { result ≡ tells_named name.now event.now }
{
    match event {
        Event::Command(Command::UpdateContext(names)) => is_among(name, names.as_slice()),
        _ => false,
    }
}

/// Whether an UPDATECONTEXT of a name ends in what is said to an event.
pub(crate) fn updates(name: &ContextName, event: &Event, said: &Said) -> bool
    ensures { result ≡ updates name.now event.now said.now }
{
    match said {
        Said::Updated(_) => names(name, event),
        _ => false,
    }
}

// The context of a name that a SEARCH makes, if it makes that.
fn find_make<'a>(name: &ContextName, search: &'a Search) -> Option<&'a MakeContext>
    ensures makes { is_some result ≡ makes name.now search.now }
    ensures which { IfSome result (λ make. search.now.modifiers.make_context ≡ Some make.now) }
{
    let Target::Dataset(_) = &search.target else {
        return None;
    };
    match &search.modifiers.make_context {
        Some(make) if make.name == *name => Some(make),
        _ => None,
    }
}

// What a client holds that begins with the rows of a SEARCH, if these are all.
fn begin(
    alloc: Global,
    make: &MakeContext,
    search: &Search,
    found: SearchReply,
) -> Result<Option<Held>, StoryFault>
    ensures { IfOk result (λ held. IsBegun search.now found make.now held) }
{
    if search.modifiers.returns.is_none() || found.total.is_some() {
        return Ok(None);
    }
    if !is_each_once(found.rows.as_slice()) {
        return Err(StoryFault::Twice);
    }
    match found.rows.into_own(alloc) {
        Ok(rows) => Ok(Some(Held::start(rows, make.enumerate))),
        Err(_) => Err(StoryFault::Memory),
    }
}

// What it holds after a SEARCH.
fn hear_search(
    alloc: Global,
    held: Option<Held>,
    name: &ContextName,
    event: &Event,
    found: SearchReply,
) -> Result<Option<Held>, StoryFault>
    ensures held { IfOk result (λ after. after ≡ answered_on name.now event.now found held) }
    ensures whole { IfOk result (λ after.
        is_some after ≡ whole_over name.now event.now found (is_some held)) }
{
    match event {
        Event::Command(Command::Search(search)) => match find_make(name, search.get()) {
            Some(make) => begin(alloc, make, search.get(), found),
            None => Ok(held),
        },
        _ => Ok(held),
    }
}

// What a client holds after what is sent, if all notices of its context fit.
fn notice(held: &mut Held, name: &ContextName, tolds: &Tolds) -> Result<(), StoryFault>
    ensures { OnOk result (holding_after_all held.old (notices_for name.now tolds.now) ≡ Some held.new) }
{
    for told in tolds.iter() {
        apply(held, name, &told)?;
    }
    Ok(())
}

// The same after one thing that is sent.
fn apply(held: &mut Held, name: &ContextName, told: &ToldRef<'_>) -> Result<(), StoryFault>
    ensures { OnOk result
        (holding_after_all held.old (notice_for name.now (told_of told.now)) ≡ Some held.new) }
{
    match told {
        ToldRef::Note(context, notice) => {
            if *name == **context {
                held.apply(*notice)?;
            }
            Ok(())
        }
        ToldRef::Upto(_, _) => Ok(()),
        ToldRef::Freed(_) => Ok(()),
    }
}

// What a client holds after what is sent, if it holds anything.
fn hear_notices(
    held: Option<Held>,
    name: &ContextName,
    tolds: Tolds,
) -> Result<Option<Held>, StoryFault>
    ensures held { IfOk result (λ after. after ≡ client_after_tolds name.now tolds held) }
    ensures whole { IfOk result (λ after. is_some after ≡ is_some held) }
{
    match held {
        Some(mut held) => {
            notice(&mut held, name, &tolds)?;
            Ok(Some(held))
        }
        None => Ok(None),
    }
}

/// What the client of the context of a name holds after an event of its seat and what was said to it. Where a notice doesn't fit, that
/// is reported as a failure.
pub(crate) fn hold_after(
    alloc: Global,
    held: Option<Held>,
    name: &ContextName,
    event: &Event,
    said: Said,
) -> Result<Option<Held>, StoryFault>
    ensures held { IfOk result (λ after. after ≡ client_after name.now event.now said held) }
    ensures whole { IfOk result (λ after.
        is_some after ≡ whole_after name.now event.now said (is_some held)) }
{
    match said {
        Said::Searched(found) => hear_search(alloc, held, name, event, found),
        Said::Updated(tolds) => hear_notices(held, name, tolds),
        Said::Drained(tolds) => hear_notices(held, name, tolds),
        _ => Ok(held),
    }
}
