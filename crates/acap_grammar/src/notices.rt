//! Prints notices of contexts (RFC 2244 section 6.5).

ghost use Rattle.acap_notices.specs.Batches.{told_of};
ghost use Rattle.acap_grammar.specs.Appending.{Appends};
ghost use Rattle.acap_grammar.specs.Replies.{about_form, position_form, added_form, removed_form, changed_form, notice_form, upto_form, freed_form, told_form, tolds_form};

use crate::data::append_items;
use crate::strings::append_string;
use acap_entries::{ContextName, Label, Memory, Moment, Row, stamp};
use acap_notices::{Notice, ToldRef, Tolds};
use itoa::Buffer;

// A number after a space.
#[tactic(auto, unfolding(crate::specs::Replies::position_form))]
fn append_position(position: usize, out: &mut Vec<u8>) -> Result<(), Memory>
    ensures { Appends result out.old.items out.new.items (position_form position) }
{
    let mut digits = Buffer::new();
    out.push(b' ')?;
    out.extend_from_slice(digits.format(position).as_bytes())?;
    Ok(())
}

// The word of a line, the context, and the entry or what is sent of the context.
#[tactic(auto, unfolding(crate::specs::Replies::about_form))]
fn append_about(word: &[u8], context: &[u8], thing: &[u8], out: &mut Vec<u8>) -> Result<(), Memory>
    ensures { Appends result out.old.items out.new.items (about_form word.now context.now thing.now) }
{
    out.extend_from_slice(word)?;
    append_string(context, out)?;
    out.push(b' ')?;
    append_string(thing, out)?;
    Ok(())
}

#[tactic(auto, unfolding(crate::specs::Replies::added_form))]
fn append_added(
    context: &ContextName,
    position: usize,
    row: &Row,
    out: &mut Vec<u8>,
) -> Result<(), Memory>
    ensures { Appends result out.old.items out.new.items (added_form context.now position row.now) }
{
    append_about(b"* ADDTO ", context.as_slice(), row.name.as_slice(), out)?;
    append_position(position, out)?;
    append_items(&row.items, out)?;
    out.extend_from_slice(b"\r\n")?;
    Ok(())
}

#[tactic(auto, unfolding(crate::specs::Replies::removed_form))]
fn append_removed(
    context: &ContextName,
    entry: &Label,
    position: usize,
    out: &mut Vec<u8>,
) -> Result<(), Memory>
    ensures { Appends result out.old.items out.new.items (removed_form context.now entry.now position) }
{
    append_about(b"* REMOVEFROM ", context.as_slice(), entry.as_slice(), out)?;
    append_position(position, out)?;
    out.extend_from_slice(b"\r\n")?;
    Ok(())
}

#[tactic(auto, unfolding(crate::specs::Replies::changed_form))]
fn append_changed(
    context: &ContextName,
    old: usize,
    new: usize,
    row: &Row,
    out: &mut Vec<u8>,
) -> Result<(), Memory>
    ensures { Appends result out.old.items out.new.items (changed_form context.now old new row.now) }
{
    append_about(b"* CHANGE ", context.as_slice(), row.name.as_slice(), out)?;
    append_position(old, out)?;
    append_position(new, out)?;
    append_items(&row.items, out)?;
    out.extend_from_slice(b"\r\n")?;
    Ok(())
}

fn append_notice(context: &ContextName, notice: &Notice, out: &mut Vec<u8>) -> Result<(), Memory>
    ensures { Appends result out.old.items out.new.items (notice_form context.now notice.now) }
{
    match notice {
        Notice::AddTo { position, row } => append_added(context, *position, row, out),
        Notice::RemoveFrom { entry, position } => append_removed(context, entry, *position, out),
        Notice::Change { from, to, row } => append_changed(context, *from, *to, row, out),
    }
}

#[tactic(auto, unfolding(crate::specs::Replies::upto_form))]
fn append_upto(context: &ContextName, moment: Moment, out: &mut Vec<u8>) -> Result<(), Memory>
    ensures { Appends result out.old.items out.new.items (upto_form context.now moment) }
{
    append_about(b"* MODTIME ", context.as_slice(), &stamp(moment), out)?;
    out.extend_from_slice(b"\r\n")?;
    Ok(())
}

#[tactic(auto, unfolding(crate::specs::Replies::freed_form))]
fn append_freed(context: &ContextName, out: &mut Vec<u8>) -> Result<(), Memory>
    ensures { Appends result out.old.items out.new.items (freed_form context.now) }
{
    let mut text = Vec::from_slice(*out.allocator(), b"Context freed: ")?;
    text.extend_from_slice(context.as_slice())?;
    out.extend_from_slice(b"* ALERT ")?;
    append_string(&text, out)?;
    out.extend_from_slice(b"\r\n")?;
    Ok(())
}

fn append_told(told: &ToldRef<'_>, out: &mut Vec<u8>) -> Result<(), Memory>
    ensures { Appends result out.old.items out.new.items (told_form (told_of told.now)) }
{
    match told {
        ToldRef::Note(context, notice) => append_notice(context, notice, out),
        ToldRef::Upto(context, moment) => append_upto(context, *moment, out),
        ToldRef::Freed(context) => append_freed(context, out),
    }
}

/// A line for each.
pub(crate) fn append_tolds(tolds: &Tolds, out: &mut Vec<u8>) -> Result<(), Memory>
    ensures { Appends result out.old.items out.new.items (tolds_form tolds.now) }
{
    for told in tolds.iter() {
        append_told(&told, out)?;
    }
    Ok(())
}
