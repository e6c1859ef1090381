//! A list that is followed: the SEARCH that makes it, and its rows and changes as lines that are printed (RFC 2244 sections 3.3, 6.4.1
//! and 6.5).

ghost use Rattle.std.specs.Prelude.{◌≡◌, ◌++◌, IfOk, OnOk, flat_map, option_map};
ghost use Rattle.acap_client.specs.Arguments.{data_in, value_in};
ghost use Rattle.acap_client.specs.Saying.{said};
ghost use Rattle.acap_shell.specs.Rows.{cell, first_texts, values};
ghost use Rattle.acap_shell.specs.Searches.{value_of};
ghost use Rattle.acap_shell.specs.Watching as watching;

use crate::both::both;
use crate::escapes::print_octets;
use crate::form::Form;
use crate::searches;
use crate::searches::{OCTET, but_management, search};
use acap_client::{Data, Line, Number};
use acap_commands::{Command, MakeContext, SearchModifiers, SortItem, SortItems};
use acap_entries::{Attribute, ContextName, Dataset, Memory};
use itoa::Buffer;
use std::alloc::Global;

/// The items of a SORT by this attribute, octet by octet.
fn sorted_by(alloc: Global, attribute: Attribute) -> Result<SortItems, Memory>
    ensures { IfOk result (λ made. made ≡ watching.sorted_by attribute) }
{
    let mut items = SortItems::new(alloc);
    items.push(SortItem {
        attribute,
        comparator: OCTET,
    })?;
    Ok(items)
}

/// The items of a SORT, if an attribute is given.
fn sort_of(alloc: Global, attribute: Option<Attribute>) -> Result<Option<SortItems>, Memory>
    ensures { IfOk result (λ made. made ≡ option_map watching.sorted_by attribute) }
{
    match attribute {
        Some(attribute) => Ok(Some(sorted_by(alloc, attribute)?)),
        None => Ok(None),
    }
}

/// The value of an attribute, or the names of entries.
fn shown(alloc: Global, attribute: Option<Attribute>) -> Result<SearchModifiers, Memory>
    ensures { IfOk result (λ made. made ≡ value_of (watching.attribute_or_name attribute)) }
{
    match attribute {
        Some(attribute) => searches::value_of(alloc, attribute),
        None => searches::names(alloc),
    }
}

/// What is printed of entries, and in which order, by a context that follows the store.
fn followed(
    alloc: Global,
    context: ContextName,
    attribute: Option<Attribute>,
    sort: Option<Attribute>,
) -> Result<SearchModifiers, Memory>
    ensures { IfOk result (λ made. made ≡ watching.modifiers context attribute sort) }
{
    let (mut modifiers, sort) = both(shown(alloc, attribute), sort_of(alloc, sort))?;
    modifiers.make_context = Some(MakeContext {
        enumerate: true,
        notify: true,
        name: context,
    });
    modifiers.sort = sort;
    Ok(modifiers)
}

/// The SEARCH that makes a context of this name of the entries of a dataset but its management entry, which follows the store. Its
/// rows have the value of an attribute, or the names of the entries, and are sorted by an attribute if one is given. Fails only
/// for want of memory.
pub fn watch(
    alloc: Global,
    dataset: Dataset,
    context: ContextName,
    attribute: Option<Attribute>,
    sort: Option<Attribute>,
) -> Result<Command, Memory>
    ensures { IfOk result (λ made. made ≡ watching.watch dataset context attribute sort) }
{
    let modifiers = followed(alloc, context, attribute, sort);
    let (modifiers, key) = both(modifiers, but_management(alloc))?;
    search(alloc, dataset, modifiers, key)
}

/// Adds a TAB and a value.
fn print_cell(out: &mut Vec<u8>, form: Form, value: &[u8]) -> Result<(), Memory>
    ensures { OnOk result (out.new.items ≡ out.old.items ++ cell form value.now) }
{
    out.push(b'\t')?;
    print_octets(out, form, value)
}

/// Adds each string that stands first, after a TAB each.
fn print_texts(out: &mut Vec<u8>, form: Form, texts: &Data) -> Result<(), Memory>
    ensures { OnOk result (out.new.items
        ≡ out.old.items ++ flat_map (cell form) (first_texts (data_in texts.now))) }
{
    let mut left = *texts;
    'texts: while let Some((text, others)) = left.text() {
        print_cell(out, form, text)?;
        left = others;
    }
    Ok(())
}

/// Adds the values of an attribute, after a TAB each.
fn print_values(out: &mut Vec<u8>, form: Form, items: &Data) -> Result<(), Memory>
    ensures { OnOk result (out.new.items
        ≡ out.old.items ++ flat_map (cell form) (values (data_in items.now))) }
{
    match items.group() {
        Some((list, _)) => print_texts(out, form, &list),
        None => match items.text() {
            Some((text, _)) => print_cell(out, form, text),
            None => Ok(()),
        },
    }
}

/// Adds the values of an attribute, if they are wanted.
fn print_wanted(out: &mut Vec<u8>, form: Form, values: bool, items: &Data) -> Result<(), Memory>
    ensures { OnOk result (out.new.items
        ≡ out.old.items ++ watching.cells form values (data_in items.now)) }
{
    if values {
        print_values(out, form, items)
    } else {
        Ok(())
    }
}

/// Adds a line of a row: its entry, and each of its values after a TAB if they are wanted. Fails only for want of memory, and
/// then a prefix may have been added.
pub fn print_row(
    out: &mut Vec<u8>,
    form: Form,
    values: bool,
    entry: &[u8],
    items: &Data,
) -> Result<(), Memory>
    ensures { OnOk result (out.new.items
        ≡ out.old.items ++ watching.row form values entry.now (data_in items.now)) }
{
    print_octets(out, form, entry)?;
    print_wanted(out, form, values, items)?;
    out.push(b'\n')?;
    Ok(())
}

/// Adds a position and a TAB.
fn print_position(out: &mut Vec<u8>, position: &Number) -> Result<(), Memory>
    ensures { OnOk result (out.new.items
        ≡ out.old.items ++ watching.position (value_in position.now)) }
{
    match position.at_most(u32::MAX) {
        Some(position) => {
            let mut digits = Buffer::new();
            out.extend_from_slice(digits.format(position).as_bytes())?;
        }
        None => out.push(b'?')?,
    }
    out.push(b'\t')?;
    Ok(())
}

/// Adds a line of a change of a list that is followed (RFC 2244 section 6.5), columns with a TAB between them: `+`, the position and the row of an
/// entry that has come in; `-`, the position and the name of one that has gone; `=`, the old position, the new one and
/// the row of one that has changed. Of any other line it adds none. Fails only for want of memory, and then a prefix may
/// have been added.
pub fn print_change(out: &mut Vec<u8>, form: Form, values: bool, line: &Line) -> Result<(), Memory>
    ensures { OnOk result (out.new.items
        ≡ out.old.items ++ watching.change form values (said line.now)) }
{
    match line {
        Line::AddTo(_, entry, position, items) => {
            out.extend_from_slice(b"+\t")?;
            print_position(out, position)?;
            print_row(out, form, values, *entry, items)
        }
        Line::RemoveFrom(_, entry, position) => {
            out.extend_from_slice(b"-\t")?;
            print_position(out, position)?;
            print_octets(out, form, *entry)?;
            out.push(b'\n')?;
            Ok(())
        }
        Line::Change(_, entry, old, new, items) => {
            out.extend_from_slice(b"=\t")?;
            print_position(out, old)?;
            print_position(out, new)?;
            print_row(out, form, values, *entry, items)
        }
        _ => Ok(()),
    }
}
