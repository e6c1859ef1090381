//! Prints rows: names, values, attributes and rights.

ghost use Rattle.std.specs.Prelude.{◌≡◌, ◌++◌, OnOk, flat_map};
ghost use Rattle.acap_client.specs.Arguments.{data_in};
ghost use Rattle.acap_shell.specs.Rows.{attribute_rows, attributes_rows, column, first_texts, line};
ghost use Rattle.acap_shell.specs.Rows.{list_rows};
ghost use Rattle.acap_shell.specs.Rows.{pair_row, rights_rows, row, value_rows};

use crate::escapes::{print_columns, print_octets};
use crate::form::Form;
use acap_client::Data;
use acap_entries::Memory;

/// Adds a line of a name (RFC 2244 section 3.1.1). Fails only for want of memory, and then a prefix of it may have been added.
pub fn print_name(out: &mut Vec<u8>, form: Form, name: &[u8]) -> Result<(), Memory>
    ensures { OnOk result (out.new.items ≡ out.old.items ++ line form name.now) }
{
    print_octets(out, form, name)?;
    out.push(b'\n')?;
    Ok(())
}

/// Adds octets and a TAB.
fn print_column(out: &mut Vec<u8>, form: Form, octets: &[u8]) -> Result<(), Memory>
    ensures { OnOk result (out.new.items ≡ out.old.items ++ column form octets.now) }
{
    print_octets(out, form, octets)?;
    out.push(b'\t')?;
    Ok(())
}

/// Of which entry and attribute values are printed, and how.
#[derive(Clone, Copy)]
struct Place<'a> {
    form: Form,
    entry: &'a [u8],
    attribute: &'a [u8],
}

/// Adds a line of an entry, an attribute and a value.
fn print_row(out: &mut Vec<u8>, place: &Place, value: &[u8]) -> Result<(), Memory>
    ensures { OnOk result (out.new.items
        ≡ out.old.items ++ row place.now.form place.now.entry.now place.now.attribute.now value.now) }
{
    print_column(out, place.form, place.entry)?;
    print_column(out, place.form, place.attribute)?;
    print_name(out, place.form, value)
}

/// Adds a line for each string that stands first.
fn print_texts(out: &mut Vec<u8>, place: &Place, texts: &Data) -> Result<(), Memory>
    ensures { OnOk result (out.new.items
        ≡ out.old.items ++ flat_map (row place.now.form place.now.entry.now place.now.attribute.now)
        (first_texts (data_in texts.now))) }
{
    let mut left = *texts;
    'texts: while let Some((text, others)) = left.text() {
        print_row(out, place, text)?;
        left = others;
    }
    Ok(())
}

/// Adds a line for each string of the value that stands first.
fn print_first(out: &mut Vec<u8>, place: &Place, items: &Data) -> Result<(), Memory>
    ensures { OnOk result (out.new.items
        ≡ out.old.items ++ value_rows place.now.form place.now.entry.now place.now.attribute.now
        (data_in items.now)) }
{
    match items.group() {
        Some((list, _)) => print_texts(out, place, &list),
        None => match items.text() {
            Some((text, _)) => print_row(out, place, text),
            None => Ok(()),
        },
    }
}

/// Adds a line for each string of the value that the data of an ENTRY are, where an attribute was asked for
/// (RFC 2244 section 6.4.2): the entry, the attribute and the string, TABs between them. Of NIL it adds none.
/// Fails only for want of memory, and then a prefix may have been added.
pub fn print_value(
    out: &mut Vec<u8>,
    form: Form,
    entry: &[u8],
    attribute: &[u8],
    items: &Data,
) -> Result<(), Memory>
    ensures { OnOk result (out.new.items
        ≡ out.old.items ++ value_rows form entry.now attribute.now (data_in items.now)) }
{
    let place = Place {
        form,
        entry,
        attribute,
    };
    print_first(out, &place, items)
}

/// Adds the lines of an attribute and its value.
fn print_attribute(out: &mut Vec<u8>, form: Form, entry: &[u8], pair: &Data) -> Result<(), Memory>
    ensures { OnOk result (out.new.items
        ≡ out.old.items ++ attribute_rows form entry.now (data_in pair.now)) }
{
    match pair.text() {
        Some((attribute, value)) => print_value(out, form, entry, attribute, &value),
        None => Ok(()),
    }
}

/// Adds the lines of each attribute and its value.
fn print_list(out: &mut Vec<u8>, form: Form, entry: &[u8], pairs: &Data) -> Result<(), Memory>
    ensures { OnOk result (out.new.items
        ≡ out.old.items ++ list_rows form entry.now (data_in pairs.now)) }
{
    let mut left = *pairs;
    'pairs: while let Some((pair, others)) = left.group() {
        print_attribute(out, form, entry, &pair)?;
        left = others;
    }
    Ok(())
}

/// Adds a line for each value that the data of an ENTRY are, where all attributes were asked for with their names
/// (RFC 2244 section 6.4.2): as `print_value` does of each. Fails only for want of memory, and then a prefix may have been added.
pub fn print_attributes(
    out: &mut Vec<u8>,
    form: Form,
    entry: &[u8],
    items: &Data,
) -> Result<(), Memory>
    ensures { OnOk result (out.new.items
        ≡ out.old.items ++ attributes_rows form entry.now (data_in items.now)) }
{
    match items.group() {
        Some((pairs, _)) => print_list(out, form, entry, &pairs),
        None => Ok(()),
    }
}

/// Adds a line for each pair of an access list (RFC 2244 section 3.5), which the data of an ENTRY are: the identifier and its
/// rights, a TAB between them. Of NIL it adds none. Fails only for want of memory, and then a prefix may have been added.
pub fn print_rights(out: &mut Vec<u8>, form: Form, items: &Data) -> Result<(), Memory>
    ensures { OnOk result (out.new.items ≡ out.old.items ++ rights_rows form (data_in items.now)) }
{
    match items.group() {
        Some((list, _)) => print_pairs(out, form, &list),
        None => match items.text() {
            Some((pair, _)) => print_pair(out, form, pair),
            None => Ok(()),
        },
    }
}

/// Adds a line for each string that stands first.
fn print_pairs(out: &mut Vec<u8>, form: Form, pairs: &Data) -> Result<(), Memory>
    ensures { OnOk result (out.new.items
        ≡ out.old.items ++ flat_map (pair_row form) (first_texts (data_in pairs.now))) }
{
    let mut left = *pairs;
    'pairs: while let Some((pair, others)) = left.text() {
        print_pair(out, form, pair)?;
        left = others;
    }
    Ok(())
}

/// Adds a line of a pair, its TABs as they are.
fn print_pair(out: &mut Vec<u8>, form: Form, pair: &[u8]) -> Result<(), Memory>
    ensures { OnOk result (out.new.items ≡ out.old.items ++ pair_row form pair.now) }
{
    print_columns(out, form, pair)?;
    out.push(b'\n')?;
    Ok(())
}
