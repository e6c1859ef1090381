//! Long lists, as a STORE whose strings are literals (RFC 2244 sections 2.6.3 and 6.6.1). Each literal begins a new line, so that no line
//! of the command is long.

ghost use Rattle.std.specs.Prelude.{◌≡◌, ◌++◌, IfOk, OnOk, flat_map, nat_lt, option_map};
ghost use Rattle.acap_shell.specs.Literals as literals;
ghost use Rattle.acap_shell.specs.Literals.{octets_in, spaced};

use crate::lines::line_of;
use crate::stores::store_one;
use acap_commands::{Given, StoreItem, StoreMetadata};
use acap_entries::{Attribute, Cell, Memory, Path, Value};
use itoa::Buffer;
use std::alloc::Global;

/// The most octets of a list as quoted strings.
const ROOM: usize = 6_000;

/// Whether a list may be too long for a line, where its strings are quoted.
fn is_long(values: &[Value]) -> bool
    ensures { result ≡ nat_lt 6000 (octets_in values.now) }
{
    let mut count: usize = 0;
    for value in values {
        count = count.saturating_add(value.as_slice().len().saturating_mul(2).saturating_add(3));
        if count > ROOM {
            return true;
        }
    }
    false
}

/// Adds a literal for which the client doesn't wait.
fn add_literal(out: &mut Vec<u8>, text: &[u8]) -> Result<(), Memory>
    ensures { OnOk result (out.new.items ≡ out.old.items ++ literals.literal text.now) }
{
    let mut digits = Buffer::new();
    out.push(b'{')?;
    out.extend_from_slice(digits.format(text.len()).as_bytes())?;
    out.extend_from_slice(b"+}\r\n")?;
    out.extend_from_slice(text)?;
    Ok(())
}

/// Adds a space and a literal.
fn add_spaced(out: &mut Vec<u8>, text: &[u8]) -> Result<(), Memory>
    ensures { OnOk result (out.new.items ≡ out.old.items ++ spaced text.now) }
{
    out.push(b' ')?;
    add_literal(out, text)
}

/// Adds literals, each after a space.
fn add_others(out: &mut Vec<u8>, values: &[Value]) -> Result<(), Memory>
    ensures { OnOk result (out.new.items ≡ out.old.items ++ flat_map spaced values.now) }
{
    for value in values {
        add_spaced(out, value.as_slice())?;
    }
    Ok(())
}

/// Adds literals with a space between two.
fn add_list(out: &mut Vec<u8>, values: &[Value]) -> Result<(), Memory>
    ensures { OnOk result (out.new.items ≡ out.old.items ++ literals.list values.now) }
{
    match values.split_first() {
        Some((first, others)) => {
            add_literal(out, first.as_slice())?;
            add_others(out, others)
        }
        None => Ok(()),
    }
}

/// What is stored, and the parenthesis of its strings.
fn opening(metadata: StoreMetadata) -> &'static [u8]
    ensures { result.now ≡ literals.opening metadata }
{
    match metadata {
        StoreMetadata::Value => b" (\"value\" (",
        StoreMetadata::Acl => b" (\"acl\" (",
    }
}

/// The full octets of a path (RFC 2244 section 3.1). Fails only for want of memory.
pub fn full_path(alloc: Global, path: &Path) -> Result<Vec<u8>, Memory>
    ensures { IfOk result (λ made. made.items ≡ path.now.dataset ++ path.now.name) }
{
    let mut made = Vec::from_slice(alloc, path.dataset.as_slice())?;
    made.extend_from_slice(path.name.as_slice())?;
    Ok(made)
}

/// The line of a STORE of a list under this tag, its strings as literals, with its CR LF.
fn list_line(
    alloc: Global,
    tag: &[u8],
    path: &Path,
    attribute: &Attribute,
    metadata: StoreMetadata,
    values: &[Value],
) -> Result<Vec<u8>, Memory>
    ensures { IfOk result (λ made. made.items
        ≡ literals.list_line tag.now path.now attribute.now metadata values.now) }
{
    let path = full_path(alloc, path)?;
    let mut out = Vec::from_slice(alloc, tag)?;
    out.extend_from_slice(b" STORE (")?;
    add_literal(&mut out, &path)?;
    add_spaced(&mut out, attribute.as_slice())?;
    out.extend_from_slice(opening(metadata))?;
    add_list(&mut out, values)?;
    out.extend_from_slice(b")))\r\n")?;
    Ok(out)
}

/// The strings of a list that may be too long for a line.
fn long_list(given: &Given) -> Option<&[Value]>
    ensures { option_map (λ values. values.now) result ≡ literals.long_list given.now }
{
    match given {
        Given::Put(Cell::Multi(values)) if is_long(values.as_slice()) => Some(values.as_slice()),
        _ => None,
    }
}

/// The line of a STORE of an item under this tag, with its CR LF. The strings of a list that may be too long for a line are literals, for
/// which the client doesn't wait (RFC 2244 sections 2.6.3 and 6.6.1). Fails only for want of memory.
pub fn item_line(alloc: Global, tag: &[u8], path: Path, item: StoreItem) -> Result<Vec<u8>, Memory>
    ensures { IfOk result (λ line. line.items ≡ literals.item_line tag.now path item) }
{
    if let Some(values) = long_list(&item.given) {
        return list_line(alloc, tag, &path, &item.attribute, item.metadata, values);
    }
    let command = store_one(alloc, path, item)?;
    line_of(alloc, tag, command)
}
