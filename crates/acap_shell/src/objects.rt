//! The commands of `acl`, `grant` and `revoke` (RFC 2244 sections 3.5 and 6.7).

ghost use Rattle.std.specs.Prelude.{◌≡◌, [], ◌∷◌, ◌++◌, IfOk, codes};
ghost use Rattle.acap_commands.specs.declared.command.Command.TheVariants as command;
ghost use Rattle.acap_commands.specs.declared.returns.Metadata.TheVariants as metadata;
ghost use Rattle.acap_commands.specs.declared.returns.ReturnName.TheVariants as name;
ghost use Rattle.acap_shell.specs.Objects as objects;
ghost use Rattle.acap_shell.specs.Searches as search;

use crate::both::both;
use crate::searches::{is_named, returning, search, value_of};
use acap_commands::{Command, Metadata, MetadataList, ObjectName, ReturnName, SearchModifiers};
use acap_entries::{Attribute, Boxed, Dataset, EntryName, Label, Memory};
use std::alloc::Global;

/// The MYRIGHTS for an object. Fails only for want of memory.
pub fn my_rights(alloc: Global, object: ObjectName) -> Result<Command, Memory>
    ensures { IfOk result (λ made. made ≡ command.MyRights object) }
{
    Ok(Command::MyRights(Boxed::new(alloc, object)?))
}

/// A string of a command, in a box.
fn boxed_label(alloc: Global, text: &[u8]) -> Result<Boxed<Label>, Memory>
    ensures { IfOk result (λ made. made ≡ text.now) }
{
    Boxed::new(alloc, Label::from_slice(alloc, text)?)
}

/// The SETACL that gives an identifier these rights on an object. Fails only for want of memory.
pub fn grant(
    alloc: Global,
    object: ObjectName,
    identifier: &[u8],
    rights: &[u8],
) -> Result<Command, Memory>
    ensures { IfOk result (λ made. made ≡ command.SetAcl object identifier.now rights.now) }
{
    let object = Boxed::new(alloc, object)?;
    let identifier = boxed_label(alloc, identifier)?;
    let rights = boxed_label(alloc, rights)?;
    Ok(Command::SetAcl(object, identifier, rights))
}

/// The DELETEACL that takes an identifier off the access list of an object. Fails only for want of memory.
pub fn revoke(alloc: Global, object: ObjectName, identifier: &[u8]) -> Result<Command, Memory>
    ensures { IfOk result (λ made. made ≡ objects.revoke object identifier.now) }
{
    let object = Boxed::new(alloc, object)?;
    let identifier = boxed_label(alloc, identifier)?;
    Ok(Command::DeleteAcl(object, Some(identifier)))
}

/// The DELETEACL that removes the access list of an object. Fails only for want of memory.
pub fn revoke_all(alloc: Global, object: ObjectName) -> Result<Command, Memory>
    ensures { IfOk result (λ made. made ≡ objects.revoke_all object) }
{
    Ok(Command::DeleteAcl(Boxed::new(alloc, object)?, None))
}

/// The attribute of a management entry that has the access list of an attribute in its dataset.
fn list_name(alloc: Global, attribute: &Attribute) -> Result<Attribute, Memory>
    ensures { IfOk result (λ made. made ≡ codes "dataset.acl." ++ attribute.now) }
{
    let mut name = Vec::from_slice(alloc, b"dataset.acl.")?;
    name.extend_from_slice(attribute.as_slice())?;
    Attribute::from_slice(alloc, &name)
}

/// The SEARCH for an attribute of the management entry.
fn managed(alloc: Global, dataset: Dataset, attribute: Attribute) -> Result<Command, Memory>
    ensures { IfOk result (λ made. made ≡ objects.managed dataset attribute) }
{
    let (modifiers, key) = both(value_of(alloc, attribute), is_named(alloc, b""))?;
    search(alloc, dataset, modifiers, key)
}

/// The access list of an attribute.
fn list_of(alloc: Global, attribute: Attribute) -> Result<SearchModifiers, Memory>
    ensures { IfOk result (λ made. made ≡ search.returning (name.Named attribute) (metadata.Acl ∷ [])) }
{
    let mut metadata = MetadataList::new(alloc);
    metadata.push(Metadata::Acl)?;
    returning(alloc, ReturnName::Named(attribute), metadata)
}

/// The SEARCH for the access list of an attribute of one entry.
fn kept(
    alloc: Global,
    dataset: Dataset,
    attribute: Attribute,
    name: EntryName,
) -> Result<Command, Memory>
    ensures { IfOk result (λ made. made ≡ objects.kept dataset attribute name) }
{
    let key = is_named(alloc, name.as_slice());
    let (modifiers, key) = both(list_of(alloc, attribute), key)?;
    search(alloc, dataset, modifiers, key)
}

/// The SEARCH for the access list of an object, where one is stored. Fails only for want of memory.
pub fn access_list(alloc: Global, object: ObjectName) -> Result<Command, Memory>
    ensures { IfOk result (λ made. made ≡ objects.access_list object) }
{
    match object {
        ObjectName::Dataset { dataset } => {
            let attribute = Attribute::from_slice(alloc, b"dataset.acl")?;
            managed(alloc, dataset, attribute)
        }
        ObjectName::Attribute { dataset, attribute } => {
            let attribute = list_name(alloc, attribute.get())?;
            managed(alloc, dataset, attribute)
        }
        ObjectName::Entry {
            dataset,
            attribute,
            name,
        } => kept(alloc, dataset, attribute.into_value(), name.into_value()),
    }
}
