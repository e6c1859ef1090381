//! Which attributes of a management entry are lists (RFC 2244 section 3.5).
ghost use Rattle.std.specs.Prelude.{◌≡◌, IfOk, option_map};
ghost use Rattle.acap_rights.specs.Deciding.{attribute_list_name, target_of};
ghost use Rattle.acap_rights.specs.Keeping.{target_of_list};

use crate::object::Object;
use acap_entries::{Attribute, Memory};
use std::alloc::Global;

/// What begins the name of the list of an attribute.
const FRONT: &[u8] = b"dataset.acl.";

/// The attribute of a management entry that is the list of an attribute in the dataset: `dataset.acl.ATTRIBUTE`. It may be
/// longer than an attribute that a client sends. Fails only for want of memory.
pub fn list_attribute(alloc: Global, attribute: &[u8]) -> Result<Attribute, Memory>
    ensures { IfOk result (λ made. made ≡ attribute_list_name attribute.now) }
{
    let mut name = Vec::from_slice(alloc, FRONT)?;
    name.extend_from_slice(attribute)?;
    Attribute::from_slice(alloc, name.as_slice())
}

/// The object whose list an attribute of the dataset's management entry is: the dataset's for `dataset.acl`, an attribute's for
/// `dataset.acl.ATTRIBUTE`. None of other attributes, which are no lists. Takes no memory.
#[tactic(auto, unfolding(crate::specs::Keeping::target_of_list))]
pub fn object_of_list<'a>(dataset: &'a [u8], attribute: &'a [u8]) -> Option<Object<'a>>
    ensures { option_map target_of result ≡ target_of_list dataset.now attribute.now }
{
    if attribute == b"dataset.acl".as_slice() {
        Some(Object::Dataset { dataset })
    } else if attribute.starts_with(FRONT) && attribute.len() > FRONT.len() {
        let (_, attribute) = attribute.split_at(FRONT.len());
        Some(Object::Attribute { dataset, attribute })
    } else {
        None
    }
}
