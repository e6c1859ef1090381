//! The object that a command names, with `~` as its user's (RFC 2244 sections 3.5 and 4.1).
ghost use Rattle.std.specs.Prelude.{◌≡◌, IfOk};
ghost use Rattle.acap_rights.specs.Deciding.{target_of};
ghost use Rattle.acap_store.specs.Meaning.{target_in, target_for};

use acap_commands::ObjectName;
use acap_entries::{Memory, UserName};
use acap_rights::Object;

/// The object of a command, lent as what rights are about (RFC 2244 section 3.5). Takes no memory.
pub fn lent_object(object: &ObjectName) -> Object<'_>
    ensures { target_of result ≡ target_in object.now }
{
    match object {
        ObjectName::Dataset { dataset } => Object::Dataset {
            dataset: dataset.as_slice(),
        },
        ObjectName::Attribute { dataset, attribute } => Object::Attribute {
            dataset: dataset.as_slice(),
            attribute: attribute.get().as_slice(),
        },
        ObjectName::Entry {
            dataset,
            attribute,
            name,
        } => Object::Entry {
            dataset: dataset.as_slice(),
            attribute: attribute.get().as_slice(),
            name: name.get().as_slice(),
        },
    }
}

/// The object that a user means: `~` is replaced (RFC 2244 section 4.1). Fails only for want of memory.
pub fn object_for(user: &UserName, object: ObjectName) -> Result<ObjectName, Memory>
    ensures { IfOk result (λ made. target_in made ≡ target_for user.now object) }
{
    match object {
        ObjectName::Dataset { dataset } => {
            let dataset = dataset.for_user(user)?;
            Ok(ObjectName::Dataset { dataset })
        }
        ObjectName::Attribute { dataset, attribute } => {
            let dataset = dataset.for_user(user)?;
            Ok(ObjectName::Attribute { dataset, attribute })
        }
        ObjectName::Entry {
            dataset,
            attribute,
            name,
        } => {
            let dataset = dataset.for_user(user)?;
            Ok(ObjectName::Entry {
                dataset,
                attribute,
                name,
            })
        }
    }
}
