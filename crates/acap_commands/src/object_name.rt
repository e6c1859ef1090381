//! `ObjectName`: the object of an access list, as a command names it.

ghost use Rattle.std.specs.Prelude.{◌≡◌, IfOk};
ghost use Rattle.acap_commands.specs.declared.object_name.ObjectName.TheVariants as object_name;

use acap_entries::{Attribute, Boxed, Copying, Dataset, EntryName, Memory};
use std::alloc::Global;

/// What a command says that rights are about: a dataset, an attribute in it, or that attribute of one entry (RFC 2244
/// section 3.5). Most name a dataset alone: what others name stands in boxes.
#[derive(Clone, PartialEq, Eq, Drop)]
pub enum ObjectName {
    /// A dataset.
    Dataset {
        /// The dataset.
        dataset: Dataset,
    },
    /// An attribute in a dataset.
    Attribute {
        /// The dataset.
        dataset: Dataset,
        /// The attribute.
        attribute: Boxed<Attribute>,
    },
    /// An attribute of one entry.
    Entry {
        /// The dataset.
        dataset: Dataset,
        /// The attribute.
        attribute: Boxed<Attribute>,
        /// The entry's name in the dataset, empty for the management entry.
        name: Boxed<EntryName>,
    },
}

impl ObjectName {
    /// An attribute in a dataset. Fails only for want of memory.
    pub fn attribute(
        alloc: Global,
        dataset: Dataset,
        attribute: Attribute,
    ) -> Result<ObjectName, Memory>
        ensures { IfOk result (λ made. made ≡ object_name.Attribute dataset attribute) }
    {
        let attribute = Boxed::new(alloc, attribute)?;
        Ok(ObjectName::Attribute { dataset, attribute })
    }

    /// An attribute of one entry. Fails only for want of memory.
    pub fn entry(
        alloc: Global,
        dataset: Dataset,
        attribute: Attribute,
        name: EntryName,
    ) -> Result<ObjectName, Memory>
        ensures { IfOk result (λ made. made ≡ object_name.Entry dataset attribute name) }
    {
        let attribute = Boxed::new(alloc, attribute)?;
        let name = Boxed::new(alloc, name)?;
        Ok(ObjectName::Entry {
            dataset,
            attribute,
            name,
        })
    }
}

impl Copying for ObjectName {
    fn copy(&self) -> Result<ObjectName, Memory> {
        self.clone()
    }
}
