//! `Object`: what an access list is about: a dataset, an attribute in it, or that of one entry.
ghost use Rattle.std.specs.Prelude.{◌≡◌};
ghost use Rattle.acap_rights.specs.Deciding.{target_of, dataset_in};

/// What rights are about, lent as octets: a dataset, an attribute in it, or that attribute of one of its entries, be it there
/// or not (RFC 2244 section 3.5).
#[derive(Clone, Copy, Drop)]
pub enum Object<'a> {
    /// A dataset.
    Dataset {
        /// The dataset.
        dataset: &'a [u8],
    },
    /// An attribute in a dataset.
    Attribute {
        /// The dataset.
        dataset: &'a [u8],
        /// The attribute.
        attribute: &'a [u8],
    },
    /// An attribute of one entry.
    Entry {
        /// The dataset.
        dataset: &'a [u8],
        /// The attribute.
        attribute: &'a [u8],
        /// The entry's name in the dataset, empty for the management entry.
        name: &'a [u8],
    },
}

impl<'a> Object<'a> {
    /// The dataset.
    pub fn dataset(&self) -> &'a [u8]
        ensures { result.now ≡ dataset_in (target_of self.now) }
    {
        match self {
            Object::Dataset { dataset } => dataset,
            Object::Attribute { dataset, .. } => dataset,
            Object::Entry { dataset, .. } => dataset,
        }
    }
}
