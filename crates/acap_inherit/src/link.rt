//! `Link`: a pair of datasets, of which one inherits from the other.

use acap_entries::{Copying, Dataset, Label, Memory};

/// That a dataset names another as the one that it inherits from. Ordered by base, then by heir, so that the heirs of a
/// base lie together (RFC 2244 section 5.2).
#[derive(Clone, PartialEq, Eq, PartialOrd, Ord, Drop)]
pub struct Link {
    /// What is inherited from: any octets, as they are stored.
    pub base: Label,
    /// The dataset that inherits.
    pub heir: Dataset,
}

impl Copying for Link {
    fn copy(&self) -> Result<Link, Memory> {
        self.clone()
    }
}
