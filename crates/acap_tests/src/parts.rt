//! A test of datasets and paths that are made of their octets, as they are kept.

use acap_entries::{Dataset, NameFault, Path};
use std::alloc::Global;

/// A dataset and a name; whether the first is a dataset with its closing `/`, and whether both together are a path.
const ROWS: [(&[u8], &[u8], bool, bool); 5] = [
    (b"/", b"font", true, true),
    (b"/option/~/", b"font", true, true),
    (b"/option/~/", b"a/b", true, false),
    (b"/option", b"font", false, false),
    (b"option/", b"font", false, false),
];

// Whether it is a dataset of just these octets, and `None` for want of memory.
fn is_dataset(alloc: Global, octets: &[u8]) -> Option<bool> {
    match Dataset::from_slice(alloc, octets) {
        Ok(dataset) => Some(dataset.as_slice() == octets),
        Err(NameFault::BadName) => Some(false),
        Err(NameFault::Memory) => None,
    }
}

// Whether they are a path of just these octets, and `None` for want of memory.
fn is_path(alloc: Global, dataset: &[u8], name: &[u8]) -> Option<bool> {
    match Path::from_slices(alloc, dataset, name) {
        Ok(path) => Some(path.dataset.as_slice() == dataset && path.name.as_slice() == name),
        Err(NameFault::BadName) => Some(false),
        Err(NameFault::Memory) => None,
    }
}

#[test]
fn makes_names_of_parts(rt: HostRuntime) {
    for (dataset, name, named, both) in ROWS {
        assert!(rt; is_dataset(rt.alloc(), dataset) == Some(named));
        assert!(rt; is_path(rt.alloc(), dataset, name) == Some(both));
    }
}
