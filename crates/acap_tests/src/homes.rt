//! A test of whose datasets are whose.

use acap_entries::{Dataset, UserName};
use acap_rights::is_owner;
use std::alloc::Global;

/// A user and a dataset, and whether it is the user's own. In the last three USER of `/option/user/USER/` is
/// no user's name.
const ROWS: [(&[u8], &[u8], bool); 14] = [
    (b"joe", b"/option/user/joe/", true),
    (b"joe", b"/option/user/joe/a/b/", true),
    (b"joe", b"/addressbook/user/joe/", true),
    (b"ann", b"/option/user/joe/", false),
    (b"Joe", b"/option/user/joe/", false),
    (b"joe", b"/option/user/joey/", false),
    (b"joe", b"/option/user/", false),
    (b"joe", b"/option/site/joe/", false),
    (b"joe", b"/user/joe/", false),
    (b"joe", b"/option/a/user/joe/", false),
    (b"joe", b"/", false),
    (b"joe", b"/option/user/anyone/", false),
    (b"joe", b"/option/user/joe smith/", false),
    (b"joe", b"/option/user/-joe/", false),
];

// Whether a dataset is a user's own, and `None` for want of memory.
fn is_own(alloc: Global, user: &[u8], dataset: &[u8]) -> Option<bool> {
    let user = UserName::read(alloc, user).ok()?;
    let dataset = Dataset::from_slice(alloc, dataset).ok()?;
    Some(is_owner(&user, &dataset))
}

#[test]
fn owns_homes(rt: HostRuntime) {
    for (user, dataset, own) in ROWS {
        assert!(rt; is_own(rt.alloc(), user, dataset) == Some(own));
    }
}
