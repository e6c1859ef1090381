//! `Realm`: the administrators and the groups.
ghost use Rattle.std.specs.Prelude.{◌≡◌, ◌&&◌};
ghost use Rattle.acap_rights.specs.Realms as rule;

use crate::group::{Group, Groups};
use acap_entries::{Copying, Memory, Sequence, UserName};

/// Who is who among the users: the administrators, who have all rights, and the groups that access lists may name
/// (RFC 2244 section 3.5).
#[derive(Clone, PartialEq, Eq, Drop)]
pub struct Realm {
    /// The administrators.
    pub administrators: Sequence<UserName>,
    /// The groups.
    pub groups: Groups,
}

impl Realm {
    /// The realm of these administrators and groups. Takes no memory.
    pub fn new(administrators: Vec<UserName>, groups: Vec<Group>) -> Realm
        ensures { result ≡ record { administrators = administrators.items; groups = groups.items } }
    {
        Realm {
            administrators: Sequence::from_vec(administrators),
            groups: Sequence::from_vec(groups),
        }
    }

    /// Whether an identifier, without the `-` before it, names the user. Takes no memory.
    #[tactic(auto, unfolding(crate::specs::Realms::names))]
    pub fn names(&self, user: &[u8], identifier: &[u8]) -> bool
        ensures { result ≡ rule.names self.now user.now identifier.now }
    {
        identifier == user
            || identifier == b"anyone".as_slice()
            || self.names_in_group(user, identifier)
    }

    // Whether an identifier is that of a group that has the user.
    fn names_in_group(&self, user: &[u8], identifier: &[u8]) -> bool
        ensures { result ≡ rule.names_in_group self.now user.now identifier.now }
    {
        match identifier.strip_prefix(b"group:") {
            Some(name) => self.has_in_group(user, name),
            None => false,
        }
    }

    // Whether a group of the name has the user.
    fn has_in_group(&self, user: &[u8], name: &[u8]) -> bool
        ensures { result ≡ rule.has_in_group self.now user.now name.now }
    {
        self.groups.as_slice().iter().any(|group| name == group.name.as_slice()
            && group.has_member(user))
    }

    /// Whether the user is an administrator. Takes no memory.
    #[tactic(auto, unfolding(crate::specs::Realms::is_administrator))]
    pub fn is_administrator(&self, user: &[u8]) -> bool
        ensures { result ≡ rule.is_administrator self.now user.now }
    {
        self.administrators
            .as_slice()
            .iter()
            .any(|name| name.as_slice() == user)
    }
}

impl Copying for Realm {
    fn copy(&self) -> Result<Realm, Memory> {
        self.clone()
    }
}
