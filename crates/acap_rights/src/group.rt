//! `Group`: a group of users.
ghost use Rattle.std.specs.Prelude.{◌≡◌};
ghost use Rattle.acap_rights.specs.Realms as rule;

use acap_entries::{Copying, Memory, Sequence, UserName};

/// A group of users. An access list names its members as `group:NAME` (RFC 2244 section 3.5).
#[derive(Clone, PartialEq, Eq, Drop)]
pub struct Group {
    /// Its name, which has the form of a user's.
    pub name: UserName,
    /// Who is in it, in any order; who is listed twice is in it once.
    pub members: Sequence<UserName>,
}

/// Groups in any order. Those of one name are one group with the members of all.
pub type Groups = Sequence<Group>;

impl Group {
    /// Whether the user is in it. Takes no memory.
    pub fn has_member(&self, user: &[u8]) -> bool
        ensures { result ≡ rule.has_member user.now self.now }
    {
        self.members
            .as_slice()
            .iter()
            .any(|name| name.as_slice() == user)
    }
}

impl Copying for Group {
    fn copy(&self) -> Result<Group, Memory> {
        self.clone()
    }
}
