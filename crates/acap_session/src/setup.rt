//! The users, administrators, groups and host that a script sets for its world.

ghost use Rattle.std.specs.Prelude.{◌≡◌, [], OnOk};
ghost use Rattle.acap_session.specs.Script.{realm_of, with_administrator, with_host, with_member, with_user};
ghost use Rattle.acap_session.specs.World.{new_world};

use crate::world::World;
use acap_entries::{Memory, Octets, Sequence, UserName};
use acap_login::Users;
use acap_rights::{Group, Realm};
use std::alloc::Global;
use std::marker::Model;

/// What a script sets for its world: who may log in, who has all rights, who is in which group, and the name of the host.
#[derive(Drop)]
pub(crate) struct Setup {
    users: Vec<(UserName, Vec<u8>)>,
    administrators: Vec<UserName>,
    groups: Vec<Group>,
    host: Octets,
}

impl Model for Setup {
    ghost use Rattle.std.specs.Prelude.{map};
    ghost use Rattle.acap_session.specs.Setup.{Setup as Seen};

    ghost Value = { Seen };

    ghost view = { λ s. record {
      users = map (λ entry. (entry.0, entry.1.items)) s.users.items;
      administrators = s.administrators.items;
      groups = s.groups.items;
      host = s.host;
    } };
}

impl Setup {
    /// Nobody may log in, nobody has all rights, and there are no groups. Takes no memory.
    pub(crate) fn new(alloc: Global, host: Octets) -> Setup
        ensures { result ≡ record { users = []; administrators = []; groups = []; host = host } }
    {
        Setup {
            users: Vec::new(alloc),
            administrators: Vec::new(alloc),
            groups: Vec::new(alloc),
            host,
        }
    }

    /// One more may log in.
    pub(crate) fn add_user(&mut self, name: UserName, secret: Octets) -> Result<(), Memory>
        ensures { OnOk result (self.new ≡ with_user name secret self.old) }
    {
        self.users.push((name, secret.into_vec()))?;
        Ok(())
    }

    /// One more has all rights.
    pub(crate) fn add_administrator(&mut self, name: UserName) -> Result<(), Memory>
        ensures { OnOk result (self.new ≡ with_administrator name self.old) }
    {
        self.administrators.push(name)?;
        Ok(())
    }

    /// One more is in a group.
    pub(crate) fn add_member(
        &mut self,
        alloc: Global,
        name: UserName,
        member: UserName,
    ) -> Result<(), Memory>
        ensures { OnOk result (self.new ≡ with_member name member self.old) }
    {
        let mut members = Sequence::new(alloc);
        members.push(member)?;
        self.groups.push(Group { name, members })?;
        Ok(())
    }

    /// That is the name of the host. Takes no memory.
    pub(crate) fn set_host(&mut self, host: Octets)
        ensures { self.new ≡ with_host host self.old }
    {
        self.host = host;
    }

    /// The world of what was set. Takes no memory.
    pub(crate) fn into_world(self, alloc: Global) -> World
        ensures { result ≡ new_world (realm_of self) self.users self.host }
    {
        let Setup {
            users,
            administrators,
            groups,
            host,
        } = self;
        World::new(
            alloc,
            Realm::new(administrators, groups),
            Users::new(users),
            host,
        )
    }
}
