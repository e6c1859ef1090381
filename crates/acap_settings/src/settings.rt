//! `Settings`: what a settings file says.
ghost use Rattle.std.specs.Prelude.{◌≡◌, ◌⊎◌, Some, None, IfOk, IfErr};

use crate::bad_key::bad_key;
use crate::fault::SettingsFault;
use crate::taking::{administrators_at, groups_at, number_at, start_at, text_at, users_at};
use acap_entries::{Memory, Octets, Sequence, UserName};
use acap_login::Users;
use acap_rights::Groups;
use std::alloc::Global;
use toml::Table;

/// With how many polls a session, and with how many sessions the server, ends at the most.
pub(crate) const MOST: u32 = 1_000_000_000;

/// What a settings file says.
#[derive(Drop)]
pub struct Settings {
    /// The address and port at which the server listens, as text.
    pub listen: Octets,
    /// The server's name, which challenges name.
    pub host: Octets,
    /// How many threads serve sessions: 1 to 16.
    pub workers: u32,
    /// With how many polls a session ends: 1 to 1,000,000,000.
    pub turns: u32,
    /// With how many ended sessions the server ends, 0 standing for never: at most 1,000,000,000.
    pub sessions: u32,
    /// Who has all rights.
    pub administrators: Sequence<UserName>,
    /// Who may log in, with their secrets.
    pub users: Users,
    /// The file of commands that is run before anybody is served.
    pub start: Option<Octets>,
    /// The groups of users.
    pub groups: Groups,
}

impl Settings {
    ghost use Rattle.acap_settings.specs.Keys as rule;
    ghost use Rattle.acap_settings.specs.Settings.{AreSaidBy, AreSettings, fault_of};
    ghost use Rattle.toml.specs.View.{table_view};

    /// Reads the text of a settings file, a TOML document. `NotToml` exactly where it is none; else `BadKey` with the first bad
    /// key: of the nine in the order listen, host, workers, turns, sessions, administrators, users, start, groups, then unknown
    /// ones in ascending order. Only `Memory` may come in place of any of these.
    pub fn read(alloc: Global, text: &str) -> Result<Settings, SettingsFault>
        ensures said { IfOk result (AreSaidBy text.now) }
        ensures ok { IfOk result (λ _. fault_of text.now ≡ None) }
        ensures fault { IfErr result (λ why. (why ≡ SettingsFault.Memory) ⊎ (fault_of text.now ≡ Some why)) }
    {
        let table = match toml::table_from_str(alloc, text) {
            Ok(table) => table,
            Err(error) if error.is_memory() => return Err(SettingsFault::Memory),
            Err(_) => return Err(SettingsFault::NotToml),
        };
        match bad_key(&table) {
            Some(key) => Err(SettingsFault::BadKey(Octets::from_slice(alloc, key.as_bytes())?)),
            None => Ok(Settings::of_table(alloc, &table)?),
        }
    }

    // The settings of a table whose keys are good.
    fn of_table(alloc: Global, table: &Table) -> Result<Settings, Memory>
        requires { rule.bad_key (table_view table.now) ≡ None }
        ensures { IfOk result (AreSettings (table_view table.now)) }
    {
        Ok(Settings {
            listen: text_at(alloc, table, "listen")?,
            host: text_at(alloc, table, "host")?,
            workers: number_at(table, "workers", 1, 16),
            turns: number_at(table, "turns", 1, MOST),
            sessions: number_at(table, "sessions", 0, MOST),
            administrators: administrators_at(alloc, table)?,
            users: users_at(alloc, table)?,
            start: start_at(alloc, table)?,
            groups: groups_at(alloc, table)?,
        })
    }
}
