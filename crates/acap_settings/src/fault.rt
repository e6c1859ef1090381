//! `SettingsFault`: why settings aren't read.
use acap_entries::{Memory, Octets};
use std::fmt;
use thiserror::Error;

/// Why settings were not read.
#[derive(PartialEq, Eq, Drop, Error)]
pub enum SettingsFault {
    /// The text is no TOML document.
    #[error("no TOML document")]
    NotToml,
    /// A key is missing, unknown, or its value is of another type or range: its name.
    #[error("a key is missing, unknown, or has a value of another type or range")]
    BadKey(Octets),
    /// Memory was refused.
    #[error("out of memory")]
    Memory,
}

impl From<Memory> for SettingsFault {
    ghost use Rattle.std.specs.Prelude.{◌≡◌};
    ghost use Rattle.acap_settings.specs.declared.fault.SettingsFault.TheVariants as fault;

    ghost from_gives = { λ _ e. e ≡ fault.Memory };

    fn from(_error: Memory) -> SettingsFault {
        SettingsFault::Memory
    }
}

impl fmt::Debug for SettingsFault {
    fn fmt<W: fmt::Write>(&self, f: &mut fmt::Formatter<W>) -> fmt::Result {
        fmt::Display::fmt(self, f)
    }
}
