//! `NameFault`: why octets aren't read as a name.
use acap_ordmap::Memory;
use std::error::Error;
use std::fmt;

/// Why a name was not read.
#[derive(Clone, Copy, Debug, PartialEq, Eq)]
pub enum NameFault {
    /// The octets are no such name.
    BadName,
    /// Memory was refused.
    Memory,
}

impl From<Memory> for NameFault {
    ghost use Rattle.std.specs.Prelude.{◌≡◌};
    ghost use Rattle.acap_entries.specs.declared.name_fault.NameFault.TheVariants as fault;

    ghost from_gives = { λ _ e. e ≡ fault.Memory };

    fn from(_error: Memory) -> NameFault {
        NameFault::Memory
    }
}

impl fmt::Display for NameFault {
    fn fmt<W: fmt::Write>(&self, f: &mut fmt::Formatter<W>) -> fmt::Result {
        match self {
            NameFault::BadName => f.write_str("no such name"),
            NameFault::Memory => f.write_str("out of memory"),
        }
    }
}

impl Error for NameFault {}
