//! `AclFault`: why strings aren't read as a list.
use acap_entries::Memory;
use thiserror::Error;

/// Why a list was not read.
#[derive(Clone, Copy, Debug, PartialEq, Eq, Error)]
pub enum AclFault {
    /// The strings are no access control list.
    #[error("no access control list")]
    BadAcl,
    /// Memory was refused.
    #[error("out of memory")]
    Memory,
}

impl From<Memory> for AclFault {
    ghost use Rattle.std.specs.Prelude.{◌≡◌};
    ghost use Rattle.acap_rights.specs.declared.acl_fault.AclFault.TheVariants as fault;

    ghost from_gives = { λ _ e. e ≡ fault.Memory };

    fn from(_error: Memory) -> AclFault {
        AclFault::Memory
    }
}
