//! `FollowFault`: why a follower can't apply a line.
ghost use Rattle.acap_client.specs.declared.follow_fault.FollowFault.TheVariants as fault;
ghost use Rattle.std.specs.Prelude.{◌≡◌};

use acap_entries::Memory;
use thiserror::Error;

/// Why a follower doesn't go on with a line. What it holds stays.
#[derive(Clone, Copy, Debug, Error)]
pub enum FollowFault<'a> {
    /// The line doesn't fit what is held of the context of this name, or that isn't held or was freed.
    #[error("the line does not fit the list")]
    Misfit(&'a [u8]),
    /// Memory was refused.
    #[error("out of memory")]
    Memory,
}

impl<'a> From<Memory> for FollowFault<'a> {
    ghost from_gives = { λ _ e. e ≡ fault.Memory };

    fn from(_error: Memory) -> FollowFault<'a> {
        FollowFault::Memory
    }
}
