//! `ViewRefusal`: why a call about contexts is refused.
ghost use Rattle.std.specs.Prelude.{◌≡◌};
ghost use Rattle.acap_views.specs.declared.refusal.ViewRefusal.TheVariants as refusal;

use acap_entries::Memory;
use thiserror::Error;

/// Why something asked of a session's contexts is refused (RFC 2244 sections 6.4.1 and 6.5).
#[derive(Clone, Copy, Debug, PartialEq, Eq, Error)]
pub enum ViewRefusal {
    /// The session has as many contexts as it may.
    #[error("too many contexts")]
    TryFreeContext,
    /// The session has no context of this name.
    #[error("no such context")]
    NoContext,
    /// The context was freed.
    #[error("the context was freed")]
    FreedContext,
    /// The context isn't kept up to date.
    #[error("the context is not kept up to date")]
    NotNotify,
    /// Memory was refused.
    #[error("out of memory")]
    Memory,
}

impl From<Memory> for ViewRefusal {
    ghost from_gives = { λ _ e. e ≡ refusal.Memory };

    fn from(_error: Memory) -> ViewRefusal {
        ViewRefusal::Memory
    }
}
