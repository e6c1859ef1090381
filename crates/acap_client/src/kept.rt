//! `Kept`: one context with its rows, and whether its list is complete or freed.
ghost use Rattle.std.specs.Prelude.{◌≡◌, ◌↔◌, Some, None, OnOk, OnErr};
ghost use Rattle.acap_client.specs.Keeping.{IsMisfit, noted, started, freed_kept, kept_after, kept_upto};

use crate::held::Held;
use crate::note::Note;
use acap_notices::HeldFault;
use std::alloc::Global;
use std::marker::Model;

/// What is held of a context, whether it is complete, and whether the context was freed (RFC 2244 sections 3.3 and 6.5).
#[derive(Drop)]
pub struct Kept {
    held: Held,
    complete: bool,
    freed: bool,
}

impl Model for Kept {
    ghost use Rattle.acap_client.specs.Codes.{kept_code};
    ghost use Rattle.acap_client.specs.Following as following;

    ghost Value = { following.Kept };

    ghost coded = { kept_code };

    ghost view = { λ k. record { held = k.held; complete = k.complete; freed = k.freed } };
}

impl Kept {
    /// What a context has that was made: what its SEARCH found.
    pub(crate) fn start(held: Held) -> Kept
        ensures { result ≡ started held }
    {
        Kept {
            held,
            complete: false,
            freed: false,
        }
    }

    /// The rows.
    pub fn held(&self) -> &Held
        ensures { result.now ≡ self.now.held }
    {
        &self.held
    }

    /// Whether all changes up to a stamp were sent, and nothing since (RFC 2244 section 6.5.6).
    pub fn is_complete(&self) -> bool
        ensures { result ≡ self.now.complete }
    {
        self.complete
    }

    /// Whether the context was freed: nothing more will come of it.
    pub fn is_freed(&self) -> bool
        ensures { result ≡ self.now.freed }
    {
        self.freed
    }

    /// Applies a notice. `Misfit` exactly where it doesn't fit what is held, or the context was freed. At a fault nothing
    /// has changed.
    pub(crate) fn apply(&mut self, alloc: Global, note: &Note) -> Result<(), HeldFault>
        ensures ok { OnOk result (kept_after (noted note.now) self.old ≡ Some self.new) }
        ensures misfit { IsMisfit result ↔ (kept_after (noted note.now) self.old ≡ None) }
        ensures err { OnErr result (self.new ≡ self.old) }
    {
        if self.freed {
            return Err(HeldFault::Misfit);
        }
        self.held.apply(alloc, note)?;
        self.complete = false;
        Ok(())
    }

    /// All changes up to a stamp were sent. `Misfit` exactly where the context was freed, and then nothing has changed.
    pub(crate) fn complete(&mut self) -> Result<(), HeldFault>
        ensures ok { OnOk result (kept_upto self.old ≡ Some self.new) }
        ensures misfit { IsMisfit result ↔ (kept_upto self.old ≡ None) }
        ensures err { OnErr result (self.new ≡ self.old) }
    {
        if self.freed {
            return Err(HeldFault::Misfit);
        }
        self.complete = true;
        Ok(())
    }

    /// The context was freed.
    pub(crate) fn free(&mut self)
        ensures { self.new ≡ freed_kept self.old }
    {
        self.freed = true;
    }
}
