//! `SharedCall`: one call that the history, a pass and a caller share by reference count.
ghost use Rattle.std.specs.Prelude.{◌≡◌, ◌↔◌, IsTrue, IfOk};

use crate::call::Call;
use acap_entries::{Copying, Memory};
use std::alloc::Global;
use std::marker::Model;
use std::sync::Arc;

/// One call, which the history, a pass and a caller hold together: to share it takes no copy of its event or reply.
#[derive(Drop)]
pub struct SharedCall {
    held: Arc<Call, Global>,
}

impl Model for SharedCall {
    ghost use Rattle.std.specs.Arc.{arc_value};
    ghost use Rattle.acap_locked.specs.contracts.call.Call as call;
    ghost use Rattle.acap_locked.specs.declared.call.Call.{Call};

    ghost Value = { Call };

    ghost coded = { call.the_row.coded };

    ghost view = { λ e. arc_value e.held };
}

impl SharedCall {
    /// The call, in memory that can be shared. Fails only for want of memory.
    pub fn new(alloc: Global, call: Call) -> Result<SharedCall, Memory>
        ensures { IfOk result (λ made. made ≡ call) }
    {
        let held = Arc::new(alloc, call)?;
        Ok(SharedCall { held })
    }

    /// The call.
    pub fn call(&self) -> &Call
        ensures { result.now ≡ self.now }
    {
        &*self.held
    }

    /// The same call once more. Fails only where it is held too often already.
    pub fn share(&self) -> Result<SharedCall, Memory>
        ensures { IfOk result (λ made. made ≡ self.now) }
    {
        let held = Arc::try_clone(&self.held)?;
        Ok(SharedCall { held })
    }

    /// Whether two calls are equal, wherever they are held. Takes no memory.
    pub fn equals(&self, other: &SharedCall) -> bool
        ensures { IsTrue result ↔ (self.now ≡ other.now) }
    {
        self.call().equals(other.call())
    }
}

/// A copy shares its call, and fails only where that is held too often already.
impl Copying for SharedCall {
    fn copy(&self) -> Result<SharedCall, Memory> {
        self.share()
    }
}
