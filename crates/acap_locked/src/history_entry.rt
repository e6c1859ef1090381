//! `HistoryEntry`: one call of the history, with its seat.
use crate::shared_call::SharedCall;
use acap_entries::{Copying, Memory, Seat, Sequence};

/// One call of a history.
#[derive(Drop)]
pub struct HistoryEntry {
    /// The seat at which it was made.
    pub seat: Seat,
    /// The call.
    pub exchange: SharedCall,
}

/// The same call once more: its event and its reply are shared.
impl Copying for HistoryEntry {
    fn copy(&self) -> Result<HistoryEntry, Memory> {
        let exchange = self.exchange.copy()?;
        Ok(HistoryEntry {
            seat: self.seat,
            exchange,
        })
    }
}

/// The calls of a history, in their order.
pub type History = Sequence<HistoryEntry>;
