//! `Report`: what a closed book reports.
use crate::history_entry::History;
use crate::item::PassContentsList;
use acap_entries::Sequence;
use acap_machine::State;

/// What a closed book reports: each pass holds exactly the calls of its seat in the history, and the count of its calls in the epochs
/// before.
#[derive(Drop)]
pub struct Report {
    /// The number of the last epoch, from 0.
    pub epoch: u64,
    /// The machine with which it began.
    pub base: Box<State>,
    /// Its calls, in their order.
    pub history: History,
    /// How many calls each seat made in the epochs before.
    pub retired: Counts,
    /// What each pass holds in this epoch, in the order in which they were handed in.
    pub passes: PassContentsList,
}

/// How many calls each of the 64 seats made, the first seat's first.
pub type Counts = Sequence<u64>;
