//! Ordered maps: entries in the order of their keys, which lie in one list or in leaves, and items that know their
//! rank. An edit moves a part of one leaf, room is made beforehand, and a look-up takes no memory. Nothing here knows
//! of datasets.
#![tactic(auto)]

mod copying;
mod counting;
mod from_sorted;
mod laws;
mod leaf;
mod leaf_edits;
mod leaf_search;
mod leaves;
mod probe;
mod ranked;
mod ranking;
mod replacing;
mod sorted;

pub use copying::{Copying, Memory, copy_all};
pub use counting::{count_before, place_among};
pub use laws::rank_law;
pub use leaf::Leaf;
pub use leaf_search::{entry_among, find_among};
pub use leaves::Leaves;
pub use probe::{Probe, Whole};
pub use ranked::Ranked;
pub use ranking::{Ranking, fill_front};
pub use replacing::Finger;
pub use sorted::{ascends, lookup, place_of, put_in_room, room_for_one, set_in, take_out};
