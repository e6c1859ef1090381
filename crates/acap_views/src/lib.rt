//! The contexts of all seats: what they show, which notices wait, and how they follow the store (RFC 2244 sections 3.3
//! and 6.5).
#![tactic(auto)]

mod apply_updates;
mod calls;
mod change_view;
mod changed_entries;
mod context_lists;
mod context_view;
mod contexts;
mod dataset_change;
mod delta;
mod entry_update;
mod entry_updates;
mod first_written;
mod following;
mod hit_cursor;
mod idle_moves;
mod last_sent;
mod last_sent_list;
mod laws;
mod lend_context;
mod lent_context;
mod live_contexts;
mod live_lists;
mod moving;
mod new_context;
mod open_context;
mod opening;
mod places;
mod planned_change;
mod preparing;
mod refusal;
mod seat_contexts;
mod seat_updates;
mod share_rights;
mod shared_rights;
mod telling;
mod touched_cache;
mod touching;
mod undo;
mod undo_move;
mod views;
mod with_record;

pub use delta::Delta;
pub use last_sent_list::LastSentList;
pub use laws::{
    changed_law, client_law, current_law, found_law, kept_examples, moved_law, named_examples,
    notice_examples, notice_law, ranged_law, seats_law, shown_law, waiting_law,
};
pub use lent_context::LentContext;
pub use moving::{prepared_law, touched_moves_law};
pub use new_context::NewContext;
pub use opening::MOST_CONTEXTS;
pub use places::{has_context, is_full};
pub use refusal::ViewRefusal;
pub use views::Views;
