//! Searches (RFC 2244 section 6.4.1): what a user may see of an entry, whether a key wants it, what is printed of it, and what a
//! search over a dataset finds, in which order.
#![tactic(auto)]

mod answer;
mod boxed_hit;
mod cached;
mod context;
mod context_laws;
mod context_list;
mod cutting;
mod dataset_cursor;
mod dataset_head;
mod dataset_view;
mod dataset_walk;
mod entry_match;
mod entry_reader;
mod entry_view;
mod first_rows;
mod found;
mod found_matches;
mod hit;
mod laws;
mod match_key;
mod match_rows;
mod matching;
mod name_key;
mod names_count;
mod ordering;
mod path_ref;
mod placing;
mod plain_dataset;
mod query;
mod ranking;
mod reaching;
mod record_cache;
mod record_cursor;
mod refusal;
mod row_limit;
mod rows;
mod scope;
mod searching;
mod sort_key;
mod sort_term;
mod values;
mod walk;

pub use acap_entries::Row;
pub use answer::{SearchAnswer, tell, tell_within};
pub use boxed_hit::{BoxedHit, HitKey};
pub use context::within;
pub use context_laws::{context_examples, hit_law, within_law};
pub use context_list::ContextList;
pub use cutting::{Cut, cut_by};
pub use dataset_view::DatasetView;
pub use entry_match::row_of;
pub use entry_reader::EntryReader;
pub use hit::{Hit, Hits};
pub use laws::{
    acl_law, fresh_law, key_examples, limit_examples, name_law, once_law, order_examples,
    place_law, row_examples, scope_examples, scope_law, seen_law, sight_examples, sight_law,
    star_law, touched_law, tuple_law, withheld_law,
};
pub use matching::matches;
pub use placing::places_at;
pub use plain_dataset::share_rights;
pub use query::{Query, SearchRequest, SearchSpec};
pub use record_cursor::RecordCursor;
pub use refusal::SearchRefusal;
pub use scope::{Scope, looks_in};
pub use searching::fresh;
pub use sort_term::{Rank, SortPlaces, SortTerm};
