//! Names, values, records, moments and the tree of an ACAP dataset server (RFC 2244 sections 2 and 3).
#![tactic(auto)]

mod after;
mod applying;
mod boxed;
mod change;
mod compact;
mod comparing;
mod dataset;
mod deletions;
mod homes;
mod keys;
mod laws;
mod listing;
mod moment;
mod name_fault;
mod names;
mod octets;
mod path;
mod record;
mod records;
mod row;
mod seat;
mod sequence;
mod shared;
mod stamps;
mod steps;
mod table;
mod text;
mod times;
mod tree;
mod value;
mod writes;

pub use acap_ordmap::{
    Copying, Finger, Memory, Probe, Ranked, Ranking, Whole, copy_all, lookup, place_of,
    put_in_room, rank_law, room_for_one, take_out,
};
pub use after::After;
pub use boxed::Boxed;
pub use change::{Change, RecordEdit};
pub use comparing::is_same;
pub use dataset::Dataset;
pub use deletions::Deletion;
pub use keys::{AttributeText, JoinedText, PathText};
pub use laws::{
    after_law, change_law, dataset_examples, deletion_law, existence_law, form_law, full_path_law,
    home_examples, moment_examples, name_examples, own_entry_law, path_examples, path_law,
    removal_law, stamp_examples, stamp_law, time_examples, time_law, two_changes_law,
};
pub use listing::Listing;
pub use moment::Moment;
pub use name_fault::NameFault;
pub use names::{
    begins_with, ends_with, first_slash, is_attribute, is_dataset_argument, is_entry_name, is_path,
    is_user_name, own_entry_of, split_path,
};
pub use octets::Octets;
pub use path::{Path, Paths};
pub use record::{Cell, CellList, CellLists, Record, makes_dataset};
pub use records::Records;
pub use row::{Item, Items, LentItems, Row};
pub use seat::Seat;
pub use sequence::Sequence;
pub use shared::{Shared, Values};
pub use stamps::{Civil, civil_of, stamp};
pub use steps::Steps;
pub use table::{Acls, Cells, Table};
pub use text::{
    AnyOctets, Attribute, ContextName, EntryName, Label, Named, Text, TextKind, UserName,
};
pub use times::read_time;
pub use tree::Tree;
pub use value::Value;
pub use writes::Writes;
