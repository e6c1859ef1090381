//! What a client asks for and is answered: commands, keys, replies, refusals, and the events of sessions (RFC 2244 sections 3, 6 and 8).
#![tactic(auto)]

mod command;
mod entry_order;
mod event;
mod key;
mod lists;
mod object_name;
mod refusal;
mod reply;
mod returns;
mod said;
mod search;
mod search_modifiers;
mod store;
mod target;
mod test;

pub use acap_entries::{Copying, Memory};
pub use acap_notices::{Notice, Told, Tolds};
pub use command::{Command, Verb};
pub use entry_order::EntryOrder;
pub use event::{Event, Fault};
pub use key::{Key, Node};
pub use lists::{ContextNames, Entries, MetadataList, Returns, Rows, SortItems, StoreItems};
pub use object_name::ObjectName;
pub use refusal::{Refusal, Status};
pub use reply::Reply;
pub use returns::{Metadata, ReturnItem, ReturnName};
pub use said::{Said, SearchReply};
pub use search::Search;
pub use search_modifiers::{Limit, MakeContext, SearchModifiers, SortItem};
pub use store::{Given, StoreEntry, StoreItem, StoreMetadata, StoreModifiers};
pub use target::Target;
pub use test::{Relation, Test};
