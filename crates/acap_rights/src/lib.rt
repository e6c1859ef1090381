//! Access control lists and rights (RFC 2244 section 3.5): which lists are read, which one decides at an object, what rights
//! it gives to a user, and what SETACL and DELETEACL make of it (section 6.7).
#![tactic(auto)]

mod acl;
mod acl_fault;
mod cutting;
mod deciding;
mod forms;
mod granting;
mod group;
mod homes;
mod keeping;
mod laws;
mod object;
mod pairs;
mod realm;
mod rights;
mod sharing;

pub use acl::Acl;
pub use acl_fault::AclFault;
pub use deciding::decided_list;
pub use granting::{implicit_rights, rights_of};
pub use group::{Group, Groups};
pub use homes::is_owner;
pub use keeping::{list_attribute, object_of_list};
pub use laws::{
    administrator_law, deciding_law, edit_examples, edit_law, group_examples, group_law,
    home_examples, keeping_law, negative_law, order_law, owner_law, pair_examples, pair_law,
    rights_examples, shared_law, whom_law,
};
pub use object::Object;
pub use pairs::{is_acl, is_pair};
pub use realm::Realm;
pub use rights::Rights;
pub use sharing::{SharedRights, shared_rights};
