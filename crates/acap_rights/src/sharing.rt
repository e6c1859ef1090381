//! The rights on the attributes of a dataset that all of its entries share.
ghost use Rattle.std.specs.Prelude.{◌≡◌, IfOk};
ghost use Rattle.std.specs.Option.{option_copied};
ghost use Rattle.acap_rights.specs.Sharing as rule;

use crate::deciding::{dataset_list, list_in};
use crate::granting::rights_by;
use crate::realm::Realm;
use crate::rights::Rights;
use acap_entries::{Attribute, Memory, Record, Records, Table, UserName};
use std::alloc::Global;

/// A user's rights on the attributes of a dataset. An entry that has a list of its own for an attribute doesn't share them
/// (RFC 2244 section 3.5).
#[derive(Drop)]
pub struct SharedRights {
    /// Those on each attribute that has a list in the dataset's management entry.
    pub listed: Table<Rights>,
    /// Those on all others.
    pub others: Rights,
}

impl SharedRights {
    /// Those on an attribute. Takes no memory.
    pub fn on(&self, attribute: &[u8]) -> Rights
        ensures { result ≡ rule.shared_on self.now attribute.now }
    {
        match self.listed.find(attribute) {
            Some(rights) => *rights,
            None => self.others,
        }
    }
}

// Of which attribute an attribute of a management entry is the list.
fn attribute_of(attribute: &[u8]) -> Option<&[u8]>
    ensures { option_copied result ≡ rule.named_by attribute.now }
{
    if !attribute.starts_with(b"dataset.acl.") {
        return None;
    }
    let (_, named) = attribute.split_at(b"dataset.acl.".len());
    Some(named)
}

// The rights by each list of an attribute in a management entry.
#[tactic(auto, unfolding(crate::specs::Sharing::listed_in))]
fn list_rights(
    alloc: Global,
    realm: &Realm,
    user: &UserName,
    dataset: &[u8],
    management: Option<&Record>,
) -> Result<Table<Rights>, Memory>
    ensures { IfOk result (λ listed.
        listed ≡ rule.listed_in realm.now user.now dataset.now (option_copied management.entry)) }
{
    let mut listed = Table::new(alloc);
    let Some(record) = management else {
        return Ok(listed);
    };
    for (attribute, cell) in record.cells.entries() {
        if let Some(named) = attribute_of(attribute.as_slice())
            && let Some(list) = list_in(Some(cell))
        {
            let rights = rights_by(realm, user, dataset, Some(list));
            listed.set(Attribute::from_slice(alloc, named)?, rights)?;
        }
    }
    Ok(listed)
}

/// A user's rights on the attributes of a dataset. Fails only for want of memory, of which it takes none where no attribute
/// has a list.
pub fn shared_rights<R: Records>(
    alloc: Global,
    records: &R,
    realm: &Realm,
    user: &UserName,
    dataset: &[u8],
) -> Result<SharedRights, Memory>
    ensures { IfOk result (λ shared.
        rule.AreShared (R.store records.now).records realm.now user.now dataset.now shared) }
{
    let management = records.find(dataset, b"");
    let listed = list_rights(alloc, realm, user, dataset, management)?;
    let others = rights_by(realm, user, dataset, dataset_list(management));
    Ok(SharedRights { listed, others })
}
