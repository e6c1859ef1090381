//! What an attribute resolves to along a chain, and the modtime of an entry there.
ghost use Rattle.std.specs.Prelude.{◌≡◌, false, Some, None};
ghost use Rattle.std.specs.Int.{int_max};
ghost use Rattle.std.specs.Option.{option_copied, option_map_or};
ghost use Rattle.acap_inherit.specs.Records as kept;
ghost use Rattle.acap_inherit.specs.Resolving as rule;
ghost use Rattle.acap_inherit.specs.Values.{Resolves, entry_along, found_of, modtime_along};
ghost use Rattle.acap_inherit.specs.Values.{names_of, value_along};

use crate::chains::chain;
use crate::found::Found;
use crate::lent::Lent;
use crate::lineage::Lineage;
use acap_entries::{Cell, Dataset, Moment, Record, Records, stamp};

// What a record has for an attribute.
pub(crate) fn cell_in<'a>(entry: &'a Record, attribute: &[u8]) -> Option<&'a Cell>
    ensures { option_copied result ≡ kept.cell_in entry.now attribute.now }
{
    if entry.present {
        entry.cells.find(attribute)
    } else {
        None
    }
}

// Whether nothing is inherited from beyond a record.
fn ends_inheritance(entry: &Record) -> bool
    ensures { result ≡ kept.ends_inheritance entry.now }
{
    entry.blocks_inheritance
}

// What a cell of a dataset answers.
fn lying<'a>(cell: &'a Cell, dataset: &'a [u8]) -> Found<'a>
    ensures { found_of result ≡ rule.lying cell.now dataset.now }
{
    match cell {
        Cell::Nil => Found::Nil,
        Cell::Single(value) => Found::At {
            dataset,
            value: Lent::Single(value),
        },
        Cell::Multi(values) => Found::At {
            dataset,
            value: Lent::Multi(values),
        },
    }
}

// The value of a stored attribute.
fn value_on<'a, R: Records>(
    records: &'a R,
    members: &[&'a [u8]],
    name: &[u8],
    attribute: &[u8],
) -> Found<'a>
    ensures { found_of result ≡ value_along (R.store records.now) members.now name.now attribute.now }
{
    for dataset in members {
        if let Some(record) = records.find(dataset, name) {
            if let Some(cell) = cell_in(record, attribute) {
                return lying(cell, *dataset);
            }
            if ends_inheritance(record) {
                return Found::Nil;
            }
        }
    }
    Found::Nil
}

// The name of an entry, if the record that decides is present.
fn find_name<'a>(entry: &Record, dataset: &'a [u8], name: &'a [u8]) -> Found<'a>
    ensures { found_of result ≡ rule.by_presence (Some entry.now) name.now dataset.now None }
{
    if !entry.present {
        return Found::Nil;
    }
    Found::At {
        dataset,
        value: Lent::Name(name),
    }
}

// The name of an entry that exists.
fn entry_on<'a, R: Records>(records: &'a R, members: &[&'a [u8]], name: &'a [u8]) -> Found<'a>
    ensures { found_of result ≡ entry_along (R.store records.now) members.now name.now }
{
    for member in members {
        if let Some(record) = records.find(member, name) {
            return find_name(record, *member, name);
        }
    }
    Found::Nil
}

// The later of a moment and another one, if there is one.
fn later(moment: Moment, other: Option<Moment>) -> Moment
    ensures { result ≡ option_map_or (int_max moment) other moment }
{
    match other {
        Some(other) => { if other < moment { moment } else { other } }
        None => moment,
    }
}

// The greatest moment of an entry's records down to the first at which inheritance ends.
fn modtime_on<R: Records>(records: &R, members: &[&[u8]], name: &[u8]) -> Option<Moment>
    ensures { result ≡ modtime_along (R.store records.now) members.now name.now }
{
    let mut latest = None;
    for dataset in members {
        if let Some(record) = records.find(dataset, name) {
            latest = Some(later(record.modtime, latest));
            if ends_inheritance(record) {
                return latest;
            }
        }
    }
    latest
}

// The datasets of a chain from which an entry may be.
fn members_for<'s, 'a>(chain: &'s Lineage<'a>, name: &[u8]) -> &'s [&'a [u8]]
    ensures { names_of result.now ≡ rule.members_for chain.now name.now }
{
    let names = chain.names();
    if name.is_empty() { &names[..1] } else { names }
}

// The datasets of a chain from which an attribute of an entry may be.
fn members_of<'s, 'a>(chain: &'s Lineage<'a>, name: &[u8], attribute: &[u8]) -> &'s [&'a [u8]]
    ensures { names_of result.now ≡ rule.members_of chain.now name.now attribute.now }
{
    if attribute == b"subdataset".as_slice() {
        let names = chain.names();
        &names[..1]
    } else {
        members_for(chain, name)
    }
}

// A moment as a value, which lies where it was looked for.
fn lend_stamp<'a>(chain: &Lineage<'a>, moment: Option<Moment>) -> Found<'a>
    ensures { found_of result ≡ rule.stamp_value chain.now moment }
{
    match moment {
        Some(moment) => {
            let names = chain.names();
            Found::At {
                dataset: names[0],
                value: Lent::Stamp(stamp(moment)),
            }
        }
        None => Found::Nil,
    }
}

/// What an attribute of an entry resolves to along a chain (RFC 2244 sections 3.1.1 and 5.1). `entry` is the name of an
/// entry that exists, and lies where its first record is; `modtime` is the stamp of its moment, and lies in the first
/// dataset; `subdataset` and all of the management entry, whose name is empty, are those of the first dataset alone. Takes
/// no memory.
#[tactic(auto, unfolding(crate::specs::Resolving::lookup))]
pub fn lookup<'a, R: Records>(
    records: &'a R,
    chain: &Lineage<'a>,
    name: &'a [u8],
    attribute: &[u8],
) -> Found<'a>
    ensures { found_of result ≡ rule.lookup (R.store records.now).records chain.now name.now attribute.now }
{
    if attribute == b"entry".as_slice() {
        entry_on(records, members_for(chain, name), name)
    } else if attribute == b"modtime".as_slice() {
        lend_stamp(chain, modtime_on(records, members_for(chain, name), name))
    } else {
        value_on(records, members_of(chain, name, attribute), name, attribute)
    }
}

/// What an attribute of an entry of a dataset resolves to: as `lookup` along the dataset's chain (RFC 2244
/// sections 3.1.1 and 5.1). Takes no memory.
pub fn resolve<'a, R: Records>(
    records: &'a R,
    dataset: &'a Dataset,
    name: &'a [u8],
    attribute: &[u8],
) -> Found<'a>
    ensures { Resolves (R.store records.now) dataset.now false name.now attribute.now result }
{
    let chain = chain(records, dataset);
    lookup(records, &chain, name, attribute)
}

/// Whether an entry exists: whether its first record along the chain is present. Takes no memory.
#[tactic(auto, unfolding(crate::specs::Resolving::entry_exists))]
pub fn entry_exists<R: Records>(records: &R, chain: &Lineage<'_>, name: &[u8]) -> bool
    ensures { result ≡ rule.entry_exists (R.store records.now).records chain.now name.now }
{
    match entry_on(records, members_for(chain, name), name) {
        Found::At { .. } => true,
        Found::Nil => false,
    }
}

/// The moment of an entry's last change: the greatest of its records from the first along the chain to the first at which
/// inheritance ends. A deleted entry has one too; none where there is no record. Takes no memory.
#[tactic(auto, unfolding(crate::specs::Resolving::modtime_of))]
pub fn modtime<R: Records>(records: &R, chain: &Lineage<'_>, name: &[u8]) -> Option<Moment>
    ensures { result ≡ rule.modtime_of (R.store records.now).records chain.now name.now }
{
    modtime_on(records, members_for(chain, name), name)
}
