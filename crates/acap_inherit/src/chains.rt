//! The chain of a dataset: the dataset, the one that it inherits from, and so on.
ghost use Rattle.std.specs.Prelude.{◌≡◌, false};
ghost use Rattle.std.specs.Option.{option_copied};
ghost use Rattle.acap_inherit.specs.Chains as rule;

use crate::lineage::Lineage;
use crate::resolving::cell_in;
use acap_entries::{Cell, Dataset, Records};
use arrayvec::ArrayVec;

// The dataset that a dataset inherits from.
pub(crate) fn base_of<'a, R: Records>(records: &'a R, dataset: &[u8]) -> Option<&'a [u8]>
    ensures { option_copied result ≡ rule.base_at (R.store records.now).records dataset.now }
{
    let entry = records.find(dataset, b"")?;
    match cell_in(entry, b"dataset.inherit")? {
        Cell::Single(base) => Some(base.as_slice()),
        _ => None,
    }
}

// The dataset, the one that it inherits from, and so on.
fn follow_bases<'a, R: Records>(records: &'a R, dataset: &'a [u8]) -> Lineage<'a>
    ensures { result ≡ rule.chain_within 8 (R.store records.now).records dataset.now }
{
    let mut names = ArrayVec::new();
    let mut last = dataset;
    for _ in 0..8u8 {
        names.push(last);
        match base_of(records, last) {
            Some(base) => last = base,
            None => return Lineage { names },
        }
    }
    Lineage { names }
}

/// The dataset, then the one that the `dataset.inherit` of its management entry names, and so on, at most eight names in
/// all, whether these datasets exist or come twice (RFC 2244 sections 5.1 and 5.2). Takes no memory.
pub fn chain<'a, R: Records>(records: &'a R, dataset: &'a Dataset) -> Lineage<'a>
    ensures { result ≡ rule.chain_of (R.store records.now).records dataset.now false }
{
    follow_bases(records, dataset.as_slice())
}

/// The chain of a dataset, or the dataset alone where nothing is to be inherited, as under NOINHERIT (RFC
/// 2244 section 6.4.1). Takes no memory.
pub fn chain_unless<'a, R: Records>(
    records: &'a R,
    dataset: &'a Dataset,
    no_inherit: bool,
) -> Lineage<'a>
    ensures { result ≡ rule.chain_of (R.store records.now).records dataset.now no_inherit }
{
    if no_inherit {
        let mut names = ArrayVec::new();
        names.push(dataset.as_slice());
        return Lineage { names };
    }
    follow_bases(records, dataset.as_slice())
}
