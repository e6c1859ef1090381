//! DEPTH: which datasets beneath the searched one are searched too.
ghost use Rattle.std.specs.Prelude.{◌≡◌, IfOk, drop};
ghost use Rattle.acap_search.specs.Scoped as scoped;
ghost use Rattle.acap_search.specs.Scopes as scopes;

use acap_entries::{Dataset, Memory, Path, Record, makes_dataset};

// How many levels some octets go down.
fn levels(octets: &[u8]) -> usize
    ensures { result ≡ scopes.levels octets.now }
{
    octets.iter().filter(|octet| **octet == b'/').count()
}

// What stands after the first `count` octets.
fn behind(octets: &[u8], count: usize) -> &[u8]
    ensures { result.now ≡ drop count octets.now }
{
    if count <= octets.len() {
        &octets[count..]
    } else {
        &[]
    }
}

// Whether a dataset is reached whose own entry is `level` levels down.
fn is_reached(depth: u32, level: usize) -> bool
    ensures { result ≡ scopes.is_reached depth level }
{
    depth == 0 || level < depth as usize - 1
}

// Whether that is the name of one component.
fn is_component_name(name: &[u8]) -> bool
    ensures { result ≡ scopes.is_component_name name.now }
{
    !name.is_empty() && !name.contains(&b'/')
}

// The dataset that an entry makes, if it makes one.
fn find_made(path: &Path, entry: &Record) -> Result<Option<Dataset>, Memory>
    ensures { IfOk result (λ made. made ≡ scopes.made_by (path.now, entry.now)) }
{
    if makes_dataset(entry) && is_component_name(path.name.as_slice()) {
        Ok(Some(path.dataset.beneath(&path.name)?))
    } else {
        Ok(None)
    }
}

/// The dataset that an entry beneath the searched one makes, if it is reached. Fails only for want of memory.
pub(crate) fn find_reached(
    dataset: &Dataset,
    depth: u32,
    path: &Path,
    entry: &Record,
) -> Result<Option<Dataset>, Memory>
    ensures { IfOk result (λ made. made ≡ scopes.reached_by dataset.now depth (path.now, entry.now)) }
{
    let further = behind(path.dataset.as_slice(), dataset.as_slice().len());
    if is_reached(depth, levels(further)) {
        find_made(path, entry)
    } else {
        Ok(None)
    }
}

/// Whether a dataset lies beneath the searched one in less than `depth` levels, 0 standing for any.
pub(crate) fn lies_within(searched: &[u8], depth: u32, dataset: &[u8]) -> bool
    ensures { result ≡ scoped.lies_within searched.now depth dataset.now }
{
    dataset.starts_with(searched)
        && (depth == 0 || levels(behind(dataset, searched.len())) < depth as usize)
}
