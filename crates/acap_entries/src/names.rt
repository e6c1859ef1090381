//! Which octets are names (RFC 2244 sections 3.1, 3.1.1 and 3.3). No call here takes memory.
ghost use Rattle.std.specs.Prelude.{ℕ, ◌≡◌, ◌≤◌, ◌<◌, ◌-◌, false, true, length, slice_index, IfSome, IsTrue};
ghost use Rattle.std.specs.List.{list_all, slice_split, position};
ghost use Rattle.std.specs.Option.{option_map};
ghost use Rattle.std.specs.Str as text;
ghost use Rattle.acap_entries.specs.Names as name;

use std::str;

/// Whether the octets are UTF-8 (RFC 3629).
pub fn is_utf8(octets: &[u8]) -> bool
    ensures { result ≡ text.is_utf8 octets.now }
{
    str::from_utf8(octets).is_ok()
}

/// Whether the octets begin with that one.
pub fn begins_with(octets: &[u8], octet: u8) -> bool
    ensures { result ≡ name.begins_with octet octets.now }
{
    match octets {
        [first, ..] => *first == octet,
        [] => false,
    }
}

/// Whether the octets end with that one.
pub fn ends_with(octets: &[u8], octet: u8) -> bool
    ensures { result ≡ name.ends_with octet octets.now }
{
    !octets.is_empty() && octets[octets.len() - 1] == octet
}

// Whether they are ASCII above an octet, without one more: such are UTF-8, and most names are. For a short name this
// pass takes less time than a test of UTF-8 and a search for each octet that may not stand in it; its callers ask for
// it up to the length where it no longer does.
fn is_plain(octets: &[u8], above: u8, other: u8) -> bool
    ensures utf8 { IsTrue result → text.is_utf8 octets.now ≡ true }
    ensures above { IsTrue result → (octet : ℕ) → octet ≤ above → name.has octet octets.now ≡ false }
    ensures other { IsTrue result → name.has other octets.now ≡ false }
{
    octets
        .iter()
        .all(|octet| above < *octet && *octet < 128 && *octet != other)
}

// Whether they are UTF-8 without NUL and without one octet more. It stands apart so that a caller that needs no such
// test saves no registers for it.
#[inline(never)]
fn is_text_without(octets: &[u8], other: u8) -> bool
    ensures { result ≡ name.is_text_without other octets.now }
{
    is_utf8(octets) && !octets.contains(&0) && !octets.contains(&other)
}

/// Whether they are a component of a path: UTF-8, not empty, without NUL and `/`, not beginning `.`.
#[tactic(auto, unfolding(crate::specs::Names::is_component))]
pub fn is_component(octets: &[u8]) -> bool
    ensures { result ≡ name.is_component octets.now }
{
    !octets.is_empty()
        && !begins_with(octets, b'.')
        && ((octets.len() <= 18 && is_plain(octets, 0, b'/')) || is_text_without(octets, b'/'))
}

/// Where the first slash stands.
#[tactic(auto, using(crate::proofs::NameLemmas::slash_within))]
pub fn first_slash(octets: &[u8]) -> Option<usize>
    ensures value { result ≡ position name.is_slash octets.now }
    ensures within { IfSome result (λ at. at < length octets.now) }
{
    octets.iter().position(|octet| *octet == b'/')
}

// Whether each text between slashes is a component.
fn are_components(octets: &[u8]) -> bool
    ensures { result ≡ list_all name.is_component (slice_split name.is_slash octets.now) }
{
    octets.split(|octet| *octet == b'/').all(is_component)
}

// What stands between the first slash and the closing one, if that is there.
fn inside(dataset: &[u8]) -> &[u8]
    ensures { result.now ≡ name.inside dataset.now }
{
    if dataset.is_empty() {
        dataset
    } else if dataset[dataset.len() - 1] == b'/' {
        let path = &dataset[..dataset.len() - 1];
        if path.is_empty() { path } else { &path[1..] }
    } else {
        &dataset[1..]
    }
}

/// Whether they are a dataset, with its closing `/` or without.
#[tactic(auto, unfolding(crate::specs::Names::components))]
pub fn is_dataset(octets: &[u8]) -> bool
    ensures { result ≡ name.is_dataset octets.now }
{
    begins_with(octets, b'/') && (octets.len() <= 1 || are_components(inside(octets)))
}

/// Whether they are a dataset with its closing `/`, as it is kept.
#[tactic(auto, unfolding(crate::specs::Names::is_closed_dataset))]
pub fn is_closed_dataset(octets: &[u8]) -> bool
    ensures { result ≡ name.is_closed_dataset octets.now }
{
    is_dataset(octets) && ends_with(octets, b'/')
}

/// How many components a dataset has.
#[tactic(auto, using(crate::proofs::NameLemmas::part_count), unfolding(crate::specs::Names::components))]
pub fn component_count(dataset: &[u8]) -> usize
    ensures value { result ≡ length (name.components dataset.now) }
    ensures bound { result ≤ length dataset.now }
{
    if dataset.len() <= 1 {
        return 0;
    }
    inside(dataset)
        .iter()
        .filter(|octet| **octet == b'/')
        .count()
        + 1
}

/// How many octets of a path are its dataset: those through the last `/`.
pub fn dataset_len(path: &[u8]) -> usize
    ensures value { result ≡ name.dataset_len path.now }
    ensures within { result ≤ length path.now }
    ensures slash { 0 < result → slice_index path.now (result - 1) ≡ 47 }
{
    match path.iter().rposition(|octet| *octet == b'/') {
        Some(last) => last + 1,
        None => 0,
    }
}

/// A path's dataset, through the last `/`, and its entry name, the rest.
#[tactic(auto, unfolding(crate::specs::Names::dataset_of, crate::specs::Names::name_of))]
pub fn split_path(path: &[u8]) -> (&[u8], &[u8])
    ensures dataset { result.0.now ≡ name.dataset_of path.now }
    ensures name { result.1.now ≡ name.name_of path.now }
    ensures closed { 0 < length result.0.now → IsTrue (name.ends_with name.slash result.0.now) }
{
    path.split_at(dataset_len(path))
}

/// Whether they are the name of an entry: a component, or empty for the management entry's.
pub fn is_entry_name(octets: &[u8]) -> bool
    ensures { result ≡ name.is_entry_name octets.now }
{
    octets.is_empty() || is_component(octets)
}

/// Whether they are a path as a client sends it, of at most 1,024 octets and 16 components.
#[tactic(auto, unfolding(crate::specs::Names::is_path))]
pub fn is_path(octets: &[u8]) -> bool
    ensures { result ≡ name.is_path octets.now }
{
    if octets.len() > 1024 {
        return false;
    }
    let (dataset, name) = split_path(octets);
    let named = if name.is_empty() { 0 } else { 1 };
    is_dataset(dataset) && is_entry_name(name) && component_count(dataset) + named <= 16
}

/// Whether they are a dataset as a client sends it, with its closing `/` or without, of at most 1,024 octets and 16 components.
#[tactic(auto, unfolding(crate::specs::Names::is_dataset_argument))]
pub fn is_dataset_argument(octets: &[u8]) -> bool
    ensures { result ≡ name.is_dataset_argument octets.now }
{
    octets.len() <= 1024 && is_dataset(octets) && component_count(octets) <= 16
}

/// Whether they are the name of an attribute: 1 to 200 octets of UTF-8 without NUL, `*` and `%`.
#[tactic(auto, unfolding(crate::specs::Names::is_attribute))]
pub fn is_attribute(octets: &[u8]) -> bool
    ensures { result ≡ name.is_attribute octets.now }
{
    // few names have an octet up to `*`, so one comparison rules out NUL, `%` and `*`
    !octets.is_empty()
        && octets.len() <= 200
        && ((octets.len() <= 38 && is_plain(octets, b'*', b'*'))
            || (is_text_without(octets, b'*') && !octets.contains(&b'%')))
}

// Whether they are a component without SP and TAB.
#[tactic(auto, unfolding(crate::specs::Names::is_component))]
fn is_component_without_blanks(octets: &[u8]) -> bool
    ensures { result ≡ name.is_unbroken_component octets.now }
{
    if octets.len() <= 28 && is_plain(octets, b' ', b'/') {
        !octets.is_empty() && !begins_with(octets, b'.')
    } else {
        is_component(octets) && !octets.contains(&b' ') && !octets.contains(&b'\t')
    }
}

// Whether they stand for other than one user.
fn is_reserved(octets: &[u8]) -> bool
    ensures { result ≡ name.is_reserved octets.now }
{
    octets == b"anyone".as_slice() || octets == b"~".as_slice() || octets.starts_with(b"group:")
}

// Whether they are a component of at most 64 octets, without SP and TAB, not beginning `-`.
#[tactic(auto, unfolding(crate::specs::Names::is_identity))]
fn is_identity(octets: &[u8]) -> bool
    ensures { result ≡ name.is_identity octets.now }
{
    octets.len() <= 64 && !begins_with(octets, b'-') && is_component_without_blanks(octets)
}

/// Whether they are the name of a user: a component of at most 64 octets, without SP and TAB, not beginning `-` or
/// `group:`, and neither `anyone` nor `~`.
#[tactic(auto, unfolding(crate::specs::Names::is_user_name))]
pub fn is_user_name(octets: &[u8]) -> bool
    ensures { result ≡ name.is_user_name octets.now }
{
    is_identity(octets) && !is_reserved(octets)
}

/// Whether they are the name of a context: 1 to 255 octets of UTF-8, not beginning `/`.
#[tactic(auto, unfolding(crate::specs::Names::is_context_name))]
pub fn is_context_name(octets: &[u8]) -> bool
    ensures { result ≡ name.is_context_name octets.now }
{
    !octets.is_empty() && octets.len() <= 255 && is_utf8(octets) && !begins_with(octets, b'/')
}

/// The own entry of a dataset other than `/`: the dataset that it lies in, and its name there. None of octets that
/// are not closed by a `/`, or have no `/` before it.
pub fn own_entry_of(dataset: &[u8]) -> Option<(&[u8], &[u8])>
    ensures value { option_map (λ p. (p.0.now, p.1.now)) result ≡ name.own_entry dataset.now }
    ensures closed { IfSome result (λ p. IsTrue (name.ends_with name.slash p.0.now)) }
{
    if !ends_with(dataset, b'/') {
        return None;
    }
    let (parent, name) = split_path(&dataset[..dataset.len() - 1]);
    if ends_with(parent, b'/') {
        Some((parent, name))
    } else {
        None
    }
}
