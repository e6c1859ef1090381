//! A list of named values: contexts, and commands by their tags.
ghost use Rattle.std.specs.Prelude.{◌≡◌, ◌<◌, bytes_eq, vec_len, vec_capacity};
ghost use Rattle.std.specs.Option.{option_copied};
ghost use Rattle.std.specs.List.{position};
ghost use Rattle.acap_client.specs.Following as following;

use acap_entries::{Text, TextKind};

/// Where the first value of a name stands.
pub(crate) fn place_of<K: TextKind, A>(entries: &[(Text<K>, A)], name: &[u8]) -> Option<usize>
    ensures { result ≡ position (λ entry. bytes_eq name.now entry.0) entries.now }
{
    entries.iter().position(|entry| name == entry.0.as_slice())
}

/// The value of a name.
pub(crate) fn look_up<'a, K: TextKind, A>(entries: &'a [(Text<K>, A)], name: &[u8]) -> Option<&'a A>
    ensures { option_copied result ≡ following.look_up name.now entries.now }
{
    let at = place_of(entries, name)?;
    Some(&entries[at].1)
}

/// Puts a value in the place of that of its name, or as the last where none has it, in the room that there is. Takes no
/// memory.
pub(crate) fn put_in_room<K: TextKind, A: Drop>(
    entries: &mut Vec<(Text<K>, A)>,
    name: Text<K>,
    value: A,
)
    requires { vec_len entries.old < vec_capacity entries.old }
    ensures { entries.new.items ≡ following.put name value entries.old.items }
{
    match place_of(entries.as_slice(), name.as_slice()) {
        Some(at) => entries[at].1 = value,
        None => entries.push((name, value)).unwrap(),
    }
}

/// Takes out all values of a name. Takes no memory.
pub(crate) fn take_out<K: TextKind, A: Drop>(entries: &mut Vec<(Text<K>, A)>, name: &[u8])
    ensures { entries.new.items ≡ following.without name.now entries.old.items }
{
    entries.retain(|entry| name != entry.0.as_slice());
}
