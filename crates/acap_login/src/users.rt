//! `Users`: who may log in, and with which secret.
ghost use Rattle.std.specs.Prelude.{◌≡◌, true, length, map, option_copied, ◌==◌};
ghost use Rattle.acap_login.specs.Login.{are_named, name_at};

use acap_entries::UserName;
use std::marker::Model;

/// Names and secrets, one after the other: a user is a place in this list, counted from 0. One name may stand at several
/// places, each with a secret of its own. Contracts see a list of pairs. It isn't `Debug`, so that no secret is printed.
#[derive(Drop)]
pub struct Users {
    entries: Vec<(UserName, Vec<u8>)>,
}

impl Model for Users {
    ghost use Rattle.std.specs.Prelude.{ℕ, List, map};

    ghost Value = { List (List ℕ × List ℕ) };

    ghost view = { λ v. map (λ entry. (entry.0, entry.1.items)) v.entries.items };

    ghost use Rattle.std.specs.Prelude.{◌≡◌, true};
    ghost use Rattle.acap_login.specs.Login.{are_named};

    ghost invariant = { λ v. are_named (map (λ entry. (entry.0, entry.1.items)) v.entries.items) ≡ true };
}

// The names in a list are names of users: goes over them and does nothing.
fn form_names(entries: &[(UserName, Vec<u8>)])
    ensures { are_named (map (λ entry. (entry.0, entry.1.items)) entries.now) ≡ true }
{
    let mut left = entries;
    while let Some((first, others)) = left.split_first() {
        first.0.form_law();
        left = others;
    }
}

impl Users {
    /// The users of a vector, in its memory.
    pub fn new(entries: Vec<(UserName, Vec<u8>)>) -> Users
        ensures { result ≡ map (λ entry. (entry.0, entry.1.items)) entries.items }
    {
        form_names(entries.as_slice());
        Users { entries }
    }

    /// Each has a user's name: does nothing.
    pub fn form_law(&self)
        ensures { are_named self.now ≡ true }
    {
        let _ = self.entries.len();
    }

    /// How many there are.
    pub fn len(&self) -> usize
        ensures { result ≡ length self.now }
    {
        self.entries.len()
    }

    /// Whether there are none.
    pub fn is_empty(&self) -> bool
        ensures { result ≡ (length self.now == 0) }
    {
        self.entries.is_empty()
    }

    /// The name of the user at a place, if there is one.
    pub fn name(&self, place: usize) -> Option<&UserName>
        ensures { option_copied result ≡ name_at self.now place }
    {
        let (name, _) = self.entries.get(place)?;
        Some(name)
    }

    /// The names with their secrets, in their order.
    pub(crate) fn as_slice(&self) -> &[(UserName, Vec<u8>)]
        ensures { map (λ entry. (entry.0, entry.1.items)) result.now ≡ self.now }
    {
        self.entries.as_slice()
    }
}
