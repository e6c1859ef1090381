//! An entry whose rights are checked.

use crate::write_env::WriteEnv;
use acap_entries::Path;
use acap_rights::SharedRights;
use std::marker::Model;

/// An entry that is asked about, and the rights on its attributes, where it has no list of its own for one of them.
#[derive(Drop)]
pub(crate) struct Subject<'a> {
    /// Who asks.
    pub(crate) by: &'a WriteEnv<'a>,
    /// The entry's path.
    pub(crate) path: &'a Path,
    /// These rights.
    pub(crate) shared: Option<&'a SharedRights>,
}

impl<'a> Model for Subject<'a> {
    ghost use Rattle.std.specs.Option.{option_copied};
    ghost use Rattle.acap_store.specs.Asking.{Matter, AreSharedAt, matter_code};

    ghost Value = { Matter };

    ghost coded = { matter_code };

    ghost view = { λ s. record { by = s.by.now; path = s.path.now } };

    ghost invariant = { λ s. AreSharedAt s.by.now s.path.now (option_copied s.shared) };
}
