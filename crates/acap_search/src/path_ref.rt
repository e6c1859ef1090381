//! The path of a match: borrowed from its record, or made where it has no record in its dataset.
ghost use Rattle.std.specs.Prelude.{◌≡◌, IfOk};
ghost use Rattle.acap_search.specs.PathRefs.{path_in};

use acap_entries::{Boxed, Copying, Memory, Path};

/// The path of an entry that is found: that of its record, or one that is made where it has none in its dataset.
#[derive(Drop)]
pub(crate) enum PathRef<'a> {
    /// That of its record.
    Kept(&'a Path),
    /// One that is made; what is found is moved in few octets.
    Made(Boxed<Path>),
}

impl<'a> PathRef<'a> {
    /// The path.
    pub(crate) fn path(&self) -> &Path
        ensures { result.now ≡ path_in self.now }
    {
        match self {
            PathRef::Kept(path) => path,
            PathRef::Made(path) => path.get(),
        }
    }

    /// The path in memory of its own. Fails only for want of memory.
    pub(crate) fn into_path(self) -> Result<Path, Memory>
        ensures { IfOk result (λ path. path ≡ path_in self.entry) }
    {
        match self {
            PathRef::Kept(path) => path.copy(),
            PathRef::Made(path) => Ok(path.into_value()),
        }
    }
}
