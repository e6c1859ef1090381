//! Pushes an item into room that is there.
ghost use Rattle.std.specs.Prelude.{◌≡◌, ◌++◌, ◌∷◌, []};
ghost use Rattle.acap_locked.specs.Room.{HasRoom};

/// Appends one, in room that is there. Takes no memory.
pub(crate) fn push_in_room<T: Drop>(items: &mut Vec<T>, value: T)
    requires { HasRoom items.old }
    ensures { items.new.items ≡ items.old.items ++ value ∷ [] }
{
    items.push(value).unwrap();
}
