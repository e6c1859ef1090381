//! `Copying`: makes an equal value in memory of its own; `Memory`: there is none.
ghost use Rattle.std.specs.Prelude.{◌≡◌, IfOk};

/// Memory was refused.
pub use std::alloc::AllocError as Memory;

/// A value that can be made again in memory of its own, equal to its source.
pub trait Copying: Sized {
    /// An equal value. Fails only for want of memory.
    fn copy(&self) -> Result<Self, Memory>
        ensures { IfOk result (λ made. made ≡ self.now) };
}

/// A list of equal values. Fails only for want of memory.
pub fn copy_all<T: Copying + Drop>(items: &Vec<T>) -> Result<Vec<T>, Memory>
    ensures { IfOk result (λ made. made.items ≡ items.now.items) }
{
    let mut made = Vec::with_capacity(*items.allocator(), items.len())?;
    for item in items {
        made.push(item.copy()?)?;
    }
    Ok(made)
}

impl Copying for () {
    fn copy(&self) -> Result<(), Memory> {
        Ok(())
    }
}

impl<A: Copying + Drop, B: Copying + Drop> Copying for (A, B) {
    fn copy(&self) -> Result<(A, B), Memory> {
        let first = self.0.copy()?;
        let second = self.1.copy()?;
        Ok((first, second))
    }
}

impl<T: Copying + Drop> Copying for Option<T> {
    fn copy(&self) -> Result<Option<T>, Memory> {
        match self {
            None => Ok(None),
            Some(value) => Ok(Some(value.copy()?)),
        }
    }
}
