//! Helpers for values that are held while something else is made. They take any type, so that their proofs are short: where the type is
//! known, a value of many parts is dropped part by part at each exit.

/// What is held, and what was made beside it.
pub(crate) fn beside<T: Drop, U, E>(held: T, made: Result<U, E>) -> Result<(T, U), E> {
    match made {
        Ok(made) => Ok((held, made)),
        Err(error) => Err(error),
    }
}

/// Both of what was made, or why the first of them that failed did.
pub(crate) fn both<T: Drop, U: Drop, E: Drop>(
    one: Result<T, E>,
    other: Result<U, E>,
) -> Result<(T, U), E> {
    match one {
        Ok(one) => beside(one, other),
        Err(error) => Err(error),
    }
}
