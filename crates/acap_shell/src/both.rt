//! Two results as one: both values, or the first error.

ghost use Rattle.std.specs.Prelude.{◌≡◌, IfOk, Ok};

use acap_entries::Memory;

/// Both of what was made. It takes any type: what has many parts is let go part by part where its type is known, and here in one.
pub(crate) fn both<T: Drop, U: Drop>(
    one: Result<T, Memory>,
    other: Result<U, Memory>,
) -> Result<(T, U), Memory>
    ensures { IfOk result (λ made. (one ≡ Ok made.0) × (other ≡ Ok made.1)) }
{
    match one {
        Ok(one) => match other {
            Ok(other) => Ok((one, other)),
            Err(error) => Err(error),
        },
        Err(error) => Err(error),
    }
}
