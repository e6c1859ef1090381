//! `Tolds`: all that a client is sent at once, which several owners share.
ghost use Rattle.std.specs.Prelude.{◌≡◌, ◌==◌, [], IfOk, length};
ghost use Rattle.std.specs.Cmp.Lexicographic.{pointwise, lists_per, lists_equiv};
ghost use Rattle.acap_notices.specs.Batches.{all_told, told_of};
ghost use Rattle.acap_notices.specs.contracts.told.ToldPartialEq.TheImpl as told;
ghost use Rattle.acap_notices.specs.contracts.told.ToldPartialEq.TheImpl.Laws as part;
ghost use Rattle.acap_notices.specs.contracts.told.ToldEq.TheImpl.Laws as whole;

use crate::batch::Batch;
use crate::told_iter::ToldIter;
use crate::told_ref::ToldRef;
use acap_entries::{Copying, Memory, Sequence, Shared};
use std::marker::Model;

/// What a client is sent of its contexts, in the order in which it is printed (RFC 2244 section 6.5). A copy holds
/// the same list, whatever its length.
#[derive(Drop)]
pub struct Tolds {
    batches: Shared<Batch>,
}

impl Model for Tolds {
    ghost use Rattle.std.specs.Prelude.{List};
    ghost use Rattle.std.specs.Coded.{coded_list};
    ghost use Rattle.acap_notices.specs.Batches.{all_told};
    ghost use Rattle.acap_notices.specs.declared.told.Told.{Told};
    ghost use Rattle.acap_notices.specs.contracts.told.Told as told;

    ghost Value = { List Told };

    ghost coded = { coded_list told.the_row.coded };

    ghost view = { λ t. all_told t.batches };
}

impl Tolds {
    /// Nothing. Takes no memory.
    pub fn none() -> Tolds
        ensures { result ≡ [] }
    {
        Tolds {
            batches: Shared::none(),
        }
    }

    /// What these batches send, one after the other. Fails only for want of memory.
    pub fn new(batches: Sequence<Batch>) -> Result<Tolds, Memory>
        ensures { IfOk result (λ made. made ≡ all_told batches) }
    {
        let batches = Shared::new(batches)?;
        Ok(Tolds { batches })
    }

    /// What is sent, one thing after the other. Takes no memory.
    pub fn iter(&self) -> ToldIter<'_>
        ensures { result ≡ self.now }
    {
        ToldIter::over(self.batches.as_slice())
    }

    /// Whether nothing is sent.
    pub fn is_empty(&self) -> bool
        ensures { result ≡ (length self.now == 0) }
    {
        self.iter().next().is_none()
    }
}

impl Clone for Tolds {
    ghost is_clone = { λ x y. y ≡ x };

    fn clone(&self) -> Result<Tolds, Memory> {
        let batches = self.batches.copy()?;
        Ok(Tolds { batches })
    }
}

impl Copying for Tolds {
    fn copy(&self) -> Result<Tolds, Memory> {
        self.clone()
    }
}

// Whether the same is sent.
fn are_equal(one: &ToldRef<'_>, two: &ToldRef<'_>) -> bool
    ensures { result ≡ told.ghosts.eq (told_of one.now) (told_of two.now) }
{
    match (one, two) {
        (ToldRef::Note(a, x), ToldRef::Note(b, y)) => **a == **b && **x == **y,
        (ToldRef::Upto(a, x), ToldRef::Upto(b, y)) => **a == **b && *x == *y,
        (ToldRef::Freed(a), ToldRef::Freed(b)) => **a == **b,
        _ => false,
    }
}

impl PartialEq for Tolds {
    ghost eq = { pointwise told.ghosts.eq };

    ghost laws = { lists_per part.laws-law };

    fn eq(&self, other: &Tolds) -> bool {
        let mut theirs = other.iter();
        for told in self.iter() {
            match theirs.next() {
                Some(their) if are_equal(&told, &their) => {}
                _ => return false,
            }
        }
        theirs.next().is_none()
    }
}

impl Eq for Tolds {
    ghost laws = { lists_equiv whole.laws-law };
}
