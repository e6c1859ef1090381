//! An iterator over what a client is sent, batch after batch.
ghost use Rattle.std.specs.Prelude.{◌≡◌, [], ◌∷◌, Some, None, IfSome, drop};
ghost use Rattle.std.specs.Iterator.{YieldsFirstBy, item_count};
ghost use Rattle.acap_notices.specs.Batches.{all_told, ending_of, left_to_tell, told_in, told_of};

use crate::batch::{Batch, Ending};
use crate::told_ref::ToldRef;
use acap_entries::ContextName;
use std::marker::Model;

/// What a client is sent: an iterator, seen as the list of what is still to come. Takes no memory.
#[derive(Drop)]
pub struct ToldIter<'a> {
    batches: &'a [Batch],
    at: usize,
}

impl<'a> Model for ToldIter<'a> {
    ghost use Rattle.std.specs.Prelude.{List};
    ghost use Rattle.std.specs.Coded.{coded_list};
    ghost use Rattle.acap_notices.specs.Batches.{left_to_tell};
    ghost use Rattle.acap_notices.specs.declared.told.Told.{Told};
    ghost use Rattle.acap_notices.specs.contracts.told.Told as told;

    ghost Value = { List Told };

    ghost coded = { coded_list told.the_row.coded };

    ghost view = { λ i. left_to_tell i.batches.now i.at };
}

// The ending of a batch.
fn end(context: &ContextName, ending: Ending) -> ToldRef<'_>
    ensures { told_of result ∷ [] ≡ ending_of context.now (Some ending) }
{
    match ending {
        Ending::Upto(moment) => ToldRef::Upto(context, moment),
        Ending::Freed => ToldRef::Freed(context),
    }
}

// What a batch sends after `at` things of it, and how many have been sent then.
fn told_at(batch: &Batch, at: usize) -> Option<(ToldRef<'_>, usize)>
    ensures some { IfSome result
        (λ next. drop at (told_in batch.now) ≡ told_of next.0 ∷ drop next.1 (told_in batch.now)) }
    ensures none { result ≡ None → drop at (told_in batch.now) ≡ [] }
{
    let notices = batch.notices.as_slice();
    if at < notices.len() {
        return Some((ToldRef::Note(&batch.context, &notices[at]), at + 1));
    }
    if notices.len() < at {
        return None;
    }
    match batch.ending {
        Some(ending) => Some((end(&batch.context, ending), at + 1)),
        None => None,
    }
}

// What is sent first, and what is left then.
fn first_told(batches: &[Batch], at: usize) -> Option<(ToldRef<'_>, ToldIter<'_>)>
    ensures some { IfSome result (λ next. left_to_tell batches.now at ≡ told_of next.0 ∷ next.1) }
    ensures none { result ≡ None → left_to_tell batches.now at ≡ [] }
{
    let mut left = batches;
    let mut told = at;
    while let Some((batch, others)) = left.split_first() {
        if let Some((first, at)) = told_at(batch, told) {
            return Some((first, ToldIter { batches: left, at }));
        }
        left = others;
        told = 0;
    }
    None
}

impl<'a> ToldIter<'a> {
    /// All that these batches send.
    pub(crate) fn over(batches: &'a [Batch]) -> ToldIter<'a>
        ensures { result ≡ all_told batches.now }
    {
        ToldIter { batches, at: 0 }
    }
}

impl<'a> Iterator for ToldIter<'a> {
    type Item = ToldRef<'a>;

    ghost next_gives = { YieldsFirstBy told_of (λ rest. rest) };

    ghost remaining = { item_count (λ rest. rest) };

    fn next(&mut self) -> Option<ToldRef<'a>> {
        let (told, left) = first_told(self.batches, self.at)?;
        *self = left;
        Some(told)
    }
}
