//! Reads all tokens of a part.

ghost use Rattle.std.specs.Prelude.{◌≡◌, ◌≤◌, ◌<◌, length, IfOk, OnOk};
ghost use Rattle.acap_lexer.specs.declared.lexed.Mode.TheVariants as modes;
ghost use Rattle.acap_lexer.specs.Part.{part_within, begun_at, tag_of};
ghost use Rattle.acap_lexer.specs.Places.{LiesIn};
ghost use Rattle.acap_lexer.specs.Printing.{Grows};
ghost use Rattle.acap_lexer.specs.Reading.{Gives, GivesLeft};
ghost use Rattle.acap_lexer.specs.Taking.{TakesNext, LeavesCopy};

use crate::draft::Draft;
use crate::fault::{LexError, LexFault, Memory};
use crate::found::{Announced, Coming};
use crate::kind::Kind;
use crate::lexed::{Mode, Tag};
use crate::marks::mark_of;
use crate::reading::{gap_at, push_token, tag_at};
use std::alloc::Global;

/// Adds the next token of a text that goes up to the place `end` of the command, and whose copy goes up to the index
/// `behind`, unless that is its mark.
fn next_token<'a>(
    draft: &mut Draft,
    text: &'a [u8],
    end: usize,
    behind: usize,
) -> Result<Coming<'a>, LexError>
    requires within { length text.now ≤ end }
    requires copied { LiesIn draft.old.text behind text.now }
    ensures takes { TakesNext end draft.old.tokens draft.new.tokens text.now result }
    ensures grows { Grows draft.old.tokens draft.new.tokens }
    ensures copied { IfOk result (λ coming. LeavesCopy draft.new.text behind coming) }
{
    let front = gap_at(draft.last_kind(), text)?;
    if let Some(announced) = mark_of(front) {
        return Ok(Coming::Mark(end - front.len(), announced));
    }
    Ok(Coming::Rest(push_token(draft, front, end, behind)?))
}

/// Adds the tokens of a text that goes up to the place `end` of the command, and whose copy goes up to the index
/// `behind`. Gives the mark that it ends in, if any, after the place where that begins.
pub(crate) fn read_part(
    draft: &mut Draft,
    text: &[u8],
    end: usize,
    behind: usize,
) -> Result<Option<(usize, Announced)>, LexError>
    requires within { length text.now ≤ end }
    requires copied { LiesIn draft.old.text behind text.now }
    ensures gives { Gives (λ mark. record { tokens = draft.new.tokens; mark = mark }) result
        (part_within (length text.now) end draft.old.tokens text.now) }
    ensures grows { Grows draft.old.tokens draft.new.tokens }
{
    let mut left = text;
    'tokens: for _ in 0..text.len() {
        if left.is_empty() {
            return Ok(None);
        }
        match next_token(draft, left, end, behind)? {
            Coming::Mark(start, announced) => return Ok(Some((start, announced))),
            Coming::Rest(rest) => left = rest,
        }
    }
    if left.is_empty() {
        Ok(None)
    } else {
        Err(LexError::Fault(LexFault::BadToken))
    }
}

/// Adds the tag, where a command begins, of a part whose copy goes up to the index `behind`. Gives what is left to
/// read.
#[tactic(auto, using(crate::proofs::Copies::begun_tag))]
pub(crate) fn begin<'a>(
    mode: Mode,
    draft: &mut Draft,
    part: &'a [u8],
    behind: usize,
) -> Result<&'a [u8], LexError>
    requires { LiesIn draft.old.text behind part.now }
    ensures gives { GivesLeft draft.new.tokens result (begun_at mode draft.old.tokens part.now) }
    ensures within { IfOk result (λ left. length left.now ≤ length part.now) }
    ensures tagged { OnOk result (mode ≡ modes.Command → 0 < length draft.new.tokens) }
    ensures copied { IfOk result (λ left. LiesIn draft.new.text behind left.now) }
{
    if mode == Mode::Command && draft.is_empty() {
        let (tag, left) = tag_at(part)?;
        draft.push_front(Kind::Tag, part, tag.len(), behind, 0..tag.len())?;
        return Ok(left);
    }
    Ok(part)
}

/// The tag of a command that has one.
pub(crate) fn tag_of(alloc: Global, mode: Mode, draft: &Draft) -> Result<Option<Tag>, Memory>
    ensures { IfOk result (λ tag. tag ≡ tag_of mode draft.now.tokens) }
{
    if mode == Mode::Command && !draft.is_empty() {
        let tag = Vec::from_slice(alloc, draft.first_value())?;
        return Ok(Some(Tag::new(tag)));
    }
    Ok(None)
}
