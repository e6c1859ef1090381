//! The stages of a command: its parts and its literals in turn.

ghost use Rattle.std.specs.Prelude.{◌≡◌, ◌≤◌, ◌<◌, ◌+◌, ◌^◌, length, IfOk};
ghost use Rattle.acap_lexer.specs.declared.lexed.Mode.TheVariants as modes;
ghost use Rattle.acap_lexer.specs.Part.{part_within, tag_of};
ghost use Rattle.acap_lexer.specs.Places.{LiesIn};
ghost use Rattle.acap_lexer.specs.Scanning.{IsSound, IsNearer, ReadsWhole, StaysSound, Steps, Turns, TurnsAtMark, OpensOn};
ghost use Rattle.acap_lexer.specs.Stream.{step_by_part};

use crate::draft::Draft;
use crate::ends::{PART_LIMIT, part_end};
use crate::fault::{LexError, LexFault, Memory};
use crate::found::{Announced, PartEnd};
use crate::kind::Kind;
use crate::lexed::Lexed;
use crate::outcomes::StageOutcome;
use crate::part::{begin, read_part, tag_of};
use crate::scan::{Literal, Scan};
use std::alloc::Global;
use std::mem;

/// The most octets of a command, its literals and each CR LF counted.
const COMMAND_LIMIT: usize = 262144;

/// Goes on to the literal that a part's mark announces. The part ends at the place `end` of the command.
fn open_literal(scan: &mut Scan, start: usize, announced: Announced, end: usize) -> StageOutcome
    requires end { end + 2 < 2 ^ 63 }
    requires waits { scan.old.waits ≤ scan.old.octets }
    requires within { scan.old.octets ≤ end }
    ensures turns { TurnsAtMark end start announced scan.old scan.new result }
    ensures opens { OpensOn (end + 2) scan.new result }
{
    let behind = end + 2;
    if behind + announced.count as usize + 2 > COMMAND_LIMIT {
        return StageOutcome::Ends(Lexed::Fatal(LexFault::CommandTooLong), behind);
    }
    scan.waits += usize::from(announced.waits);
    scan.octets = behind;
    scan.looked = 0;
    scan.literal = Some(Literal {
        start,
        count: announced.count as usize,
    });
    StageOutcome::Goes
}

/// Reads the rest of a part after the tag. It goes up to the place `end` of the command, and its copy up to the index
/// `behind`.
fn read_rest(
    alloc: Global,
    scan: &mut Scan,
    rest: &[u8],
    end: usize,
    behind: usize,
) -> Result<StageOutcome, Memory>
    requires length { length rest.now ≤ end }
    requires end { end + 2 < 2 ^ 63 }
    requires waits { scan.old.waits ≤ scan.old.octets }
    requires within { scan.old.octets ≤ end }
    requires copied { LiesIn scan.old.draft.text behind rest.now }
    requires tagged { scan.old.mode ≡ modes.Command → 0 < length scan.old.draft.tokens }
    ensures turns { IfOk result (λ turn. Turns (step_by_part (tag_of scan.old.mode scan.old.draft.tokens) end
        (part_within (length rest.now) end scan.old.draft.tokens rest.now)) scan.old scan.new turn) }
    ensures opens { IfOk result (λ turn. OpensOn (end + 2) scan.new turn) }
{
    match read_part(&mut scan.draft, rest, end, behind) {
        Err(LexError::Memory) => Err(Memory),
        Err(LexError::Fault(fault)) => {
            let tag = tag_of(alloc, scan.mode, &scan.draft)?;
            Ok(StageOutcome::Ends(Lexed::Bad(fault, tag), end + 2))
        }
        Ok(None) => {
            let draft = mem::replace(&mut scan.draft, Draft::new(alloc));
            Ok(StageOutcome::Ends(Lexed::Line(draft.finish()), end + 2))
        }
        Ok(Some((start, announced))) => Ok(open_literal(scan, start, announced, end)),
    }
}

/// Reads a whole part, without its CR LF.
#[tactic(auto, unfolding(crate::specs::Stream::step_of_part))]
fn read_whole(alloc: Global, scan: &mut Scan, part: &[u8]) -> Result<StageOutcome, Memory>
    requires end { scan.old.octets + length part.now + 2 < 2 ^ 63 }
    requires waits { scan.old.waits ≤ scan.old.octets }
    ensures turns { ReadsWhole part.now scan.old scan.new result }
    ensures opens { IfOk result (λ turn. OpensOn (scan.old.octets + length part.now + 2) scan.new turn) }
{
    let end = scan.octets + part.len();
    if end + 2 > COMMAND_LIMIT {
        return Ok(StageOutcome::Ends(Lexed::Fatal(LexFault::CommandTooLong), end + 2));
    }
    let behind = scan.draft.copy_part(part)?;
    match begin(scan.mode, &mut scan.draft, part, behind) {
        Err(LexError::Memory) => Err(Memory),
        Err(LexError::Fault(fault)) => Ok(StageOutcome::Ends(Lexed::Bad(fault, None), end + 2)),
        Ok(rest) => read_rest(alloc, scan, rest, end, behind),
    }
}

/// Reads the part that comes next, if it is whole.
#[tactic(auto, unfolding(crate::specs::Stream::step_of))]
fn part_step(alloc: Global, scan: &mut Scan, text: &[u8]) -> Result<StageOutcome, Memory>
    requires sound { IsSound text.now scan.old }
    requires part { scan.old.literal ≡ None }
    requires fits { length text.now < 2 ^ 63 }
    ensures turns { Steps text.now scan.old scan.new result }
    ensures sound { IfOk result (λ turn. StaysSound text.now scan.new turn) }
    ensures nearer { IfOk result (λ turn. IsNearer text.now scan.old scan.new turn) }
{
    let rest = &text[scan.octets..];
    match part_end(rest, scan.looked) {
        PartEnd::At(n) => read_whole(alloc, scan, &rest[..n]),
        PartEnd::Never => Ok(StageOutcome::Ends(
            Lexed::Fatal(LexFault::LineTooLong),
            scan.octets + PART_LIMIT,
        )),
        PartEnd::NotYet => {
            scan.looked = rest.len();
            Ok(StageOutcome::Waits)
        }
    }
}

/// Reads the literal that comes next, if it is whole.
#[tactic(auto, unfolding(crate::specs::Stream::step_of))]
fn literal_step(scan: &mut Scan, literal: Literal, text: &[u8]) -> Result<StageOutcome, Memory>
    requires sound { IsSound text.now scan.old }
    requires literal { scan.old.literal ≡ Some literal }
    requires fits { length text.now < 2 ^ 63 }
    ensures turns { Steps text.now scan.old scan.new result }
    ensures sound { IfOk result (λ turn. StaysSound text.now scan.new turn) }
    ensures nearer { IfOk result (λ turn. IsNearer text.now scan.old scan.new turn) }
{
    let rest = &text[scan.octets..];
    if rest.len() < literal.count {
        return Ok(StageOutcome::Waits);
    }
    let behind = scan.octets + literal.count;
    scan.draft.push(Kind::Literal, &rest[..literal.count], literal.start..behind)?;
    scan.octets = behind;
    scan.looked = 0;
    scan.literal = None;
    Ok(StageOutcome::Goes)
}

/// Reads what comes next of the command that begins the text, if it is whole.
pub(crate) fn step(alloc: Global, scan: &mut Scan, text: &[u8]) -> Result<StageOutcome, Memory>
    requires sound { IsSound text.now scan.old }
    requires fits { length text.now < 2 ^ 63 }
    ensures turns { Steps text.now scan.old scan.new result }
    ensures sound { IfOk result (λ turn. StaysSound text.now scan.new turn) }
    ensures nearer { IfOk result (λ turn. IsNearer text.now scan.old scan.new turn) }
{
    match scan.literal {
        None => part_step(alloc, scan, text),
        Some(literal) => literal_step(scan, literal, text),
    }
}
