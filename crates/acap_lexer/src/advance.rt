//! Goes on with a command as far as its octets have come.

ghost use Rattle.std.specs.Prelude.{◌≡◌, ◌<◌, ◌^◌, [], List, ℕ, length, IfOk};
ghost use Rattle.acap_lexer.specs.Scanning.{IsSound, Reaches, IsDue, FitsIn, KeepsScan};

use crate::draft::Draft;
use crate::fault::Memory;
use crate::lexed::Mode;
use crate::outcomes::{Due, StageOutcome};
use crate::scan::Scan;
use crate::stages::step;
use std::alloc::Global;

/// A scan at the beginning of a command, which has read no token yet.
#[tactic(auto, using(crate::proofs::Reaching::reaches_start))]
pub(crate) fn start(draft: Draft, mode: Mode) -> Scan
    requires { draft.tokens ≡ [] }
    ensures sound { (text : List ℕ) → IsSound text result }
    ensures reaches { (text : List ℕ) → Reaches text result }
    ensures mode { result.mode ≡ mode }
{
    Scan {
        mode,
        draft,
        octets: 0,
        looked: 0,
        waits: 0,
        literal: None,
    }
}

/// Sees to it that the scan reads in this mode, from the beginning where it did in another.
pub(crate) fn turn_to(alloc: Global, scan: &mut Scan, mode: Mode)
    ensures sound { (text : List ℕ) → IsSound text scan.old → IsSound text scan.new }
    ensures reaches { (text : List ℕ) → Reaches text scan.old → Reaches text scan.new }
    ensures mode { scan.new.mode ≡ mode }
{
    if scan.mode != mode {
        *scan = start(Draft::new(alloc), mode);
    }
}

/// What is due next, after `told` continuations were sent.
pub(crate) fn advance(
    alloc: Global,
    scan: &mut Scan,
    told: usize,
    text: &[u8],
) -> Result<Due, Memory>
    requires sound { IsSound text.now scan.old }
    requires reaches { Reaches text.now scan.old }
    requires fits { length text.now < 2 ^ 63 }
    ensures due { IfOk result (λ due. IsDue scan.old.mode told text.now due) }
    ensures fits { IfOk result (λ due. FitsIn told text.now due) }
    ensures scan { IfOk result (λ due. KeepsScan text.now scan.old.mode scan.new due) }
{
    'stages: loop {
        if told < scan.waits {
            return Ok(Due::Plus);
        }
        match step(alloc, scan, text)? {
            StageOutcome::Waits => return Ok(Due::More),
            StageOutcome::Ends(lexed, taken) => return Ok(Due::Item(lexed, taken)),
            StageOutcome::Goes => {}
        }
    }
}
