//! Laws of the machine, from the definitions alone: each function does nothing, and its contract is the law.
ghost use Rattle.acap_machine.specs.Client.{HeldLaw, SeenLaw};
ghost use Rattle.acap_machine.specs.Completing.{CompletingLaw};
ghost use Rattle.acap_machine.specs.Examples.{FoundExamples, ServingExamples, SeatLaw};
ghost use Rattle.acap_machine.specs.Following.{CurrentLaw, FollowedLaw};
ghost use Rattle.acap_machine.specs.Laws.{RefusedLaw, OthersLaw, ChangeLaw};
ghost use Rattle.acap_machine.specs.Plain.{PlainLaw};

use acap_search::sight_law;
use acap_store::sound_law;
use acap_views::current_law as contexts_law;

/// A refused event leaves the machine as it was, whichever event it is (RFC 2244 section 6.2).
pub fn refused_law()
    ensures { RefusedLaw }
{}

/// No event changes who is who, or who sits at another seat (RFC 2244 section 2).
pub fn others_law()
    ensures { OthersLaw }
{}

/// Each change of the store is what a command which writes asks for, later than the one before it, and followed by the contexts of all
/// seats; nothing else changes a context of another seat (RFC 2244 sections 3.1.1 and 3.3).
pub fn change_law()
    ensures { ChangeLaw }
{}

/// Each event keeps the store sound, and each live context current (RFC 2244 section 3.3).
pub fn current_law()
    ensures { CurrentLaw }
{
    sound_law();
    contexts_law();
}

/// After every list of steps each live context keeps what a search finds in the machine of that moment, and the notices that wait lead
/// its client there (RFC 2244 section 3.3).
pub fn followed_law()
    ensures { FollowedLaw }
{
    sound_law();
    contexts_law();
}

/// The client of a live context that begins with the whole list of the SEARCH which made it, and applies the notices of that context as
/// its session is sent them, holds the rows that were sent last; where an UPDATECONTEXT of its name ends, and after a drain, these are
/// what a search finds then (RFC 2244 sections 3.3 and 6.5).
pub fn held_law()
    ensures { HeldLaw }
{}

/// What a client holds that was sent all comes of what its user sees: where two see the same for a search, they hold the same rows in the
/// same places (RFC 2244 sections 3.3 and 3.5).
pub fn seen_law()
    ensures { SeenLaw }
{
    sight_law();
}

/// For every list of steps the machine answers as the one that keeps no list beside its contexts and searches anew, and it is that machine
/// with the present lists forgotten (RFC 2244 sections 3.3 and 6.5).
pub fn plain_law()
    ensures { PlainLaw }
{
    sound_law();
    contexts_law();
}

/// What a SEARCH prints of its matches (RFC 2244 section 6.4.1).
pub fn found_examples()
    ensures { FoundExamples }
{}

/// What is served, and what LISTRIGHTS prints (RFC 2244 sections 6.2 and 6.7).
pub fn serving_examples()
    ensures { ServingExamples }
{}

/// Who may enter, ask and leave, and that a fault changes nothing (RFC 2244 section 2).
pub fn seat_law()
    ensures { SeatLaw }
{}

/// What the machine says to a command completes it: OK, NO or BAD, and no BYE (RFC 2244 section 6.2).
pub fn completing_law()
    ensures { CompletingLaw }
{}
