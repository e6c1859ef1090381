//! Laws of sessions, pipes and scripts, from the definitions alone: each function does nothing, and its contract is the law.
ghost use Rattle.acap_session.specs.Completing.{CompletionExamples, CompletionForm, CompletionLaw};
ghost use Rattle.acap_session.specs.Live.{LiveLaw};
ghost use Rattle.acap_session.specs.Seating.{SeatingLaw};
ghost use Rattle.acap_session.specs.PipeSteps.{PipeRuns};
ghost use Rattle.acap_session.specs.ScriptExamples.{ScriptExamples};
ghost use Rattle.acap_session.specs.ScriptTaking.{ScriptRuns};
ghost use Rattle.acap_session.specs.ScriptWriting.{ScriptLaw};
ghost use Rattle.acap_session.specs.Taking.{TakingLaw};
ghost use Rattle.acap_session.specs.Laws.{PiecesJoin, TurnsKeep, CuttingLaw, JoiningLaw, OthersStay};
ghost use Rattle.acap_session.specs.Laws.{SessionLaw, StepAlone, AloneLaw, RefusedTurns, WrittenLaw};

use acap_machine::laws::{current_law, held_law, seen_law};

/// What is written for what a pipe reads is what the only session of a world says, opened at seat 0 and given the same
/// pieces, each with its turns after it (RFC 2244 section 2).
pub fn pipe_runs()
    ensures { PipeRuns }
{}

/// Two pieces are taken as they are taken joined (RFC 2244 section 2).
pub fn pieces_join()
    ensures { PiecesJoin }
{}

/// A turn comes to the same where more octets stand after those held (RFC 2244 section 2).
pub fn turns_keep()
    ensures { TurnsKeep }
{}

/// How a client's octets are cut makes no difference (RFC 2244 section 2).
pub fn cutting_law()
    ensures { CuttingLaw }
{}

/// What comes of octets in pieces comes of them as one piece (RFC 2244 section 2).
pub fn joining_law()
    ensures { JoiningLaw }
{}

/// A step at one seat leaves what stands at every other (RFC 2244 section 2).
pub fn others_stay()
    ensures { OthersStay }
{}

/// One step of a world is one step of the session at its seat, with the machine's own answers: its octets, the session and the
/// machine are what the session alone makes of these (RFC 2244 section 2).
pub fn session_law()
    ensures { SessionLaw }
{}

/// A step makes of its seat what the session makes of the machine's answer, without the machine (RFC 2244 section 2).
pub fn step_alone()
    ensures { StepAlone }
{}

/// A session depends on the others through the machine's replies alone (RFC 2244 section 2).
pub fn alone_law()
    ensures { AloneLaw }
{}

/// A turn whose event is refused memory says so under the tag of its command, and leaves the machine as it was
/// (RFC 2244 section 6.2).
pub fn refused_turns()
    ensures { RefusedTurns }
{}

/// What a pipe writes is determined by what it read and by which events were refused memory, and by what it read alone
/// where none was (RFC 2244 section 2).
pub fn written_law()
    ensures { WrittenLaw }
{}

/// A seat has an occupant exactly where its session has entered, so that the machine never answers a session that its
/// seat is empty or taken (RFC 2244 section 2).
pub fn seating_law()
    ensures { SeatingLaw }
{}

/// Each command that a session hears has one completion, under its tag, in the order of the commands (RFC 2244 sections
/// 2.2 and 6.2).
pub fn completion_law()
    ensures { CompletionLaw }
{}

/// Which commands are heard, and which replies complete one (RFC 2244 sections 2.2 and 6.2).
pub fn completion_examples()
    ensures { CompletionExamples }
{}

/// The last line of a reply that completes a command is `tag OK ..`, `tag NO ..` or `tag BAD ..` (RFC 2244 section 6.2).
pub fn completion_form()
    ensures { CompletionForm }
{}

/// When what was said is taken from a seat makes no difference: the machine, the sessions and the replies are those
/// of the run in which nothing is taken, whose octets are those that were taken and then those that are left
/// (RFC 2244 section 2).
pub fn taking_law()
    ensures { TakingLaw }
{}

/// The lines of a script are such a run, of a world for which they set who may log in, the realm and the host; and
/// what is taken after each line at a seat is what the script writes (RFC 2244 section 2).
pub fn script_runs()
    ensures { ScriptRuns }
{}

/// What a script writes is a function of what it reads: its lines, one after the other, and what is printed of the session
/// at the seat of each. Where no event is refused memory a script writes exactly that, and ends at the line that this
/// function finds wrong, if it finds one (RFC 2244 section 2).
pub fn script_law()
    ensures { ScriptLaw }
{}

/// What whole scripts write; how what a session says is cut into lines; that octets for which there was no room are offered
/// again; and that what comes after a close isn't heard (RFC 2244 section 2).
pub fn script_examples()
    ensures { ScriptExamples }
{}

/// Whatever sessions do, and in whichever order: the client of a live context that begins with the whole list of the SEARCH which made
/// it, and applies the notices of that context as its session is sent them, meets none that misfits; and where an UPDATECONTEXT of its
/// name ends, and after a drain, it holds exactly what a search finds then. All of that comes of what its user sees (RFC 2244 sections
/// 3.3, 3.5 and 6.5).
pub fn live_law()
    ensures { LiveLaw }
{
    current_law();
    held_law();
    seen_law();
}
