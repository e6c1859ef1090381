//! Laws of a session's dialogue, from the definitions alone: each function does nothing, and its contract is the law.
ghost use Rattle.acap_dialogue.specs.Examples.{AnswerExamples, HearingExamples, LoginExamples};
ghost use Rattle.acap_dialogue.specs.Examples.{NextExamples, RunExamples};
ghost use Rattle.acap_dialogue.specs.Running.{QuietLaw, SeatedLaw};

/// What is said to the machine's answers and faults, also after a login (RFC 2244 sections 3.6, 6.2 and 6.3.1).
pub fn answer_examples()
    ensures { AnswerExamples }
{}

/// What is said to a line, or asked of the machine (RFC 2244 sections 2.2 and 6.3.1).
pub fn hearing_examples()
    ensures { HearingExamples }
{}

/// What is said to the answer to a challenge (RFC 2244 section 6.3.1; RFC 2195 section 2).
pub fn login_examples()
    ensures { LoginExamples }
{}

/// What is next at each stage of a session.
pub fn next_examples()
    ensures { NextExamples }
{}

/// What runs of a session come to, and which can't be made (RFC 2244 section 2).
pub fn run_examples()
    ensures { RunExamples }
{}

/// In a run in which no memory was refused, an Enter stands exactly where the session says that its user has the seat
/// (RFC 2244 section 2).
pub fn seated_law()
    ensures { SeatedLaw }
{}

/// Where nothing is next, nothing is next on any other occasion: a further turn comes to nothing until octets come (RFC 2244
/// section 2).
pub fn quiet_law()
    ensures { QuietLaw }
{}
