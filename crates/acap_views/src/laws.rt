//! Laws of contexts, from the definitions alone: each function does nothing, and its contract is the law.
ghost use Rattle.acap_views.specs.Examples.{KeptExamples, NamedExamples, NoticeExamples};
ghost use Rattle.acap_views.specs.Laws.{NoticeLaw, CurrentLaw, ShownLaw, SeatsLaw, ChangedLaw, FoundLaw, MovedLaw};
ghost use Rattle.acap_views.specs.Clients.{ClientLaw};
ghost use Rattle.acap_views.specs.WaitingLaws.{WaitingLaw};
ghost use Rattle.acap_views.specs.RangingLaws.{RangedLaw};

use acap_search::{once_law, sight_law};

/// Notices of a change go by what is seen before and after, and lead a client from the old list to the new one (RFC 2244
/// sections 3.3, 3.5 and 6.5).
pub fn notice_law()
    ensures { NoticeLaw }
{
    sight_law();
    once_law();
}

/// Whatever happens to the contexts of a session, those that follow the store are current (RFC 2244 section 3.3).
pub fn current_law()
    ensures { CurrentLaw }
{
    notice_law();
    once_law();
}

/// When a client has been sent all, what it was sent is what a search finds then; a snapshot stays as it is (RFC 2244 section 3.3).
pub fn shown_law()
    ensures { ShownLaw }
{}

/// Which entries a change of the store changes for a search, and that it reaches each context of each seat (RFC 2244 section 3.3).
pub fn changed_law()
    ensures { ChangedLaw }
{}

/// A match goes by the name of its path: the full path where DEPTH was written, and else what stands after the dataset (RFC 2244
/// section 6.4.1).
pub fn found_law()
    ensures { FoundLaw }
{
    once_law();
}

/// What a change does to the list of a search: matches are taken out and put in, one name after the other (RFC 2244 section 6.5).
pub fn moved_law()
    ensures { MovedLaw }
{
    once_law();
}

/// What is done at one seat is done to its own contexts alone (RFC 2244 section 3.3).
pub fn seats_law()
    ensures { SeatsLaw }
{}

/// What events make of one context, computed from the definitions alone.
pub fn kept_examples()
    ensures { KeptExamples }
{}

/// Contexts by their names, computed from the definitions alone.
pub fn named_examples()
    ensures { NamedExamples }
{}

/// Notices of one change, computed from the definitions alone.
pub fn notice_examples()
    ensures { NoticeExamples }
{}

/// The notices that a client is sent of a context are those that wait, and lead it from the rows last sent to those that a search
/// finds then (RFC 2244 sections 3.3 and 6.5).
pub fn client_law()
    ensures { ClientLaw }
{}

/// A drain sends something exactly where something waits, and then nothing waits there; the bits of all seats are set exactly
/// where something waits (RFC 2244 sections 3.3 and 6.5).
pub fn waiting_law()
    ensures { WaitingLaw }
{}

/// A change of the store moves no position of a context, until its client is sent the notice (RFC 2244 sections 3.3 and 6.4.1).
pub fn ranged_law()
    ensures { RangedLaw }
{
    changed_law();
}
