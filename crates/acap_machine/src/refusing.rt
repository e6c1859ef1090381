//! The refusal that each fault of a search, a write or a context is answered with.
ghost use Rattle.std.specs.Prelude.{◌≡◌, false, IfOk, OnOk};
ghost use Rattle.acap_commands.specs.Answers.{is_memory};
ghost use Rattle.acap_commands.specs.declared.said.Said.TheVariants as saying;
ghost use Rattle.acap_machine.specs.Searching as rule;

use acap_commands::{Refusal, Said};
use acap_entries::{Dataset, Memory};
use acap_search::{Query, SearchRefusal};
use acap_views::ViewRefusal;

/// What is said of a refused change or list.
pub(crate) fn refuse(refusal: Refusal) -> Result<Said, Memory>
    ensures words { IfOk result (λ words. words ≡ saying.Refused refusal) }
    ensures other { OnOk result (is_memory refusal ≡ false) }
{
    match refusal {
        Refusal::Memory => Err(Memory),
        refusal => Ok(Said::Refused(refusal)),
    }
}

// What is said of a refused search, with the dataset that was searched.
fn refuse_search(dataset: Dataset, refusal: SearchRefusal) -> Result<Said, Memory>
    ensures words { IfOk result (λ words. words ≡ saying.Refused (rule.refused_as dataset refusal)) }
    ensures other { OnOk result (rule.is_search_memory refusal ≡ false) }
{
    match refusal {
        SearchRefusal::RangeHere => Ok(Said::Refused(Refusal::RangeHere)),
        SearchRefusal::NoExist => Ok(Said::Refused(Refusal::NoExist(dataset))),
        SearchRefusal::TooOld => Ok(Said::Refused(Refusal::TooOld)),
        SearchRefusal::WayTooMany => Ok(Said::Refused(Refusal::WayTooMany)),
        SearchRefusal::Memory => Err(Memory),
    }
}

/// What is said of a refused search, with the dataset of its query.
pub(crate) fn refuse_query(query: Query, refusal: SearchRefusal) -> Result<Said, Memory>
    ensures words { IfOk result
        (λ words. words ≡ saying.Refused (rule.refused_as query.sought.dataset refusal)) }
    ensures other { OnOk result (rule.is_search_memory refusal ≡ false) }
{
    let sought = query.sought;
    refuse_search(sought.dataset, refusal)
}

/// What is said of what is asked of a context, and refused.
pub(crate) fn refuse_view(refusal: ViewRefusal) -> Result<Said, Memory>
    ensures words { IfOk result (λ words. words ≡ saying.Refused (rule.view_refused_as refusal)) }
    ensures other { OnOk result (rule.is_view_memory refusal ≡ false) }
{
    match refusal {
        ViewRefusal::TryFreeContext => Ok(Said::Refused(Refusal::TryFreeContext)),
        ViewRefusal::NoContext => Ok(Said::Refused(Refusal::NoContext)),
        ViewRefusal::FreedContext => Ok(Said::Refused(Refusal::FreedContext)),
        ViewRefusal::NotNotify => Ok(Said::Refused(Refusal::NotNotify)),
        ViewRefusal::Memory => Err(Memory),
    }
}
