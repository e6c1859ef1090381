//! The names of several datasets' records, merged in their order.
ghost use Rattle.std.specs.Prelude.{◌≡◌, map};
ghost use Rattle.std.specs.Option.{option_copied};
ghost use Rattle.acap_inherit.specs.Merging as rule;

use crate::range::Range;
use acap_entries::EntryName;

// The lesser of two names, if there is one.
fn lesser<'a>(name: Option<&'a EntryName>, other: Option<&'a EntryName>) -> Option<&'a EntryName>
    ensures { option_copied result ≡ rule.lesser (option_copied name.entry) (option_copied other.entry) }
{
    match (name, other) {
        (Some(name), Some(other)) => {
            if other.cmp(name).is_lt() {
                Some(other)
            } else {
                Some(name)
            }
        }
        (Some(name), None) => Some(name),
        (None, other) => other,
    }
}

/// The least of the first names.
pub(crate) fn least_of<'a>(ranges: &[Range<'a>]) -> Option<&'a EntryName>
    ensures { rule.IsLeast (option_copied result) ranges.now }
{
    let mut least = None;
    for range in ranges {
        least = lesser(least, range.first());
    }
    least
}

/// Passes a name wherever it is the first.
pub(crate) fn pass_all(ranges: &mut [Range<'_>], name: &EntryName)
    ensures { ranges.new ≡ map (rule.past_name name.now) ranges.old }
{
    for range in ranges.iter_mut() {
        range.pass(name);
    }
}
