//! Reads items that stand one after the other, up to a limit (RFC 2244 section 8).

ghost use Rattle.std.specs.Prelude.{◌≡◌, ◌<◌, List};
ghost use Rattle.acap_lexer.specs.Token.{Token};
ghost use Rattle.acap_grammar.specs.Outcome.{Read, Reads};
ghost use Rattle.acap_grammar.specs.Series.{over, fits};
ghost use Rattle.acap_grammar.specs.Several.{several, some_of, strings_enclosed};

use crate::command_fault::CommandFault;
use crate::cursor::Cursor;
use crate::grammar_fault::GrammarFault;
use crate::words::{SearchWord, StoreWord};

/// How items stand one after the other.
#[derive(Clone, Copy, PartialEq, Eq)]
pub(crate) enum Series {
    /// Each begins with a string, up to the parenthesis that closes them.
    Enclosed,
    /// Each begins with a string, up to the end of the line.
    Strings,
    /// Each begins with a parenthesis, up to the end of the line.
    Entries,
    /// Each begins with the word of a STORE's modifier.
    StoreModifiers,
    /// Each begins with the word of a SEARCH's modifier.
    SearchModifiers,
}

impl Series {
    // Whether no further item comes.
    #[tactic(auto, unfolding(crate::specs::Storing::no_condition, crate::specs::Searching::no_modifier))]
    fn is_over(self, cursor: &Cursor<'_>) -> bool
        ensures { result ≡ over self cursor.now }
    {
        match self {
            Series::Enclosed => cursor.closes(),
            Series::Strings | Series::Entries => cursor.ends(),
            Series::StoreModifiers => cursor.lacks_word::<StoreWord>(),
            Series::SearchModifiers => cursor.lacks_word::<SearchWord>(),
        }
    }

    // Whether the first token is of a kind with which an item starts, so that it is one item too many.
    fn may_start(self, cursor: &Cursor<'_>) -> bool
        ensures { result ≡ fits self cursor.now }
    {
        match self {
            Series::Enclosed | Series::Strings => cursor.starts_string(),
            Series::Entries => cursor.opens(),
            Series::StoreModifiers | Series::SearchModifiers => self.is_over(cursor),
        }
    }
}

/// What is gathered item by item.
pub(crate) trait Gather: Drop + Sized {
    ghost item: { Self → List Token → Read Self };

    /// One item more.
    fn gather(self, cursor: &mut Cursor<'_>) -> Result<Self, GrammarFault>
        ensures { Reads result cursor.new (item self cursor.old) };
}

/// Items after those seen, at most `room`.
#[tactic(auto, using(crate::proofs::SeveralSteps::goes_on), unfolding(crate::specs::Several::several))]
pub(crate) fn several<S: Gather>(
    series: Series,
    seen: S,
    room: u32,
    cursor: &mut Cursor<'_>,
) -> Result<S, GrammarFault>
    ensures { Reads result cursor.new (several (over series) (fits series) S.item room seen cursor.old) }
{
    let mut all = seen;
    for _ in 0..room {
        if series.is_over(cursor) {
            return Ok(all);
        }
        all = all.gather(cursor)?;
    }
    if series.is_over(cursor) {
        return Ok(all);
    }
    if series.may_start(cursor) {
        return Err(GrammarFault::Fault(CommandFault::TooMany));
    }
    Err(GrammarFault::Fault(CommandFault::Arguments))
}

/// One item or more, at most `most`.
#[tactic(auto, unfolding(crate::specs::Several::some_of))]
pub(crate) fn some_of<S: Gather>(
    series: Series,
    none: S,
    most: u32,
    cursor: &mut Cursor<'_>,
) -> Result<S, GrammarFault>
    requires { 0 < most }
    ensures { Reads result cursor.new (some_of (over series) (fits series) S.item most none cursor.old) }
{
    let first = none.gather(cursor)?;
    several(series, first, most - 1, cursor)
}

/// The same in a parenthesis.
#[tactic(auto, unfolding(crate::specs::Several::in_parenthesis))]
pub(crate) fn read_enclosed<S: Gather>(
    none: S,
    most: u32,
    cursor: &mut Cursor<'_>,
) -> Result<S, GrammarFault>
    requires { 0 < most }
    ensures { Reads result cursor.new (strings_enclosed S.item most none cursor.old) }
{
    cursor.pass_open()?;
    let items = some_of(Series::Enclosed, none, most, cursor)?;
    cursor.closed(items)
}
