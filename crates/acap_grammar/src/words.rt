//! The words that stand in commands beside their verbs (RFC 2244 sections 6.4.1 and 6.6.1).

ghost use Rattle.std.specs.Prelude.{◌≡◌, ℕ, List};
ghost use Rattle.acap_grammar.specs.Marks.{text_in, word_in};
ghost use Rattle.acap_grammar.specs.Rows.{rows_of};

use acap_commands::{Metadata, Relation, StoreMetadata, Verb};

/// The modifiers of a STORE's entry.
#[derive(Clone, Copy, PartialEq, Eq)]
pub(crate) enum StoreWord {
    /// NOCREATE.
    NoCreate,
    /// UNCHANGEDSINCE.
    UnchangedSince,
}

/// The modifiers of a SEARCH.
#[derive(Clone, Copy, PartialEq, Eq)]
pub(crate) enum SearchWord {
    /// DEPTH.
    Depth,
    /// HARDLIMIT.
    HardLimit,
    /// LIMIT.
    Limit,
    /// MAKECONTEXT.
    MakeContext,
    /// NOINHERIT.
    NoInherit,
    /// RETURN.
    Return,
    /// SORT.
    Sort,
}

/// The words with which keys begin.
#[derive(Clone, Copy, PartialEq, Eq)]
pub(crate) enum KeyWord {
    /// ALL.
    All,
    /// AND.
    And,
    /// OR.
    Or,
    /// NOT.
    Not,
    /// RANGE.
    Range,
    /// EQUAL, COMPARE, COMPARESTRICT, PREFIX and SUBSTRING.
    Meets(Relation),
}

const VERBS: [(&[u8], Verb); 12] = [
    (b"NOOP", Verb::Noop),
    (b"LOGOUT", Verb::Logout),
    (b"AUTHENTICATE", Verb::Authenticate),
    (b"STORE", Verb::Store),
    (b"SEARCH", Verb::Search),
    (b"SETACL", Verb::SetAcl),
    (b"DELETEACL", Verb::DeleteAcl),
    (b"MYRIGHTS", Verb::MyRights),
    (b"LISTRIGHTS", Verb::ListRights),
    (b"DELETEDSINCE", Verb::DeletedSince),
    (b"FREECONTEXT", Verb::FreeContext),
    (b"UPDATECONTEXT", Verb::UpdateContext),
];

const STORE_WORDS: [(&[u8], StoreWord); 2] = [
    (b"NOCREATE", StoreWord::NoCreate),
    (b"UNCHANGEDSINCE", StoreWord::UnchangedSince),
];

const SEARCH_WORDS: [(&[u8], SearchWord); 7] = [
    (b"DEPTH", SearchWord::Depth),
    (b"HARDLIMIT", SearchWord::HardLimit),
    (b"LIMIT", SearchWord::Limit),
    (b"MAKECONTEXT", SearchWord::MakeContext),
    (b"NOINHERIT", SearchWord::NoInherit),
    (b"RETURN", SearchWord::Return),
    (b"SORT", SearchWord::Sort),
];

const KEY_WORDS: [(&[u8], KeyWord); 10] = [
    (b"ALL", KeyWord::All),
    (b"AND", KeyWord::And),
    (b"OR", KeyWord::Or),
    (b"NOT", KeyWord::Not),
    (b"RANGE", KeyWord::Range),
    (b"EQUAL", KeyWord::Meets(Relation::Equal)),
    (b"COMPARE", KeyWord::Meets(Relation::AtLeast)),
    (b"COMPARESTRICT", KeyWord::Meets(Relation::Greater)),
    (b"PREFIX", KeyWord::Meets(Relation::Begins)),
    (b"SUBSTRING", KeyWord::Meets(Relation::Contains)),
];

/// The metadata that may be stored.
pub(crate) const STORE_METADATA: [(&[u8], StoreMetadata); 2] = [
    (b"value", StoreMetadata::Value),
    (b"acl", StoreMetadata::Acl),
];

/// The metadata that are printed.
pub(crate) const METADATA: [(&[u8], Metadata); 5] = [
    (b"acl", Metadata::Acl),
    (b"attribute", Metadata::Attribute),
    (b"myrights", Metadata::MyRights),
    (b"size", Metadata::Size),
    (b"value", Metadata::Value),
];

/// What a table has beside a word, which is read in any case.
fn meaning<W: Copy>(table: &[(&[u8], W)], word: &[u8]) -> Option<W>
    ensures { result ≡ word_in (rows_of table.now) word.now }
{
    let (row, others) = table.split_first()?;
    if word.eq_ignore_ascii_case(row.0) {
        Some(row.1)
    } else {
        meaning(others, word)
    }
}

/// What words stand for, which are read in any case.
pub(crate) trait Spelled: Copy {
    ghost table: { List (List ℕ × Self) };

    /// What a word stands for.
    fn look_up(word: &[u8]) -> Option<Self>
        ensures { result ≡ word_in table word.now };
}

impl Spelled for Verb {
    ghost use Rattle.acap_grammar.specs.Grammar.{verbs};

    ghost table = { verbs };

    fn look_up(word: &[u8]) -> Option<Verb> {
        meaning(&VERBS, word)
    }
}

impl Spelled for StoreWord {
    ghost use Rattle.acap_grammar.specs.Storing.{store_words};

    ghost table = { store_words };

    fn look_up(word: &[u8]) -> Option<StoreWord> {
        meaning(&STORE_WORDS, word)
    }
}

impl Spelled for SearchWord {
    ghost use Rattle.acap_grammar.specs.Searching.{search_words};

    ghost table = { search_words };

    fn look_up(word: &[u8]) -> Option<SearchWord> {
        meaning(&SEARCH_WORDS, word)
    }
}

impl Spelled for KeyWord {
    ghost use Rattle.acap_grammar.specs.Keys.{key_words};

    ghost table = { key_words };

    fn look_up(word: &[u8]) -> Option<KeyWord> {
        meaning(&KEY_WORDS, word)
    }
}

/// What a table has beside a text, octet by octet.
pub(crate) fn find_text<W: Copy>(table: &[(&[u8], W)], text: &[u8]) -> Option<W>
    ensures { result ≡ text_in (rows_of table.now) text.now }
{
    for row in table {
        if text == row.0 {
            return Some(row.1);
        }
    }
    None
}
