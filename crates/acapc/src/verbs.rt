//! The commands of the program, with their words.

/// What a word of a call is.
pub(crate) enum Kind {
    /// One that has to be there.
    Needed,
    /// One that may be left out.
    Optional,
    /// The fewest and the most words that stand there.
    Words(usize, usize),
    /// An option with a text, which help names so.
    Text(&'static str),
    /// An option with a number, which help names so.
    Number(&'static str),
    /// An option alone.
    Flag,
}

/// A word of a call.
pub(crate) struct Word {
    /// Its name.
    pub(crate) name: &'static str,
    /// What it is.
    pub(crate) kind: Kind,
    /// What help says of it.
    pub(crate) help: &'static str,
}

/// A command of the program.
pub(crate) struct Verb {
    /// Its name.
    pub(crate) name: &'static str,
    /// What help says of it.
    pub(crate) about: &'static str,
    /// How it is called, where its words don't say so.
    pub(crate) usage: Option<&'static str>,
    /// Its words.
    pub(crate) words: &'static [Word],
}

/// The dataset of a call.
const DATASET: Word = Word {
    name: "DATASET",
    kind: Kind::Needed,
    help: "As /option/~/",
};

/// What help says of the words of an object, and of those after them.
const OBJECT: &str =
    "An object: a dataset, an attribute in it, or that of one entry; then what is named in the usage";

/// What stands before a command.
pub(crate) static PROGRAM: [Word; 4] = [
    Word {
        name: "secret-file",
        kind: Kind::Text("FILE"),
        help: "Read the secret from this file, without the end of its last line; else from ACAP_SECRET",
    },
    Word {
        name: "raw-octets",
        kind: Kind::Flag,
        help: "Print octets as they are, not those that aren't printable as in \\x0a",
    },
    Word {
        name: "HOST:PORT",
        kind: Kind::Needed,
        help: "Where the server listens",
    },
    Word {
        name: "USER",
        kind: Kind::Needed,
        help: "Who logs in",
    },
];

/// The commands, in the order in which help lists them.
pub(crate) static VERBS: [Verb; 13] = [
    Verb {
        name: "get",
        about: "Print values, a line each: entry, attribute and value, with TABs between them",
        usage: None,
        words: &[
            DATASET,
            Word {
                name: "ENTRY",
                kind: Kind::Optional,
                help: "Of this entry alone",
            },
            Word {
                name: "ATTRIBUTE",
                kind: Kind::Optional,
                help: "Of this attribute alone",
            },
        ],
    },
    Verb {
        name: "list",
        about: "Print the names of a dataset's entries",
        usage: None,
        words: &[
            DATASET,
            Word {
                name: "depth",
                kind: Kind::Number("N"),
                help: "Through N levels of datasets; 0 stands for all",
            },
        ],
    },
    Verb {
        name: "find",
        about: "Print the names of the entries in which an attribute has a value",
        usage: None,
        words: &[
            DATASET,
            Word {
                name: "ATTRIBUTE",
                kind: Kind::Needed,
                help: "The attribute",
            },
            Word {
                name: "VALUE",
                kind: Kind::Needed,
                help: "The value; - reads it from standard input",
            },
        ],
    },
    Verb {
        name: "set",
        about: "Store the value of an attribute",
        usage: None,
        words: &[
            DATASET,
            Word {
                name: "ENTRY",
                kind: Kind::Needed,
                help: "The entry, which is made where there is none",
            },
            Word {
                name: "ATTRIBUTE",
                kind: Kind::Needed,
                help: "The attribute",
            },
            Word {
                name: "VALUE",
                kind: Kind::Words(1, usize::MAX),
                help: "Several values are a list; - reads one from standard input",
            },
        ],
    },
    Verb {
        name: "unset",
        about: "Remove the value of an attribute, or an entry",
        usage: None,
        words: &[
            DATASET,
            Word {
                name: "ENTRY",
                kind: Kind::Needed,
                help: "The entry",
            },
            Word {
                name: "ATTRIBUTE",
                kind: Kind::Optional,
                help: "The attribute; without it the entry is removed",
            },
        ],
    },
    Verb {
        name: "acl",
        about: "Print my rights, and then the access list, a line each: identifier and rights",
        usage: Some("acapc HOST:PORT USER acl DATASET [ATTRIBUTE [ENTRY]]"),
        words: &[Word {
            name: "WORD",
            kind: Kind::Words(1, 3),
            help: OBJECT,
        }],
    },
    Verb {
        name: "grant",
        about: "Give an identifier rights",
        usage: Some("acapc HOST:PORT USER grant DATASET [ATTRIBUTE [ENTRY]] IDENTIFIER RIGHTS"),
        words: &[Word {
            name: "WORD",
            kind: Kind::Words(3, 5),
            help: OBJECT,
        }],
    },
    Verb {
        name: "revoke",
        about: "Take an identifier off an access list, or remove the list",
        usage: Some("acapc HOST:PORT USER revoke [--all] DATASET [ATTRIBUTE [ENTRY]] [IDENTIFIER]"),
        words: &[
            Word {
                name: "all",
                kind: Kind::Flag,
                help: "Remove the whole list; no identifier is named then",
            },
            Word {
                name: "WORD",
                kind: Kind::Words(1, 4),
                help: OBJECT,
            },
        ],
    },
    Verb {
        name: "watch",
        about: "Print the list of entries, then a line for each change, until interrupted",
        usage: None,
        words: &[
            DATASET,
            Word {
                name: "attribute",
                kind: Kind::Text("A"),
                help: "Print the values of this attribute after the name",
            },
            Word {
                name: "sort",
                kind: Kind::Text("A"),
                help: "Sort by this attribute, octet by octet",
            },
            Word {
                name: "once",
                kind: Kind::Flag,
                help: "Print the list alone",
            },
        ],
    },
    Verb {
        name: "dump",
        about: "Print what the server holds, as the commands that make it again",
        usage: None,
        words: &[],
    },
    Verb {
        name: "keep",
        about: "Keep a file current that makes what the server holds again, until interrupted",
        usage: None,
        words: &[
            Word {
                name: "FILE",
                kind: Kind::Needed,
                help: "The file, which is begun where there is none",
            },
            Word {
                name: "restore",
                kind: Kind::Flag,
                help: "Where the server has less than half of the file's entries, send it the file's commands",
            },
            Word {
                name: "accept",
                kind: Kind::Flag,
                help: "There keep what the server has, once the file has become FILE.1",
            },
            Word {
                name: "over-bases",
                kind: Kind::Flag,
                help: "Begin also where a dataset inherits, though what hides entries of a base isn't kept",
            },
        ],
    },
    Verb {
        name: "load",
        about: "Send a file of commands from standard input, and print what is refused",
        usage: None,
        words: &[],
    },
    Verb {
        name: "raw",
        about: "Send lines of standard input, and print what is answered",
        usage: None,
        words: &[],
    },
];
