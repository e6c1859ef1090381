//! Random commands, the same ones for the same seed.

use acap_entries::Memory;
use std::alloc::Global;

/// A seeded generator.
#[derive(Drop)]
pub(crate) struct Dice {
    state: u64,
}

/// Words of a kind, of which one is taken at random.
type Words = &'static [&'static [u8]];

/// Datasets of two users.
const DATASETS: Words = &[
    b"/option/user/joe/a/",
    b"/option/user/joe/a/x/",
    b"/option/user/joe/b/",
    b"/option/user/ann/a/",
];

/// What a dataset may inherit from.
const BASES: Words = &[
    b"NIL",
    b"\"/option/user/joe/a/\"",
    b"\"/option/user/joe/a/x/\"",
    b"\"/option/user/joe/b/\"",
    b"\"/option/user/ann/a/\"",
];

const NAMES: Words = &[b"", b"m", b"x"];

const ATTRIBUTES: Words = &[b"k", b"k", b"j", b"option.value"];

const VALUES: Words = &[
    b"\"1\"",
    b"\"2\"",
    b"\"10\"",
    b"\"a\"",
    b"(\"value\" (\"1\" \"2\"))",
    b"(\"value\" (\"b\"))",
    b"(\"value\" ())",
    b"NIL",
    b"DEFAULT",
];

const FATES: Words = &[b"NIL", b"NIL", b"DEFAULT"];

const IDENTIFIERS: Words = &[b"ann", b"joe", b"anyone", b"-ann", b"-joe"];

const RIGHTS: Words = &[b"", b"r", b"xr", b"xrwi", b"xrwia"];

const DEPTHS: Words = &[b"", b"", b"", b" DEPTH 0", b" DEPTH 2"];

/// What is sent of each entry.
const RETURNS: Words = &[
    b" RETURN (\"k\")",
    b" RETURN (\"k\" (\"value\" \"acl\"))",
    b" RETURN (\"option.value\" \"j\")",
    b" RETURN (\"entry\" \"*\")",
];

/// A search of which a context may be made.
#[derive(Drop)]
pub(crate) struct Quest {
    /// What stands before a MAKECONTEXT.
    pub(crate) front: Vec<u8>,
    /// What is sent.
    pub(crate) returns: &'static [u8],
    /// In which order, and which entries are wanted.
    pub(crate) back: Vec<u8>,
    /// Whether the context has positions.
    pub(crate) enumerated: bool,
}

const SORTS: Words = &[
    b"",
    b" SORT (\"k\" \"i;octet\")",
    b" SORT (\"j\" \"-i;ascii-numeric\" \"k\" \"i;ascii-casemap\")",
    b" NOINHERIT SORT (\"option.value\" \"i;octet\")",
];

const KEYS: Words = &[
    b"ALL",
    b"ALL",
    b"NOT EQUAL \"k\" \"i;octet\" \"1\"",
    b"OR EQUAL \"k\" \"i;octet\" \"2\" PREFIX \"j\" \"i;octet\" \"1\"",
    b"COMPARE \"option.value\" \"+i;octet\" \"10\"",
];

/// Some pieces of a line, one after the other.
pub(crate) fn join(alloc: Global, parts: &[&[u8]]) -> Result<Vec<u8>, Memory> {
    let mut line = Vec::new(alloc);
    for part in parts {
        line.extend_from_slice(part)?;
    }
    Ok(line)
}

impl Quest {
    /// The same search once more.
    pub(crate) fn copy(&self, alloc: Global) -> Result<Quest, Memory> {
        Ok(Quest {
            front: join(alloc, &[&self.front])?,
            returns: self.returns,
            back: join(alloc, &[&self.back])?,
            enumerated: self.enumerated,
        })
    }

    // The search, with some words after its dataset.
    fn line(&self, alloc: Global, words: &[u8]) -> Result<Vec<u8>, Memory> {
        let mut line = Vec::new(alloc);
        line.extend_from_slice(self.front.as_slice())?;
        line.extend_from_slice(words)?;
        line.extend_from_slice(self.returns)?;
        line.extend_from_slice(self.back.as_slice())?;
        Ok(line)
    }

    /// The search.
    pub(crate) fn searching(&self, alloc: Global) -> Result<Vec<u8>, Memory> {
        self.line(alloc, b"")
    }

    /// The search that makes a context, whose name is one letter.
    pub(crate) fn making(&self, alloc: Global, name: u8) -> Result<Vec<u8>, Memory> {
        let mut words = Vec::new(alloc);
        words.extend_from_slice(b" MAKECONTEXT ")?;
        if self.enumerated {
            words.extend_from_slice(b"ENUMERATE ")?;
        }
        words.extend_from_slice(b"NOTIFY ")?;
        words.extend_from_slice(&[b'"', name, b'"'])?;
        self.line(alloc, words.as_slice())
    }

    /// A search for all that is in such a context.
    pub(crate) fn within(&self, alloc: Global, name: u8) -> Result<Vec<u8>, Memory> {
        join(
            alloc,
            &[b"T SEARCH \"", &[name, b'"'], self.returns, b" ALL"],
        )
    }
}

impl Dice {
    /// A generator that goes by a seed.
    pub(crate) fn new(seed: u64) -> Dice {
        Dice { state: seed }
    }

    /// A number under another one, which isn't 0.
    pub(crate) fn under(&mut self, below: usize) -> usize {
        self.state = self
            .state
            .wrapping_mul(6_364_136_223_846_793_005)
            .wrapping_add(1_442_695_040_888_963_407);
        match ((self.state >> 33) as usize).checked_rem(below) {
            Some(number) => number,
            None => 0,
        }
    }

    // One of some words.
    fn word(&mut self, words: &[&'static [u8]]) -> &'static [u8] {
        let at = self.under(words.len());
        match words.get(at) {
            Some(word) => *word,
            None => b"",
        }
    }

    // The path of an entry: its dataset and its name there.
    fn path(&mut self) -> (&'static [u8], &'static [u8]) {
        let dataset = self.word(DATASETS);
        (dataset, self.word(NAMES))
    }

    // What a STORE gives to an entry.
    fn entry(
        &mut self,
        alloc: Global,
        path: (&'static [u8], &'static [u8]),
    ) -> Result<Vec<u8>, Memory> {
        let (dataset, name) = path;
        let (attribute, value): (&[u8], &[u8]) = match self.under(12) {
            0 | 1 => (b"entry", self.word(FATES)),
            2 => (b"subdataset", b"(\"value\" (\".\"))"),
            _ => (self.word(ATTRIBUTES), self.word(VALUES)),
        };
        join(
            alloc,
            &[
                b" (\"", dataset, name, b"\" \"", attribute, b"\" ", value, b")",
            ],
        )
    }

    // A STORE of one entry or two.
    fn store(&mut self, alloc: Global) -> Result<Vec<u8>, Memory> {
        let (one, two) = (self.path(), self.path());
        let first = self.entry(alloc, one)?;
        if self.under(4) > 0 || one == two {
            return join(alloc, &[b"T STORE", first.as_slice()]);
        }
        let second = self.entry(alloc, two)?;
        join(alloc, &[b"T STORE", first.as_slice(), second.as_slice()])
    }

    // A dataset inherits from another, or from none.
    fn inherit(&mut self, alloc: Global) -> Result<Vec<u8>, Memory> {
        let heir = self.word(DATASETS);
        let base = self.word(BASES);
        join(
            alloc,
            &[b"T STORE (\"", heir, b"\" \"dataset.inherit\" ", base, b")"],
        )
    }

    // The object of a list of rights: a dataset, an attribute of it, or one of an entry.
    fn object(&mut self, alloc: Global) -> Result<Vec<u8>, Memory> {
        let dataset = self.word(DATASETS);
        let name = self.word(NAMES);
        let rest: &[u8] = match self.under(3) {
            0 => b"\")",
            1 => b"\" \"k\")",
            _ => return join(alloc, &[b" (\"", dataset, b"\" \"k\" \"", name, b"\")"]),
        };
        join(alloc, &[b" (\"", dataset, rest])
    }

    // Rights are given, withheld or forgotten.
    fn rights(&mut self, alloc: Global) -> Result<Vec<u8>, Memory> {
        let object = self.object(alloc)?;
        let who = self.word(IDENTIFIERS);
        let rights = self.word(RIGHTS);
        let object = object.as_slice();
        match self.under(4) {
            0 => join(alloc, &[b"T DELETEACL", object]),
            1 => join(alloc, &[b"T DELETEACL", object, b" \"", who, b"\""]),
            _ => join(
                alloc,
                &[b"T SETACL", object, b" \"", who, b"\" \"", rights, b"\""],
            ),
        }
    }

    /// A command that writes.
    pub(crate) fn command(&mut self, alloc: Global) -> Result<Vec<u8>, Memory> {
        match self.under(8) {
            0 => self.inherit(alloc),
            1 | 2 => self.rights(alloc),
            _ => self.store(alloc),
        }
    }

    /// A search of which a context may be made.
    pub(crate) fn quest(&mut self, alloc: Global) -> Result<Quest, Memory> {
        let depth = self.word(DEPTHS);
        let dataset = if depth.is_empty() {
            self.word(DATASETS)
        } else {
            b"/option/user/"
        };
        let front = join(alloc, &[b"T SEARCH \"", dataset, b"\"", depth])?;
        let returns = self.word(RETURNS);
        let sort = self.word(SORTS);
        let key = self.word(KEYS);
        let back = join(alloc, &[sort, b" ", key])?;
        let enumerated = self.under(2) == 0;
        Ok(Quest {
            front,
            returns,
            back,
            enumerated,
        })
    }
}
