//! Rows of calls through the passes of one served machine: what is done, how it is answered, and what closing reports.
use acap_commands::Fault;

/// What is done through a pass.
#[derive(Clone, Copy)]
pub(crate) enum Act {
    /// A user enters.
    Enters(&'static [u8]),
    /// Its user sends a command.
    Sends(&'static [u8]),
    /// It asks for its notices, this many times.
    Drains(u64),
    /// Its user leaves.
    Leaves,
}

/// The answer; of several times, the last one.
#[derive(Clone, Copy)]
pub(crate) enum Heard {
    /// A reply: its epoch, its place in the history, a bit for each seat that is rung, and its text.
    Reply(u64, u64, u64, &'static [u8]),
    /// It is refused.
    Refused(Fault),
}

/// What closing reports.
#[derive(Clone, Copy)]
pub(crate) enum Closing {
    /// That the pass of that seat is missing.
    Missing(u8),
    /// The number of the last epoch, and how many calls it has. Then for some seats how many of these calls the pass holds, and how many
    /// it made in earlier epochs: none at all other seats.
    Report(u64, usize, &'static [(u8, usize, u64)]),
}

/// Calls at moment 0, each through the pass with that number, and the closing after them: with all passes, or without one.
pub(crate) struct CallRow {
    pub(crate) name: &'static str,
    pub(crate) calls: &'static [(usize, Act, Heard)],
    pub(crate) without: Option<usize>,
    pub(crate) closing: Closing,
}

const HELLO: &[u8] = crate::stage::HELLO;

const STORED: &[u8] = b"* OK \"STORE done\"\r\n";

const STORE: Act = Act::Sends(b"A1 STORE (\"/option/~/font\" \"option.value\" \"mono\")\r\n");

const SEARCH: Act = Act::Sends(
    b"A2 SEARCH \"/option/~/\" RETURN (\"option.value\" \"modtime\") ALL\r\n",
);

const FOUND: &[u8] =
    b"* ENTRY \"font\" \"mono\" \"19700101000000000000\"\r\n* MODTIME \"19700101000000000000\"\r\n* OK \"SEARCH done\"\r\n";

/// Joe stores at one seat, and finds it at another.
const STORE_AND_SEARCH: &[(usize, Act, Heard)] = &[
    (0, Act::Enters(b"joe"), Heard::Reply(0, 0, 0, HELLO)),
    (0, STORE, Heard::Reply(0, 1, 0, STORED)),
    (0, Act::Leaves, Heard::Reply(0, 2, 0, b"")),
    (1, Act::Enters(b"joe"), Heard::Reply(0, 3, 0, HELLO)),
    (1, SEARCH, Heard::Reply(0, 4, 0, FOUND)),
    (1, Act::Leaves, Heard::Reply(0, 5, 0, b"")),
];

/// Seat 1 is rung once, and again only after its own drain or update.
const RINGS: &[(usize, Act, Heard)] = &[
    (0, Act::Enters(b"joe"), Heard::Reply(0, 0, 0, HELLO)),
    (1, Act::Enters(b"joe"), Heard::Reply(0, 1, 0, HELLO)),
    (0, STORE, Heard::Reply(0, 2, 0, STORED)),
    (
        1,
        Act::Sends(
            b"B1 SEARCH \"/option/~/\" MAKECONTEXT NOTIFY \"c\" RETURN (\"option.value\") NOT EQUAL \"entry\" \"i;octet\" \"\"\r\n",
        ),
        Heard::Reply(
            0,
            3,
            0,
            b"* ENTRY \"font\" \"mono\"\r\n* MODTIME \"19700101000000000000\"\r\n* OK \"SEARCH done\"\r\n",
        ),
    ),
    (
        0,
        Act::Sends(b"A2 STORE (\"/option/~/font\" \"option.value\" \"serif\")\r\n"),
        Heard::Reply(0, 4, 2, STORED),
    ),
    (
        0,
        Act::Sends(b"A3 STORE (\"/option/~/font\" \"option.value\" \"sans\")\r\n"),
        Heard::Reply(0, 5, 0, STORED),
    ),
    (
        1,
        Act::Sends(b"B2 UPDATECONTEXT \"c\"\r\n"),
        Heard::Reply(
            0,
            6,
            0,
            b"* CHANGE \"c\" \"font\" 0 0 \"serif\"\r\n* CHANGE \"c\" \"font\" 0 0 \"sans\"\r\n* MODTIME \"c\" \"19700101000000000002\"\r\n* OK \"UPDATECONTEXT done\"\r\n",
        ),
    ),
    (
        0,
        Act::Sends(b"A4 STORE (\"/option/~/font\" \"option.value\" \"x\")\r\n"),
        Heard::Reply(0, 7, 0, STORED),
    ),
    (
        1,
        Act::Drains(1),
        Heard::Reply(0, 8, 0, b"* CHANGE \"c\" \"font\" 0 0 \"x\"\r\n"),
    ),
    (
        0,
        Act::Sends(b"A5 STORE (\"/option/~/font\" \"option.value\" \"y\")\r\n"),
        Heard::Reply(0, 9, 2, STORED),
    ),
];

const REFUSED: &[(usize, Act, Heard)] = &[
    (5, Act::Drains(1), Heard::Refused(Fault::NotEntered)),
    (5, Act::Enters(b"ann"), Heard::Reply(0, 0, 0, HELLO)),
    (
        5,
        Act::Enters(b"ann"),
        Heard::Refused(Fault::AlreadyEntered),
    ),
];

/// 500,000 calls are all of one epoch. The next one begins another, and the seat is still entered.
const ONE_EPOCH: &[(usize, Act, Heard)] = &[
    (0, Act::Enters(b"joe"), Heard::Reply(0, 0, 0, HELLO)),
    (0, Act::Drains(499_999), Heard::Reply(0, 499_999, 0, b"")),
    (0, Act::Drains(1), Heard::Reply(1, 0, 0, b"")),
    (
        0,
        Act::Enters(b"joe"),
        Heard::Refused(Fault::AlreadyEntered),
    ),
];

/// 1,000,000 calls are of two epochs, and the next one begins a third.
const TWO_EPOCHS: &[(usize, Act, Heard)] = &[
    (0, Act::Enters(b"joe"), Heard::Reply(0, 0, 0, HELLO)),
    (0, Act::Drains(999_999), Heard::Reply(1, 499_999, 0, b"")),
    (0, Act::Drains(1), Heard::Reply(2, 0, 0, b"")),
];

/// What was stored in one epoch is found in the next. A pass that makes no call in the new one keeps the count of its earlier ones.
const STORED_BEFORE: &[(usize, Act, Heard)] = &[
    (0, Act::Enters(b"joe"), Heard::Reply(0, 0, 0, HELLO)),
    (0, STORE, Heard::Reply(0, 1, 0, STORED)),
    (63, Act::Enters(b"joe"), Heard::Reply(0, 2, 0, HELLO)),
    (63, Act::Drains(499_997), Heard::Reply(0, 499_999, 0, b"")),
    (0, SEARCH, Heard::Reply(1, 0, 0, FOUND)),
];

/// All rows.
pub(crate) static ROWS: [CallRow; 7] = [
    CallRow {
        name: "a STORE and a SEARCH",
        calls: STORE_AND_SEARCH,
        without: None,
        closing: Closing::Report(0, 6, &[(0, 3, 0), (1, 3, 0)]),
    },
    CallRow {
        name: "a pass is missing",
        calls: STORE_AND_SEARCH,
        without: Some(1),
        closing: Closing::Missing(1),
    },
    CallRow {
        name: "a seat is rung once",
        calls: RINGS,
        without: None,
        closing: Closing::Report(0, 10, &[(0, 6, 0), (1, 4, 0)]),
    },
    CallRow {
        name: "a call that is refused isn't counted",
        calls: REFUSED,
        without: None,
        closing: Closing::Report(0, 1, &[(5, 1, 0)]),
    },
    CallRow {
        name: "a second epoch",
        calls: ONE_EPOCH,
        without: None,
        closing: Closing::Report(1, 1, &[(0, 1, 500_000)]),
    },
    CallRow {
        name: "a third epoch",
        calls: TWO_EPOCHS,
        without: None,
        closing: Closing::Report(2, 1, &[(0, 1, 1_000_000)]),
    },
    CallRow {
        name: "an epoch after a STORE",
        calls: STORED_BEFORE,
        without: None,
        closing: Closing::Report(1, 1, &[(0, 1, 2), (63, 0, 499_998)]),
    },
];
