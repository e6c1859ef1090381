//! `Rights`: a set of the five rights x, r, w, i and a.
ghost use Rattle.std.specs.Prelude.{◌≡◌, if◌then◌else◌, IfOk};
ghost use Rattle.acap_rights.specs.Rights as rule;

use acap_entries::{Memory, Sequence, Value, Values};
use std::alloc::Global;

/// Some of the five rights (RFC 2244 section 3.5).
#[derive(Clone, Copy, PartialEq, Eq)]
pub struct Rights {
    /// To search: to use the key EQUAL with the comparator `i;octet`.
    pub x: bool,
    /// To read.
    pub r: bool,
    /// To write.
    pub w: bool,
    /// To insert: to store where there was nothing.
    pub i: bool,
    /// To administer: to change access control lists.
    pub a: bool,
}

impl Rights {
    /// None of them.
    pub fn none() -> Rights
        ensures { result ≡ rule.no_rights }
    {
        Rights {
            x: false,
            r: false,
            w: false,
            i: false,
            a: false,
        }
    }

    /// All five.
    pub fn all() -> Rights
        ensures { result ≡ rule.all_rights }
    {
        Rights {
            x: true,
            r: true,
            w: true,
            i: true,
            a: true,
        }
    }

    /// These where the test holds, else none.
    pub(crate) fn only_if(self, test: bool) -> Rights
        ensures { result ≡ (if test then self else rule.no_rights) }
    {
        if test { self } else { Rights::none() }
    }

    /// Those that stand in either.
    pub fn union(self, other: Rights) -> Rights
        ensures { result ≡ rule.union self other }
    {
        Rights {
            x: self.x || other.x,
            r: self.r || other.r,
            w: self.w || other.w,
            i: self.i || other.i,
            a: self.a || other.a,
        }
    }

    /// These without the others.
    pub fn less(self, other: Rights) -> Rights
        ensures { result ≡ rule.less self other }
    {
        Rights {
            x: self.x && !other.x,
            r: self.r && !other.r,
            w: self.w && !other.w,
            i: self.i && !other.i,
            a: self.a && !other.a,
        }
    }

    // Their letters, in the order `xrwia`.
    fn text(self) -> &'static [u8]
        ensures { result.now ≡ rule.letters_of self }
    {
        match (self.x, self.r, self.w, self.i, self.a) {
            (false, false, false, false, false) => b"",
            (false, false, false, false, true) => b"a",
            (false, false, false, true, false) => b"i",
            (false, false, false, true, true) => b"ia",
            (false, false, true, false, false) => b"w",
            (false, false, true, false, true) => b"wa",
            (false, false, true, true, false) => b"wi",
            (false, false, true, true, true) => b"wia",
            (false, true, false, false, false) => b"r",
            (false, true, false, false, true) => b"ra",
            (false, true, false, true, false) => b"ri",
            (false, true, false, true, true) => b"ria",
            (false, true, true, false, false) => b"rw",
            (false, true, true, false, true) => b"rwa",
            (false, true, true, true, false) => b"rwi",
            (false, true, true, true, true) => b"rwia",
            (true, false, false, false, false) => b"x",
            (true, false, false, false, true) => b"xa",
            (true, false, false, true, false) => b"xi",
            (true, false, false, true, true) => b"xia",
            (true, false, true, false, false) => b"xw",
            (true, false, true, false, true) => b"xwa",
            (true, false, true, true, false) => b"xwi",
            (true, false, true, true, true) => b"xwia",
            (true, true, false, false, false) => b"xr",
            (true, true, false, false, true) => b"xra",
            (true, true, false, true, false) => b"xri",
            (true, true, false, true, true) => b"xria",
            (true, true, true, false, false) => b"xrw",
            (true, true, true, false, true) => b"xrwa",
            (true, true, true, true, false) => b"xrwi",
            (true, true, true, true, true) => b"xrwia",
        }
    }

    /// Their letters, in the order `xrwia`. Takes no memory.
    pub fn letters(self) -> Value
        ensures { result ≡ rule.letters_of self }
    {
        Value::from_static(self.text())
    }

    /// What LISTRIGHTS prints of an identifier that always has these (RFC 2244 section 6.7): their letters in one string, and
    /// then each other right in a string of its own. Fails only for want of memory.
    pub fn list(self, alloc: Global) -> Result<Values, Memory>
        ensures { IfOk result (λ list. list ≡ rule.rights_list self) }
    {
        let mut list = Sequence::new(alloc);
        list.push(self.letters())?;
        for letter in Rights::all().less(self).text() {
            list.push(Value::from_slice(alloc, &[*letter])?)?;
        }
        Values::new(list)
    }
}
