//! Octets that lie in place while they are few, and else on the heap.
ghost use Rattle.std.specs.Prelude.{◌≡◌, ◌≤◌, ◌+◌, ◌++◌, [], length, take, IfOk};

use acap_ordmap::Memory;
use std::alloc::Global;
use std::marker::Model;

/// The most octets that lie in place: they take the room of a vector and of what tells the two apart.
const IN_PLACE: usize = 30;

/// A few octets, and the allocator that more of them would be kept by.
#[derive(Drop)]
pub(crate) struct Few {
    len: u8,
    octets: [u8; IN_PLACE],
    alloc: Global,
    ghost within: { len ≤ 30 },
}

/// Where octets lie.
#[derive(Drop)]
pub(crate) enum Kept {
    /// In place.
    InPlace(Few),
    /// In memory of their own.
    Apart(Vec<u8>),
}

/// Octets that lie in place while they are few, and take no memory then: seen as their list.
#[derive(Drop)]
pub(crate) struct Compact {
    kept: Kept,
}

impl Model for Compact {
    ghost use Rattle.std.specs.Prelude.{ℕ, List};
    ghost use Rattle.acap_entries.specs.Compact.{octets_of};

    ghost Value = { List ℕ };

    ghost view = { λ c. octets_of c.kept };
}

// Octets that are few, in place.
#[inline]
fn in_place(alloc: Global, text: &[u8]) -> Few
    requires { length text.now ≤ 30 }
    ensures { take result.len result.octets ≡ text.now }
{
    let mut octets = [0; IN_PLACE];
    octets[..text.len()].copy_from_slice(text);
    Few {
        len: text.len() as u8,
        octets,
        alloc,
    }
}

// None yet, in place.
#[inline]
fn none(alloc: Global) -> Few
    ensures octets { take result.len result.octets ≡ [] }
    ensures len { result.len ≡ 0 }
{
    Few {
        len: 0,
        octets: [0; IN_PLACE],
        alloc,
    }
}

impl Few {
    // Adds octets after those that there are.
    #[inline]
    fn append(&mut self, more: &[u8])
        requires { self.old.len + length more.now ≤ 30 }
        ensures octets { take self.new.len self.new.octets ≡ take self.old.len self.old.octets ++ more.now }
        ensures len { self.new.len ≡ self.old.len + length more.now }
    {
        let start = self.len as usize;
        let end = start + more.len();
        self.octets[start..end].copy_from_slice(more);
        self.len = end as u8;
    }
}

// Four texts that are few together, one after the other.
fn join_few(alloc: Global, first: &[u8], second: &[u8], third: &[u8], fourth: &[u8]) -> Few
    requires { length first.now + length second.now + length third.now + length fourth.now ≤ 30 }
    ensures { take result.len result.octets ≡ first.now ++ second.now ++ third.now ++ fourth.now }
{
    let mut few = none(alloc);
    few.append(first);
    few.append(second);
    few.append(third);
    few.append(fourth);
    few
}

// Four texts that are many together, one after the other, in that much room.
fn join_apart(
    alloc: Global,
    room: usize,
    first: &[u8],
    second: &[u8],
    third: &[u8],
    fourth: &[u8],
) -> Result<Vec<u8>, Memory>
    ensures { IfOk result (λ made. made.items ≡ first.now ++ second.now ++ third.now ++ fourth.now) }
{
    let mut octets = Vec::with_capacity(alloc, room)?;
    octets.extend_from_slice(first)?;
    octets.extend_from_slice(second)?;
    octets.extend_from_slice(third)?;
    octets.extend_from_slice(fourth)?;
    Ok(octets)
}

impl Compact {
    /// The octets of four texts, one after the other. Fails only for want of memory.
    pub(crate) fn join(
        alloc: Global,
        first: &[u8],
        second: &[u8],
        third: &[u8],
        fourth: &[u8],
    ) -> Result<Compact, Memory>
        ensures { IfOk result (λ made. made ≡ first.now ++ second.now ++ third.now ++ fourth.now) }
    {
        let room = first
            .len()
            .saturating_add(second.len())
            .saturating_add(third.len())
            .saturating_add(fourth.len());
        let kept = if room <= IN_PLACE {
            Kept::InPlace(join_few(alloc, first, second, third, fourth))
        } else {
            Kept::Apart(join_apart(alloc, room, first, second, third, fourth)?)
        };
        Ok(Compact { kept })
    }

    /// The octets of a vector. Takes no memory, and keeps the vector's, if they are many.
    pub(crate) fn from_vec(octets: Vec<u8>) -> Compact
        ensures { result ≡ octets.items }
    {
        if octets.len() > IN_PLACE {
            return Compact {
                kept: Kept::Apart(octets),
            };
        }
        let few = in_place(*octets.allocator(), octets.as_slice());
        Compact {
            kept: Kept::InPlace(few),
        }
    }

    /// The same octets, copied. Fails only for want of memory.
    #[inline]
    pub(crate) fn from_slice(alloc: Global, text: &[u8]) -> Result<Compact, Memory>
        ensures { IfOk result (λ made. made ≡ text.now) }
    {
        if text.len() > IN_PLACE {
            let octets = Vec::from_slice(alloc, text)?;
            return Ok(Compact {
                kept: Kept::Apart(octets),
            });
        }
        Ok(Compact {
            kept: Kept::InPlace(in_place(alloc, text)),
        })
    }

    /// The octets.
    #[inline]
    pub(crate) fn as_slice(&self) -> &[u8]
        ensures { result.now ≡ self.now }
    {
        match &self.kept {
            Kept::InPlace(few) => &few.octets[..few.len as usize],
            Kept::Apart(octets) => octets.as_slice(),
        }
    }

    /// The allocator that keeps them.
    pub(crate) fn allocator(&self) -> Global {
        match &self.kept {
            Kept::InPlace(few) => few.alloc,
            Kept::Apart(octets) => *octets.allocator(),
        }
    }
}
