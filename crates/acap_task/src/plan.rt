//! What devices in memory do or give, one after another: first what a list says, and from then on one thing
//! again and again.
ghost use Rattle.std.specs.Prelude.{◌≡◌, ◌≤◌, ◌<◌, ◌+◌, ◌++◌, ◌∷◌, [], MatchOption, length, take, drop};
ghost use Rattle.acap_task.specs.Plans.{next_of, rest_of};

use std::collections::VecDeque;
use std::marker::Model;
use std::sync::ledger::{Book, Ledger, Share};

/// What a device in memory does, poll by poll. Contracts see a plan as what is done first, in its order,
/// beside what is done from then on.
#[derive(Drop)]
pub struct Plan<T> {
    first: VecDeque<T>,
    always: T,
}

impl<T> Model for Plan<T> {
    ghost use Rattle.std.specs.Prelude.{List};

    ghost Value = { List T × T };

    ghost view = { λ p. (p.first.items, p.always) };
}

impl<T: Copy + Drop> Plan<T> {
    /// A plan of what is done first, in its order, and of what is done from then on.
    pub fn new(first: VecDeque<T>, always: T) -> Plan<T>
        ensures { result ≡ (first.items, always) }
    {
        Plan { first, always }
    }

    /// What is done next; the plan is what comes after it.
    pub fn next(&mut self) -> T
        ensures act { result ≡ next_of self.old }
        ensures rest { self.new ≡ rest_of self.old }
    {
        match self.first.pop_front() {
            Some(act) => act,
            None => self.always,
        }
    }
}

/// Values that are given one after another: those of a list, and from then on one value again and again.
/// Contracts see what was given, beside the plan of what is left. How often the last value was given is
/// counted in a ledger, so that it needs no memory.
#[derive(Drop)]
pub(crate) struct Replay<T, L: Ledger> {
    first: Vec<T>,
    at: usize,
    always: T,
    again: Share<L>,
}

impl<T, L: Ledger> Model for Replay<T, L> {
    ghost use Rattle.std.specs.Prelude.{◌≡◌, ◌≤◌, ◌<◌, ◌++◌, List, length, take, drop, replicate};

    ghost Value = { List T × (List T × T) };

    ghost view = { λ g.
        (take g.at g.first.items ++ replicate g.again.amount g.always, (drop g.at g.first.items, g.always)) };

    ghost invariant = { λ g. (g.at ≤ length g.first.items)
        × (g.at < length g.first.items → g.again.amount ≡ 0)
        × (0 < g.again.parts) };
}

// The value at a place, if there is one.
fn value_at<T: Copy>(values: &[T], at: usize) -> Option<T>
    ensures { MatchOption result (length values.now ≤ at) (λ value. (at < length values.now)
        × (drop at values.now ≡ value ∷ drop (at + 1) values.now)
        × (take (at + 1) values.now ≡ take at values.now ++ value ∷ [])) }
{
    values.get(at).copied()
}

impl<T: Copy + Drop, L: Ledger> Replay<T, L> {
    /// A list of values, and the value that is given from then on; its share of the ledger counts nothing
    /// yet.
    pub(crate) fn new(first: Vec<T>, always: T, again: Share<L>) -> Replay<T, L>
        requires { (0 < again.parts) × (again.amount ≡ 0) }
        ensures { result ≡ ([], (first.items, always)) }
    {
        Replay {
            first,
            at: 0,
            always,
            again,
        }
    }

    /// The next value.
    pub(crate) fn give(&mut self, book: &mut Book<L>) -> T
        ensures value { result ≡ next_of self.old.1 }
        ensures rest { self.new.1 ≡ rest_of self.old.1 }
        ensures given { self.new.0 ≡ self.old.0 ++ result ∷ [] }
    {
        match value_at(&self.first, self.at) {
            Some(value) => {
                self.at += 1;
                value
            }
            None => {
                book.add(&mut self.again, 1);
                self.always
            }
        }
    }
}
