//! `Key`: the search key of a SEARCH.

ghost use Rattle.std.specs.Prelude.{◌≡◌, ◌↔◌, IfOk, IsTrue};
ghost use Rattle.acap_commands.specs.Nodes.{wanted_of};
ghost use Rattle.acap_commands.specs.Wanted as wanted;

use crate::test::Test;
use acap_entries::{Copying, Memory};
use std::alloc::Global;
use std::marker::Model;

/// Which entries a SEARCH wants (RFC 2244 section 6.4.1). Contracts see it as a tree of tests.
#[cycle(key)]
#[derive(Drop)]
pub struct Key {
    node: Node,
}

/// What a key is made of (RFC 2244 section 6.4.1).
#[cycle(key)]
#[derive(Drop)]
pub enum Node {
    /// One test.
    One(Test),
    /// AND: both keys.
    And(Box<Key>, Box<Key>),
    /// OR: one of the keys at least.
    Or(Box<Key>, Box<Key>),
    /// NOT: not this key.
    Not(Box<Key>),
}

impl Model for Key {
    ghost use Rattle.acap_commands.specs.Wanted.{Wanted, wanted_code, height};

    ghost Value = { Wanted };

    ghost coded = { wanted_code };

    ghost use Rattle.acap_commands.specs.Nodes.{wanted_of};

    ghost view = { λ k. wanted_of k.node };

    ghost size = { height };

    ghost use Rattle.std.proofs.Common.{arith};

    ghost size_decreases = { λ a h. Prim.grind (arith) };
}

impl Key {
    /// The key of a node.
    pub fn new(node: Node) -> Key
        ensures { result ≡ wanted_of node }
    {
        Key { node }
    }

    /// What it is made of.
    pub fn node(&self) -> &Node
        ensures { wanted_of result.now ≡ self.now }
    {
        &self.node
    }

    /// One test.
    pub fn one(test: Test) -> Key
        ensures { result ≡ wanted.One test }
    {
        Key::new(Node::One(test))
    }

    /// Both keys. Fails only for want of memory.
    pub fn and(alloc: Global, first: Key, second: Key) -> Result<Key, Memory>
        ensures { IfOk result (λ made. made ≡ wanted.And first second) }
    {
        let first = into_box(alloc, first)?;
        let second = into_box(alloc, second)?;
        Ok(Key::new(Node::And(first, second)))
    }

    /// One of the keys at least. Fails only for want of memory.
    pub fn or(alloc: Global, first: Key, second: Key) -> Result<Key, Memory>
        ensures { IfOk result (λ made. made ≡ wanted.Or first second) }
    {
        let first = into_box(alloc, first)?;
        let second = into_box(alloc, second)?;
        Ok(Key::new(Node::Or(first, second)))
    }

    /// Not the key. Fails only for want of memory.
    pub fn not(alloc: Global, key: Key) -> Result<Key, Memory>
        ensures { IfOk result (λ made. made ≡ wanted.Not key) }
    {
        Ok(Key::new(Node::Not(into_box(alloc, key)?)))
    }

    /// Whether two of them are equal. Takes no memory.
    pub fn equals(&self, other: &Key) -> bool
        ensures { IsTrue result ↔ (self.now ≡ other.now) }
    {
        match (&self.node, &other.node) {
            (Node::One(test), Node::One(other_test)) => test.equals(other_test),
            (Node::And(first, second), Node::And(other_first, other_second)) => {
                first.equals(other_first) && second.equals(other_second)
            }
            (Node::Or(first, second), Node::Or(other_first, other_second)) => {
                first.equals(other_first) && second.equals(other_second)
            }
            (Node::Not(key), Node::Not(other_key)) => key.equals(other_key),
            _ => false,
        }
    }
}

fn into_box(alloc: Global, key: Key) -> Result<Box<Key>, Memory>
    ensures { IfOk result (λ made. made.value ≡ key) }
{
    Ok(Box::new(alloc, key)?)
}

#[cycle(copying)]
fn copy_box(key: &Box<Key>) -> Result<Box<Key>, Memory>
    ensures { IfOk result (λ made. made.value ≡ key.now.value) }
{
    let made = (**key).clone()?;
    into_box(*Box::allocator(key), made)
}

impl Clone for Key {
    ghost is_clone = { λ x y. y ≡ x };

    #[cycle(copying)]
    fn clone(&self) -> Result<Key, Memory> {
        match &self.node {
            Node::One(test) => Ok(Key::new(Node::One(test.copy()?))),
            Node::And(first, second) => Ok(Key::new(Node::And(
                copy_box(first)?,
                copy_box(second)?,
            ))),
            Node::Or(first, second) => Ok(Key::new(Node::Or(copy_box(first)?, copy_box(second)?))),
            Node::Not(key) => Ok(Key::new(Node::Not(copy_box(key)?))),
        }
    }
}

impl Copying for Key {
    fn copy(&self) -> Result<Key, Memory> {
        self.clone()
    }
}
