//! `Probe`: borrowed octets that stand for a key in a look-up.
ghost use Rattle.std.specs.Prelude.{◌≡◌};

use std::cmp::Ordering;

/// What stands for a key in a look-up, so that it needs no key in memory of its own.
pub trait Probe<K: Ord> {
    ghost key: { Self → K };

    /// How the key that this stands for compares with a known one.
    fn compare(&self, known: &K) -> Ordering
        ensures { result ≡ K.cmp (key self.now) known.now };
}

/// A key itself.
#[derive(Drop)]
pub struct Whole<'a, K> {
    /// The key.
    pub key: &'a K,
}

impl<'a, K: Ord> Probe<K> for Whole<'a, K> {
    ghost key = { λ p. p.key.now };

    fn compare(&self, known: &K) -> Ordering {
        self.key.cmp(known)
    }
}
