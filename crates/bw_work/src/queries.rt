//! What a worker asks of the map as a whole, or in the order of its keys.

use crate::gate::Gate;
use crate::hand::Hand;
use bw_keys::Key;
use bw_procedures::Trail;
use bw_step::Step;
use bw_tree::Ordered;
use std::alloc::Allocator;

/// Questions about the map, each of them answered in one hold of the tree's lock, without memory
/// and without a receipt: the answer is true of the map at that moment.
///
/// A search for a pair takes one search of the tree, and one more for each empty leaf on the way.
pub trait Queries {
    ghost use Rattle.std.specs.Prelude.{◌≤◌, ℕ, Option, IfSome};

    // at a moment of the question this was the map's first pair from the key on
    ghost comes_next: { Self → ℕ → Option (ℕ × ℕ) → Type 0 } = { λ asker key pair. Unit {0} };

    // at a moment of the question this was the map's last pair up to the key
    ghost comes_before: { Self → ℕ → Option (ℕ × ℕ) → Type 0 } = { λ asker key pair. Unit {0} };

    // at a moment of the question the map had this many pairs
    ghost has_pairs: { Self → ℕ → Type 0 } = { λ asker count. Unit {0} };

    /// Returns the pair with the least key at or above the key, if the map has one.
    fn next_at(&self, key: Key) -> Option<(Key, u64)>
        ensures at_or_past { IfSome result (λ pair. key ≤ pair.0) }
        ensures next { comes_next self.now key result };

    /// Returns the pair with the greatest key at or below the key, if the map has one.
    fn previous_at(&self, key: Key) -> Option<(Key, u64)>
        ensures at_or_before { IfSome result (λ pair. pair.0 ≤ key) }
        ensures previous { comes_before self.now key result };

    /// Returns how many pairs the map has, at the same cost however many they are.
    fn len(&self) -> u64
        ensures { has_pairs self.now result };

    /// Returns whether the map has no pairs.
    fn is_empty(&self) -> bool {
        self.len() == 0
    }

    /// Returns the pair with the least key, if the map has any.
    fn first(&self) -> Option<(Key, u64)> {
        self.next_at(0)
    }

    /// Returns the pair with the greatest key, if the map has any.
    fn last(&self) -> Option<(Key, u64)> {
        self.previous_at(Key::MAX)
    }
}

impl<'t, A: Allocator + Copy, S: Ordered<A, Step<A>>, G: Gate, T: Trail> Queries
    for Hand<'t, A, S, G, T> {
    fn next_at(&self, key: Key) -> Option<(Key, u64)> {
        self.tree.next_at(key)
    }

    fn previous_at(&self, key: Key) -> Option<(Key, u64)> {
        self.tree.previous_at(key)
    }

    fn len(&self) -> u64 {
        self.tree.len()
    }
}
