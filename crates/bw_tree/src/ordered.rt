use crate::shared::Shared;
use bw_keys::Key;
use bw_step::Proposes;
use std::alloc::Allocator;

/// A shared tree that also says how many pairs its map has, and which of them are next to a key.
pub trait Ordered<A: Allocator + Copy, P: Proposes>: Shared<A, P> {
    ghost use Rattle.std.specs.Prelude.{◌≤◌, IfSome};

    /// Returns the pair with the least key at or above the key, if the map has one.
    fn next_at(&self, key: Key) -> Option<(Key, u64)>
        ensures at_or_past { IfSome result (λ pair. key ≤ pair.0) };

    /// Returns the pair with the greatest key at or below the key, if the map has one.
    fn previous_at(&self, key: Key) -> Option<(Key, u64)>
        ensures at_or_before { IfSome result (λ pair. pair.0 ≤ key) };

    /// Returns how many pairs the map has.
    fn len(&self) -> u64;
}
