//! The bounds of a range of keys, as fences.

ghost use Rattle.std.specs.Prelude.{◌≡◌, ◌+◌, ◌≤◌};
ghost use Rattle.std.specs.Range.Bound.{start_index, end_index, bound_map};
ghost use Rattle.bw_keys.specs.Ranges.{end_of, key_count};

use bw_keys::{Fence, Key};
use std::ops::Bound;

/// Returns where the keys of a range begin.
pub(crate) fn start_fence(start: Bound<&Key>) -> Fence
    ensures { end_of result ≡ start_index (bound_map (λ key. key.now) start.entry) }
{
    match start {
        Bound::Included(key) => Fence::Key(*key),
        Bound::Excluded(key) => fence_behind(*key),
        Bound::Unbounded => Fence::Key(0),
    }
}

/// Returns where the keys of a range end.
pub(crate) fn end_fence(end: Bound<&Key>) -> Fence
    ensures { end_of result ≡ end_index (bound_map (λ key. key.now) end.entry) key_count }
{
    match end {
        Bound::Included(key) => fence_behind(*key),
        Bound::Excluded(key) => Fence::Key(*key),
        Bound::Unbounded => Fence::Top,
    }
}

/// Returns the fence after the key.
#[inline(always)]
pub(crate) fn fence_behind(key: Key) -> Fence
    ensures { end_of result ≡ key + 1 }
{
    match key.checked_add(1) {
        Some(next) => Fence::Key(next),
        None => Fence::Top,
    }
}

/// Returns the first key from the fence on, or the last of all keys if there is none.
pub(crate) fn first_key(low: Fence) -> Key
    ensures { result ≤ end_of low }
{
    match low {
        Fence::Key(low) => low,
        Fence::Top => Key::MAX,
    }
}
