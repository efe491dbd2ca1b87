ghost use Rattle.std.specs.Prelude.{◌≡◌, ◌+◌, ◌<◌, ◌↔◌, min, max, IsTrue, MatchOption};
ghost use Rattle.bw_keys.specs.Ranges.{end_of};

use bw_keys::{Fence, Key};

/// Returns the fence right above the key.
pub fn past(key: Key) -> Fence
    ensures { end_of result ≡ key + 1 }
{
    match key.checked_add(1) {
        Some(next) => Fence::Key(next),
        None => Fence::Top,
    }
}

/// Returns the greatest key below the fence, or `None` if the fence is 0.
pub(crate) fn last_key_below(fence: Fence) -> Option<Key>
    ensures { MatchOption result (end_of fence ≡ 0) (λ key. end_of fence ≡ key + 1) }
{
    match fence {
        Fence::Key(key) => key.checked_sub(1),
        Fence::Top => Some(u64::MAX),
    }
}

/// Reports whether the fence comes before the key.
pub(crate) fn is_before(fence: Fence, key: Key) -> bool
    ensures { IsTrue result ↔ (end_of fence < key) }
{
    match fence {
        Fence::Key(end) => end < key,
        Fence::Top => false,
    }
}

/// Returns the lesser of the fence and the key.
pub(crate) fn at_most(fence: Fence, key: Key) -> Fence
    ensures { end_of result ≡ min (end_of fence) key }
{
    if fence.is_above(key) {
        Fence::Key(key)
    } else {
        fence
    }
}

/// Returns the greater of the fence and the key.
pub(crate) fn at_least(fence: Fence, key: Key) -> Fence
    ensures { end_of result ≡ max (end_of fence) key }
{
    if fence.is_above(key) {
        fence
    } else {
        Fence::Key(key)
    }
}

/// Returns the later of the fences.
pub(crate) fn later(one: Fence, other: Fence) -> Fence
    ensures { end_of result ≡ max (end_of one) (end_of other) }
{
    match other {
        Fence::Key(key) => at_least(one, key),
        Fence::Top => Fence::Top,
    }
}
