//! Where ranges of keys end.

ghost use Rattle.std.specs.Prelude.{◌≡◌, ◌≤◌, min};
ghost use Rattle.bw_keys.specs.Ranges.{end_of, key_count};

use bw_keys::Fence;

/// Returns the lower one of two fences.
pub(crate) fn lower(one: Fence, other: Fence) -> Fence
    ensures { end_of result ≡ min (end_of one) (end_of other) }
{
    match (one, other) {
        (Fence::Key(a), Fence::Key(b)) => Fence::Key(a.min(b)),
        (Fence::Key(a), Fence::Top) => Fence::Key(a),
        (Fence::Top, other) => other,
    }
}

/// Does nothing. From the fence's cases a proof learns that it lies past no more than all keys.
#[inline(always)]
pub(crate) fn end_among_keys(high: Fence)
    ensures { end_of high ≤ key_count }
{
    match high {
        Fence::Key(_) | Fence::Top => (),
    }
}
