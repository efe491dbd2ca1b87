//! The edits that a pass notes on its way down a chain: what the newest record for each key says, a
//! value or that there is none. They fill the front of a slice, with the greatest key first, and
//! take no memory.

ghost use Rattle.std.specs.Prelude.{◌≡◌, ◌≤◌, ◌+◌, ◌-◌, ◌<◌, true, false, ◌++◌, length, take, drop, insert};
ghost use Rattle.bw_keys.specs.Ranges.{end_of, key_count};
ghost use Rattle.bw_delta.specs.Entries.{below, from};
ghost use Rattle.bw_chain.specs.Changes.{changed};
ghost use Rattle.bw_chain.specs.Passing.Edited.{IsFalling, NotesBelow, KeepsFrom, edited_at, noted};
ghost use Rattle.bw_chain.specs.Passing.Cuts.{IsUncut};

use crate::entries::change::Change;
use bw_keys::{Fence, Key};
use smallvec::SmallVec;

/// The number of edits that can be noted: no path of a chain has more records.
pub(crate) const MOST_EDITS: usize = 64;

/// Places for edits. All lie inline, so the allocator is never asked.
pub(crate) type Edits<'a, X, A> = SmallVec<(Key, Option<X>), MOST_EDITS, &'a A>;

/// Notes below the end what a record changes, among the first `count` edits, and returns the new
/// number of edits.
#[inline(always)]
pub(crate) fn note_change<X: Copy>(
    edits: &mut [(Key, Option<X>)],
    count: usize,
    change: Change<X>,
    end: Fence,
) -> usize
    requires uncut { IsUncut (end_of end) change }
    requires among { end_of end ≤ key_count }
    requires inside { count < length edits.old }
    requires falling { IsFalling (take count edits.old) }
    ensures noted { NotesBelow (end_of end) (changed change)
        (take count edits.old) (take result edits.new) }
    ensures others { KeepsFrom (end_of end) (take count edits.old) (take result edits.new) }
    ensures falling { IsFalling (take result edits.new) }
    ensures one_more { result ≤ count + 1 }
    ensures as_many { length edits.new ≡ length edits.old }
{
    match change.edit() {
        Some((key, edit)) => note_below(edits, count, end, key, edit),
        None => count,
    }
}

/// Notes an edit of the key, if the key lies below the end.
#[inline(always)]
fn note_below<X: Copy>(
    edits: &mut [(Key, Option<X>)],
    count: usize,
    end: Fence,
    key: Key,
    edit: Option<X>,
) -> usize
    requires among { end_of end ≤ key_count }
    requires inside { count < length edits.old }
    requires falling { IsFalling (take count edits.old) }
    ensures noted { NotesBelow (end_of end) (edited_at key edit)
        (take count edits.old) (take result edits.new) }
    ensures others { KeepsFrom (end_of end) (take count edits.old) (take result edits.new) }
    ensures falling { IsFalling (take result edits.new) }
    ensures one_more { result ≤ count + 1 }
    ensures as_many { length edits.new ≡ length edits.old }
{
    if end.is_above(key) {
        note_among(edits, count, key, edit)
    } else {
        count
    }
}

/// Notes an edit of the key among the first `count`, unless a newer one is there, and returns the
/// new number of edits.
#[inline(always)]
fn note_among<X: Copy>(edits: &mut [(Key, X)], count: usize, key: Key, edit: X) -> usize
    requires inside { count < length edits.old }
    requires falling { IsFalling (take count edits.old) }
    ensures as_many { length edits.new ≡ length edits.old }
    ensures one_more { result ≤ count + 1 }
    ensures front { take result edits.new ≡ noted key edit (take count edits.old) }
{
    let (place, is_there) = raise(edits, count, key);
    if is_there {
        lower(edits, place, count);
        return count;
    }
    edits[place] = (key, edit);
    count + 1
}

/// Moves those of the first `count` edits that have smaller keys up by one. Returns the place where
/// they began, and whether the edit before it is one of the key.
#[inline(always)]
fn raise<X: Copy>(edits: &mut [(Key, X)], count: usize, key: Key) -> (usize, bool)
    requires inside { count < length edits.old }
    requires falling { IsFalling (take count edits.old) }
    ensures upto { result.0 ≤ count }
    ensures as_many { length edits.new ≡ length edits.old }
    ensures before { take result.0 edits.new ≡ take result.0 edits.old }
    ensures behind { drop (result.0 + 1) edits.new
        ≡ drop result.0 (take count edits.old) ++ drop (count + 1) edits.old }
    ensures there { result.1 ≡ true → (x : X) →
        noted key x (take count edits.old) ≡ take count edits.old }
    ensures missing { result.1 ≡ false → (x : X) →
        noted key x (take count edits.old) ≡ insert (take count edits.old) result.0 (key, x) }
{
    let mut i = count;
    'up: while 0 < i {
        let edit = edits[i - 1];
        if key <= edit.0 {
            return (i, key == edit.0);
        }
        edits[i] = edit;
        i -= 1;
    }
    (i, false)
}

/// Moves the items after the place, up to the last one, down by one.
#[inline(always)]
fn lower<T: Copy>(items: &mut [T], place: usize, last: usize)
    requires upto { place ≤ last }
    requires inside { last < length items.old }
    ensures as_many { length items.new ≡ length items.old }
    ensures front { take last items.new
        ≡ take place items.old ++ take (last - place) (drop (place + 1) items.old) }
    ensures behind { drop (last + 1) items.new ≡ drop (last + 1) items.old }
{
    for i in place..last {
        items[i] = items[i + 1];
    }
}

/// Counts the edits with keys from the fence on. In a chain without merges there are none.
pub(crate) fn count_from<X: Copy>(edits: &[(Key, X)], fence: Fence) -> usize
    requires falling { IsFalling edits.now }
    ensures within { result ≤ length edits.now }
    ensures before { from (end_of fence) edits.now ≡ take result edits.now }
    ensures after { below (end_of fence) edits.now ≡ drop result edits.now }
{
    let Some(greatest) = edits.first() else {
        return 0;
    };
    if fence.is_above(greatest.0) {
        return 0;
    }
    edits.partition_point(|edit| !fence.is_above(edit.0))
}
