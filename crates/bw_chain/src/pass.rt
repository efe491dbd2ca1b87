//! One pass over a chain. On the way down it gathers the newest record for each key, and at a base
//! page it hands on the entries in stretches between these. Under a merge it goes down the left
//! half first, and then the right one.

mod around;
mod comparison;
mod consolidation;
mod counting;
mod edits;
mod first;
mod listing;
mod lists;
mod runs;
mod sink;
mod stripping;
mod writing;

ghost use Rattle.std.specs.Prelude.{◌≡◌, ◌≤◌, ◌+◌, length, take, OnOk, OnErr};
ghost use Rattle.bw_keys.specs.Ranges.{end_of, key_count};
ghost use Rattle.bw_delta.specs.Entries.{below, from};
ghost use Rattle.bw_delta.specs.Fence.{fences};
ghost use Rattle.bw_delta.specs.Records.{depth};
ghost use Rattle.bw_delta.specs.Slices.{list_of};
ghost use Rattle.bw_delta.specs.Sound.{IsWellBuilt};
ghost use Rattle.bw_chain.specs.Ascends.{IsAscending};
ghost use Rattle.bw_chain.specs.Changes.{entries_by};
ghost use Rattle.bw_chain.specs.Passing.Edited.{IsFalling, edited_below};
ghost use Rattle.bw_chain.specs.Passing.Heads.{BeginsWith};

use crate::entries::bounds::at_most;
use crate::entries::sorted::below_fence;
use crate::entries::value::EntryValue;
use crate::pass::edits::{count_from, note_change};
use crate::pass::sink::Sink;
use bw_delta::{Chain, EntrySlice, Node};
use bw_keys::{Fence, Key};
pub use comparison::{is_upper_part, same};
pub use consolidation::consolidate;
pub use counting::count;
pub use first::append_first_pairs;
pub use listing::append_pairs;
use std::alloc::Allocator;

/// Hands on the chain's entries below the end, under the first `count` edits. Of these, the ones
/// from the end on stay in front. The walk down to a base page or a merge is built as a loop.
pub(crate) fn pass<A: Allocator + Copy, X: EntryValue, S: Sink<X>>(
    chain: &Chain<A>,
    end: Fence,
    edits: &mut [(Key, Option<X>)],
    count: usize,
    sink: &mut S,
) -> Result<(), S::Stop>
    requires built { IsWellBuilt chain.now }
    requires within { end_of end ≤ end_of (fences chain.now).high }
    requires falling { IsFalling (take count edits.old) }
    requires room { count + depth chain.now ≤ length edits.old }
    ensures taken { let es = entries_by X.own_entries X.own_change chain.now in OnOk result
        (S.takes sink.old (edited_below (end_of end) (take count edits.old) es) sink.new) }
    ensures refused { let es = entries_by X.own_entries X.own_change chain.now in OnErr result
        (S.refuses sink.old (edited_below (end_of end) (take count edits.old) es)) }
    ensures left { OnOk result (BeginsWith edits.new (from (end_of end) (take count edits.old))) }
    ensures as_many { length edits.new ≡ length edits.old }
{
    match &chain.node {
        Node::Bare(base) => {
            let (noted, _) = edits.split_at(count);
            pass_base(X::entries_on(base), end, noted, sink)
        }
        Node::Above(delta, below) => {
            let count = note_change(edits, count, X::change_by(*delta), end);
            pass(below, end, edits, count, sink)
        }
        Node::Merged(merging, left, right) => {
            let left_end = at_most(end, merging.separator);
            let (noted, _) = edits.split_at(count);
            let kept = count_from(noted, left_end);
            pass(left, left_end, edits, count, sink)?;
            if end.is_above(merging.separator) {
                pass(right, end, edits, kept, sink)
            } else {
                Ok(())
            }
        }
    }
}

/// Hands on the entries of a base page below the end, under the edits below it.
#[inline(always)]
fn pass_base<X: EntryValue, S: Sink<X>>(
    entries: EntrySlice<'_, X>,
    end: Fence,
    edits: &[(Key, Option<X>)],
    sink: &mut S,
) -> Result<(), S::Stop>
    requires ascending { IsAscending (list_of entries) }
    requires among { end_of end ≤ key_count }
    requires falling { IsFalling edits.now }
    ensures taken { OnOk result
        (S.takes sink.old (edited_below (end_of end) edits.now (list_of entries.entry)) sink.new) }
    ensures refused { OnErr result
        (S.refuses sink.old (edited_below (end_of end) edits.now (list_of entries.entry))) }
{
    let (_, here) = edits.split_at(count_from(edits, end));
    let listed = below_end(entries, end);
    sink.take_edited(listed.keys, listed.values, here)
}

/// Returns the entries below the end. Most often it is all of them, so the last is looked at before
/// any search.
#[inline(always)]
pub(crate) fn below_end<X: Copy>(entries: EntrySlice<'_, X>, end: Fence) -> EntrySlice<'_, X>
    requires ascending { IsAscending (list_of entries) }
    ensures { list_of result ≡ below (end_of end) (list_of entries.entry) }
{
    let Some(greatest) = entries.last() else {
        return entries;
    };
    if end.is_above(greatest.0) {
        entries
    } else {
        below_fence(entries, end)
    }
}
