//! Counting in one pass over the records and the base pages.

ghost use Rattle.std.specs.Prelude.{◌≡◌, ◌≤◌, ◌+◌, ◌-◌, ◌^◌, min, length};
ghost use Rattle.bw_delta.specs.Fence.{fences};
ghost use Rattle.bw_delta.specs.Records.{depth};
ghost use Rattle.bw_delta.specs.Slices.{list_of};
ghost use Rattle.bw_delta.specs.Sound.{IsSound, IsWellBuilt, entry_count};
ghost use Rattle.bw_chain.specs.Ascends.{IsAscending};
ghost use Rattle.bw_chain.specs.Changes.{entries_by};
ghost use Rattle.bw_chain.specs.Passing.Edited.{IsFalling, edited};

use crate::entries::value::EntryValue;
use crate::page::shape::{Extent, allocator, extent_of};
use crate::pass::around::split_around;
use crate::pass::edits::{Edits, MOST_EDITS};
use crate::pass::pass;
use crate::pass::sink::Sink;
use crate::pass::writing::puts;
use bw_delta::{Chain, EntrySlice, Fences};
use bw_keys::{Fence, Key, Pid};
use std::alloc::Allocator;
use std::convert::Infallible;

/// Counts the pairs of a leaf's chain, or the routes of an inner page's. A leaf can have a pair at
/// each key, one more than a `u64` can count, and the result is then `u64::MAX`. It takes no
/// memory.
pub fn count<A: Allocator + Copy>(chain: &Chain<A>) -> u64
    requires sound { IsSound chain.now }
    ensures { result ≡ min (entry_count chain.now) (2 ^ 64 - 1) }
{
    let Extent {
        fences,
        is_leaf,
        ..
    } = extent_of(chain);
    let Fences { high, .. } = fences;
    let alloc = allocator(chain);
    if is_leaf {
        let mut edits: Edits<'_, u64, A> = Edits::from_buf(alloc, [(0, None); MOST_EDITS]);
        count_entries(chain, high, edits.as_mut_slice())
    } else {
        let mut edits: Edits<'_, Pid, A> = Edits::from_buf(alloc, [(0, None); MOST_EDITS]);
        count_entries(chain, high, edits.as_mut_slice())
    }
}

/// Counts the entries of one kind. There is room for as many edits as the chain is deep.
fn count_entries<A: Allocator + Copy, X: EntryValue>(
    chain: &Chain<A>,
    high: Fence,
    edits: &mut [(Key, Option<X>)],
) -> u64
    requires built { IsWellBuilt chain.now }
    requires high { high ≡ (fences chain.now).high }
    requires deep { depth chain.now ≤ length edits.old }
    ensures { result ≡ min (length (entries_by X.own_entries X.own_change chain.now)) (2 ^ 64 - 1) }
{
    let mut counted = Counted { count: 0 };
    match pass(chain, high, edits, 0, &mut counted) {
        Ok(()) => counted.count,
        Err(never) => match never {},
    }
}

/// The number of entries handed on, or `u64::MAX` if there were more.
#[derive(Drop)]
struct Counted {
    count: u64,
}

impl<X: EntryValue> Sink<X> for Counted {
    ghost use Rattle.std.specs.Prelude.{◌≡◌, ◌+◌, ◌-◌, ◌^◌, min, length};
    ghost use Rattle.bw_chain.specs.Passing.Counts.{counted_twice};

    type Stop = Infallible;

    ghost takes = { λ s es t. t.count ≡ min (s.count + length es) (2 ^ 64 - 1) };

    ghost refuses = { λ s es. Unit {0} };

    fn take_edited(
        &mut self,
        keys: &[Key],
        values: &[X],
        edits: &[(Key, Option<X>)],
    ) -> Result<(), Infallible> {
        self.count = count_edited(self.count, EntrySlice::of(keys, values), edits);
        Ok(())
    }

    ghost takes_joined = { λ s t u es fs first second.
        counted_twice s.count t.count u.count es fs first second };

    ghost refuses_more = { λ s es fs refused. tt };

    ghost refuses_later = { λ s t es fs first refused. tt };
}

/// Returns the count raised by the number of the entries with the edits.
fn count_edited<X: Copy>(count: u64, entries: EntrySlice<'_, X>, edits: &[(Key, Option<X>)]) -> u64
    requires ascending { IsAscending (list_of entries) }
    requires falling { IsFalling edits.now }
    ensures { result
        ≡ min (count + length (edited edits.now (list_of entries.entry))) (2 ^ 64 - 1) }
{
    let (mut rest, mut left, mut sum) = (entries, edits, count);
    'edits: while let Some((edit, greater)) = left.split_last() {
        let (key, value) = *edit;
        let (before, behind) = split_around(rest, key);
        sum = sum
            .saturating_add(before.len() as u64)
            .saturating_add(puts(value) as u64);
        rest = behind;
        left = greater;
    }
    sum.saturating_add(rest.len() as u64)
}
