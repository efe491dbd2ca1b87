//! The first pairs of a chain from a key on, until a list has as many as a limit. A pass hands the
//! entries on in stretches, so a page is listed in one pass, whatever its chain.

ghost use Rattle.std.specs.Prelude.{◌≡◌, ◌≤◌, ◌++◌, length, take, vec_capacity, OnOk, OnErr};
ghost use Rattle.bw_delta.specs.Entries.{from};
ghost use Rattle.bw_delta.specs.Pairs.{pairs};
ghost use Rattle.bw_delta.specs.Slices.{list_of};
ghost use Rattle.bw_delta.specs.Sound.{IsSound};
ghost use Rattle.bw_chain.specs.Ascends.{IsAscending};
ghost use Rattle.bw_chain.specs.Passing.Edited.{IsFalling, edited, entry_of};
ghost use Rattle.bw_chain.specs.Passing.Firsts.{Takes, HasNoRoom};

use crate::entries::sorted::entries_from;
use crate::page::shape::{Extent, allocator, extent_of};
use crate::pass::around::split_around;
use crate::pass::edits::{Edits, MOST_EDITS};
use crate::pass::pass;
use crate::pass::runs::append_run;
use crate::pass::sink::Sink;
use bw_delta::{Chain, EntrySlice, Fences, NoMemory};
use bw_keys::{Fence, Key};
use std::alloc::Allocator;

/// Appends the chain's pairs from the key on to the list, in the order of their keys, until the
/// list has as many as the limit. It has room for them, so no memory is asked for.
#[tactic(auto, using(crate::proofs::Bridges::both_kinds))]
pub fn append_first_pairs<A: Allocator + Copy, B: Allocator>(
    chain: &Chain<A>,
    low: Key,
    limit: usize,
    list: Vec<(Key, u64), B>,
) -> Vec<(Key, u64), B>
    requires sound { IsSound chain.now }
    requires few { length list.items ≤ limit }
    requires room { length (take limit (list.items ++ from low (pairs chain.now)))
        ≤ vec_capacity list }
    ensures items { result.items ≡ take limit (list.items ++ from low (pairs chain.now)) }
    ensures capacity { vec_capacity list ≤ vec_capacity result }
{
    let Fences { high, .. } = extent_of(chain).fences;
    let mut edits: Edits<'_, u64, A> = Edits::from_buf(allocator(chain), [(0, None); MOST_EDITS]);
    let from = Fence::Key(low);
    let mut first = FirstPairs { list, from, limit };
    match pass(chain, high, edits.as_mut_slice(), 0, &mut first) {
        Ok(()) => first.list,
        Err(NoMemory) => unreachable!(),
    }
}

/// A list that takes pairs from the fence on, up to the limit.
#[derive(Drop)]
struct FirstPairs<B: Allocator> {
    list: Vec<(Key, u64), B>,
    from: Fence,
    limit: usize,
}

impl<B: Allocator> Sink<u64> for FirstPairs<B> {
    ghost use Rattle.bw_chain.specs.Passing.Firsts.{Takes, HasNoRoom, takes_joined, no_room_for_more, no_room_later};

    type Stop = NoMemory;

    ghost takes = { Takes };

    ghost refuses = { HasNoRoom };

    fn take_edited(
        &mut self,
        keys: &[Key],
        values: &[u64],
        edits: &[(Key, Option<u64>)],
    ) -> Result<(), NoMemory> {
        take_first(self, EntrySlice::of(keys, values), edits)
    }

    ghost takes_joined = { takes_joined };

    ghost refuses_more = { no_room_for_more };

    ghost refuses_later = { no_room_later };
}

/// Takes the entries with the edits, which come with the greatest key first.
fn take_first<B: Allocator>(
    first: &mut FirstPairs<B>,
    entries: EntrySlice<'_, u64>,
    edits: &[(Key, Option<u64>)],
) -> Result<(), NoMemory>
    requires ascending { IsAscending (list_of entries) }
    requires falling { IsFalling edits.now }
    ensures taken { OnOk result
        (Takes first.old (edited edits.now (list_of entries.entry)) first.new) }
    ensures refused { OnErr result
        (HasNoRoom first.old (edited edits.now (list_of entries.entry))) }
{
    let (mut rest, mut left) = (entries, edits);
    'edits: while let Some((edit, greater)) = left.split_last() {
        let (key, value) = *edit;
        let (before, after) = split_around(rest, key);
        take_run(first, before)?;
        take_edit(first, key, value)?;
        rest = after;
        left = greater;
    }
    take_run(first, rest)
}

/// Takes entries that no edit changes.
#[inline(always)]
fn take_run<B: Allocator>(
    first: &mut FirstPairs<B>,
    run: EntrySlice<'_, u64>,
) -> Result<(), NoMemory>
    requires ascending { IsAscending (list_of run) }
    ensures taken { OnOk result (Takes first.old (list_of run.entry) first.new) }
    ensures refused { OnErr result (HasNoRoom first.old (list_of run.entry)) }
{
    let listed = entries_from(run, first.from);
    let room = first.limit.saturating_sub(first.list.len());
    let (wanted, _) = listed.split_at(listed.len().min(room));
    append_run(&mut first.list, wanted)?;
    Ok(())
}

/// Takes the entry that the edit puts, if it does.
#[inline(always)]
fn take_edit<B: Allocator>(
    first: &mut FirstPairs<B>,
    key: Key,
    edit: Option<u64>,
) -> Result<(), NoMemory>
    ensures taken { OnOk result (Takes first.old (entry_of key edit) first.new) }
    ensures refused { OnErr result (HasNoRoom first.old (entry_of key edit)) }
{
    match edit {
        Some(value) => take_run(first, EntrySlice::of(&[key], &[value])),
        None => Ok(()),
    }
}
