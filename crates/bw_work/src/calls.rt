//! The calls of a worker as functions, over whatever takes atomic steps: each is the method of
//! [`Calls`] with its name.

ghost use Rattle.std.specs.Prelude.{IfOk};
ghost use Rattle.bw_keys.specs.Ranges.{end_of};
ghost use Rattle.bw_procedures.specs.Facts.{quiet};
ghost use Rattle.bw_procedures.specs.Slices.{end_of_slice};
ghost use Rattle.bw_procedures.specs.Writes.{Puts, Sets, Deletes};
ghost use Rattle.bw_work.specs.Calls.{Clears, Gets, Helps, ReadsPage, SweepsRange, Tends};

use bw_keys::{Fence, Key, Pid};
use bw_procedures::{Calls, Cleared, Del, Done, Fault, Put, Set, Slice, Steps};
use bw_step::{Step, Todo};
use std::alloc::{Allocator, Global};

/// [`Calls::put`].
#[inline(always)]
pub fn put<A: Allocator + Copy, S: Steps<A, Step<A>>>(
    steps: &mut S,
    key: Key,
    value: u64,
) -> Result<Done<Put>, Fault>
    ensures follows { S.follows steps.old steps.new }
    ensures write { Puts key value result (S.seen steps.old) (S.seen steps.new) }
{
    steps.put(key, value)
}

/// [`Calls::set`].
#[inline(always)]
pub fn set<A: Allocator + Copy, S: Steps<A, Step<A>>>(
    steps: &mut S,
    key: Key,
    value: u64,
) -> Result<Done<Set>, Fault>
    ensures follows { S.follows steps.old steps.new }
    ensures write { Sets key value result (S.seen steps.old) (S.seen steps.new) }
{
    steps.set(key, value)
}

/// [`Calls::delete`].
#[inline(always)]
pub fn delete<A: Allocator + Copy, S: Steps<A, Step<A>>>(
    steps: &mut S,
    key: Key,
) -> Result<Done<Del>, Fault>
    ensures follows { S.follows steps.old steps.new }
    ensures write { Deletes key result (S.seen steps.old) (S.seen steps.new) }
{
    steps.delete(key)
}

/// [`Calls::clear`].
pub fn clear<A: Allocator + Copy, S: Steps<A, Step<A>>>(
    steps: &mut S,
    machine: Global,
    low: Key,
    high: Fence,
) -> Cleared
    ensures follows { S.follows steps.old steps.new }
    ensures clears { Clears low (end_of high) result (S.seen steps.old) (S.seen steps.new) }
    ensures swept { SweepsRange S.seen S.follows S.shows low (end_of high) result
        steps.old steps.new }
{
    steps.clear(machine, low, high)
}

/// [`Calls::get`].
#[inline(always)]
pub fn get<A: Allocator + Copy, S: Steps<A, Step<A>>>(
    steps: &mut S,
    key: Key,
) -> Result<Option<u64>, Fault>
    ensures follows { S.follows steps.old steps.new }
    ensures gets { Gets key (S.calm steps.old quiet) result (S.seen steps.old) (S.seen steps.new) }
{
    steps.get(key)
}

/// [`Calls::page_from`].
pub fn page_from<A: Allocator + Copy, S: Steps<A, Step<A>>>(
    steps: &mut S,
    machine: Global,
    key: Key,
) -> Result<Slice, Fault>
    ensures follows { S.follows steps.old steps.new }
    ensures shows { IfOk result (λ s. S.shows steps.new key (end_of_slice s.next) s.pairs.items) }
    ensures reads { ReadsPage key (S.calm steps.old quiet) result
        (S.seen steps.old) (S.seen steps.new) }
{
    steps.page_from(machine, key)
}

/// [`Calls::tend`].
pub fn tend<A: Allocator + Copy, S: Steps<A, Step<A>>>(
    steps: &mut S,
    page: Pid,
) -> Result<(), Fault>
    ensures follows { S.follows steps.old steps.new }
    ensures tends { Tends result (S.seen steps.old) (S.seen steps.new) }
{
    steps.tend(page)
}

/// [`Calls::help`].
pub fn help<A: Allocator + Copy, S: Steps<A, Step<A>>>(
    steps: &mut S,
    todo: Todo,
) -> Result<(), Fault>
    ensures follows { S.follows steps.old steps.new }
    ensures helps { Helps result (S.seen steps.old) (S.seen steps.new) }
{
    steps.help(todo)
}
