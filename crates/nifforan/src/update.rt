//! Sets the pairs of a range to the values that a function makes of them.

ghost use Rattle.std.specs.Prelude.{◌≡◌, ◌≤◌, Some, IsOk};
ghost use Rattle.std.specs.Range.Bound.{start_index, end_index};
ghost use Rattle.bw_keys.specs.Ranges.{end_of, key_count};
ghost use Rattle.bw_procedures.specs.declared.fault.Fault.TheVariants as faults;
ghost use Rattle.nifforan.specs.Growing.{HasAllPages, fault_reported};
ghost use Rattle.nifforan.specs.Updating.{Alters, Updates, pair_of};

use crate::bounds::{end_fence, fence_behind, start_fence};
use crate::in_place::Found;
use crate::map::Map;
use crate::pairs::Pairs;
use bw_keys::{Fence, Key};
use bw_procedures::{Done, Fault};
use std::alloc::Allocator;
use std::ops::RangeBounds;

/// A pair that gets another value.
#[derive(Clone, Copy)]
struct Altered {
    key: Key,
    /// The value that it gets.
    value: u64,
    /// Where it lies.
    found: Found,
}

impl<A: Allocator + Copy> Map<A> {
    /// Sets each pair of the range to the value that the function makes of it. It calls the
    /// function once for each pair, in the order of the keys. A pair that already has that value
    /// isn't set, so it costs no more than reading it. A fault in place of a set ends the call, and
    /// that pair and those after it stay as they are. A fault beside a set doesn't end the call;
    /// the first of these stands beside the reply.
    pub fn update<R: RangeBounds<Key>, F: FnMut(Key, u64) -> u64>(
        &mut self,
        range: R,
        new: F,
    ) -> Result<Done<()>, Fault>
        requires { F.IsAlwaysCallable new }
        ensures updates { R.has_bounds range →
            Updates (λ f pair value g. F.step f pair.0 pair.1 value g) new
            (start_index (R.start_bound range)) (end_index (R.end_bound range) key_count)
            (IsOk result) self.old.pairs self.new.pairs }
        ensures full { fault_reported result ≡ Some faults.TableFull → HasAllPages self.new }
        ensures pages { self.old.pages ≤ self.new.pages }
        ensures config { self.new.config ≡ self.old.config }
    {
        let low = start_fence(range.start_bound());
        let high = end_fence(range.end_bound());
        self.update_each(low, high, new)
    }

    /// Sets each pair from the low on and below the high to the value that the function makes of
    /// it.
    fn update_each<F: FnMut(Key, u64) -> u64>(
        &mut self,
        low: Fence,
        high: Fence,
        mut new: F,
    ) -> Result<Done<()>, Fault>
        requires { F.IsAlwaysCallable new }
        ensures updates { Updates (λ f pair value g. F.step f pair.0 pair.1 value g) new
            (end_of low) (end_of high) (IsOk result) self.old.pairs self.new.pairs }
        ensures full { fault_reported result ≡ Some faults.TableFull → HasAllPages self.new }
        ensures pages { self.old.pages ≤ self.new.pages }
        ensures config { self.new.config ≡ self.old.config }
    {
        self.law();
        let mut next = low;
        let mut fault = None;
        while let Some(pair) = first_altered(self.walk(next, high), &mut new) {
            self.law();
            let done = self.set_found(pair.found, pair.key, pair.value)?;
            fault = fault.or(done.fault);
            next = fence_behind(pair.key);
        }
        Ok(Done { reply: (), fault })
    }
}

/// Returns the first pair for which the function makes a different value.
fn first_altered<A: Allocator + Copy, F: FnMut(Key, u64) -> u64>(
    mut pairs: Pairs<'_, A>,
    new: &mut F,
) -> Option<Altered>
    requires { F.IsAlwaysCallable new.old }
    ensures callable { F.IsAlwaysCallable new.new }
    ensures alters { Alters (λ f pair value g. F.step f pair.0 pair.1 value g) (pair_of result)
        new.old pairs.entry new.new }
{
    while let Some((key, had)) = pairs.next() {
        let value = new(key, had);
        if value != had {
            let found = Found::in_leaf(pairs.leaf.pid(), had);
            return Some(Altered { key, value, found });
        }
    }
    None
}
