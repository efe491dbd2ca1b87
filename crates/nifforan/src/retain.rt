//! Keeps the pairs that a function chooses.

ghost use Rattle.std.specs.Prelude.{◌≡◌, ◌≤◌, None, Some, length};
ghost use Rattle.bw_procedures.specs.declared.fault.Fault.TheVariants as faults;
ghost use Rattle.nifforan.specs.Growing.{HasAllPages};
ghost use Rattle.nifforan.specs.Retaining.{Leaves, Refuses, Retains};

use crate::bounds::fence_behind;
use crate::map::Map;
use crate::pairs::Pairs;
use bw_keys::{Fence, Key};
use bw_procedures::{Cleared, Fault};
use std::alloc::Allocator;

impl<A: Allocator + Copy> Map<A> {
    /// Keeps the pairs for which the function returns true, removes the others, and returns how
    /// many it removed. It calls the function once for each pair, in the order of the keys. A fault
    /// in place of a removal ends the call, and that pair and those after it stay. A fault beside a
    /// removal doesn't end the call; the first of these is returned.
    pub fn retain<F: FnMut(Key, u64) -> bool>(&mut self, keep: F) -> Cleared
        requires { F.IsAlwaysCallable keep }
        ensures retains { Retains (λ f pair stays g. F.step f pair.0 pair.1 stays g) keep
            result.removed (result.fault ≡ None) self.old.pairs self.new.pairs }
        ensures full { result.fault ≡ Some faults.TableFull → HasAllPages self.new }
        ensures pages { self.old.pages ≤ self.new.pages }
        ensures config { self.new.config ≡ self.old.config }
    {
        let count = self.len();
        let fault = self.retain_each(keep);
        Cleared {
            removed: count - self.len(),
            fault,
        }
    }

    /// Removes the pairs for which the function returns false, and returns the fault that ended
    /// this, or else the first that stood beside a removal.
    fn retain_each<F: FnMut(Key, u64) -> bool>(&mut self, mut keep: F) -> Option<Fault>
        requires { F.IsAlwaysCallable keep }
        ensures leaves { Leaves (λ f pair stays g. F.step f pair.0 pair.1 stays g) keep
            (result ≡ None) self.old.pairs self.new.pairs }
        ensures fewer { length self.new.pairs ≤ length self.old.pairs }
        ensures full { result ≡ Some faults.TableFull → HasAllPages self.new }
        ensures pages { self.old.pages ≤ self.new.pages }
        ensures config { self.new.config ≡ self.old.config }
    {
        self.law();
        let mut fault = None;
        let mut low = Fence::Key(0);
        while let Some(key) = first_refused(self.walk(low, Fence::Top), &mut keep) {
            self.law();
            match self.delete(key) {
                Ok(done) => fault = fault.or(done.fault),
                Err(fault) => return Some(fault),
            }
            low = fence_behind(key);
        }
        fault
    }
}

/// Returns the key of the first pair for which the function returns false.
fn first_refused<A: Allocator + Copy, F: FnMut(Key, u64) -> bool>(
    mut pairs: Pairs<'_, A>,
    keep: &mut F,
) -> Option<Key>
    requires { F.IsAlwaysCallable keep.old }
    ensures callable { F.IsAlwaysCallable keep.new }
    ensures refuses { Refuses (λ f pair stays g. F.step f pair.0 pair.1 stays g)
        result keep.old pairs.entry keep.new }
{
    while let Some((key, value)) = pairs.next() {
        if !keep(key, value) {
            return Some(key);
        }
    }
    None
}
