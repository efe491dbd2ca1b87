//! Several gets at once: their leaves are found first, so that the processor fetches the leaf of one
//! while it waits for that of another.
ghost use Rattle.std.specs.List.{AllZip};
ghost use Rattle.bw_table.specs.Gets.{HasLeaf, IsMapAt};

use crate::table::Table;
use bw_keys::{Key, Pid};
use std::alloc::Allocator;

impl<A: Allocator + Copy> Table<A> {
    /// Returns the values that the map has at the keys, each in the place of its key. It takes no
    /// memory. Whether that is faster than as many gets depends on the program around it.
    #[inline]
    pub fn get_many<const N: usize>(&self, keys: [Key; N]) -> [Option<u64>; N]
        ensures { AllZip (IsMapAt self.now) keys.entry result }
    {
        let leaves = self.leaves_for(&keys);
        self.find_each(&keys, &leaves)
    }

    /// The leaf of each key.
    #[inline(always)]
    fn leaves_for<const N: usize>(&self, keys: &[Key; N]) -> [Pid; N]
        ensures { AllZip (HasLeaf self.now) keys.now result }
    {
        let mut leaves = [Pid(self.root); N];
        'keys: for place in 0..N {
            leaves[place] = self.page_for(keys[place]);
        }
        leaves
    }

    /// The value that the map has at each key, whose leaf is the page in its place.
    #[inline(always)]
    fn find_each<const N: usize>(&self, keys: &[Key; N], leaves: &[Pid; N]) -> [Option<u64>; N]
        requires { AllZip (HasLeaf self.now) keys.now leaves.now }
        ensures { AllZip (IsMapAt self.now) keys.now result }
    {
        let mut found = [None; N];
        'keys: for place in 0..N {
            found[place] = self.find_in(leaves[place], keys[place]);
        }
        found
    }

    /// The value that the map has at the key, whose leaf is the page.
    #[inline(always)]
    fn find_in(&self, leaf: Pid, key: Key) -> Option<u64>
        requires { HasLeaf self.now key leaf }
        ensures { IsMapAt self.now key result }
    {
        self.slot_in_row(leaf).find(key)
    }
}
