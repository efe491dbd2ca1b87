//! Whether there is a page that another one could be split to.

ghost use Rattle.std.specs.Prelude.{◌≡◌, ◌↔◌, [], IsTrue, length};

use crate::table::Table;
use std::alloc::Allocator;

impl<A: Allocator + Copy> Table<A> {
    /// Returns the number of slots that are free for new pages, in constant time. A free slot whose
    /// version is used up isn't among them.
    pub fn free_pages(&self) -> usize
        ensures { result ≡ length self.now.free }
    {
        self.free.len()
    }

    /// Returns whether no slot is free for a new page, in constant time. A split is then refused as
    /// `TableFull`.
    pub fn is_full(&self) -> bool
        ensures { IsTrue result ↔ (self.now.free ≡ []) }
    {
        self.free_pages() == 0
    }
}
