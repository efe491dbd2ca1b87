//! More pages for a table.

ghost use Rattle.std.specs.Prelude.{◌≡◌, ◌+◌, ◌<◌, ◌≤◌, ◌^◌, ◌++◌, length, replicate, vec_capacity, OnOk, OnErr};
ghost use Rattle.bw_law.specs.declared.pages.TheConstants.{MAX_PAGES};
ghost use Rattle.bw_law.specs.MorePages.{KeptWithMorePages, with_more_pages};
ghost use Rattle.bw_law.specs.Slots.{free_slot};

use crate::slot::Slot;
use crate::table::Table;
use bw_delta::NoMemory;
use std::alloc::Allocator;

impl<A: Allocator + Copy> Table<A> {
    /// Adds that many pages to the table, which may come to have [`MAX_PAGES`]. Its pairs stay, and
    /// each page with its version; the new pages are taken after those that are free already. If
    /// memory is refused, the table stays as it was.
    pub fn add_pages(&mut self, more: u32) -> Result<(), NoMemory>
        requires { self.old.config.pages + more ≤ MAX_PAGES }
        ensures more { OnOk result (self.new ≡ with_more_pages more self.old) }
        ensures kept { OnOk result (KeptWithMorePages more self.old self.new) }
        ensures unchanged { OnErr result (self.new ≡ self.old) }
    {
        let free = self.free.behind(self.config.pages, more)?;
        self.slots.reserve(more as usize)?;
        push_free(self.alloc, &mut self.slots, more, self.config.first_version);
        self.free = free;
        self.config.pages += more;
        Ok(())
    }
}

/// Puts that many free slots after the others. There is room for them.
fn push_free<A: Allocator + Copy>(alloc: A, slots: &mut Vec<Slot<A>>, more: u32, version: u64)
    requires { length slots.old.items + more ≤ vec_capacity slots.old }
    ensures fits { version < 2 ^ 64 }
    ensures slots { slots.new.items ≡ slots.old.items ++ replicate more (free_slot version) }
{
    for _page in 0..more {
        slots.push_reserved(Slot::free(alloc, version));
    }
}
