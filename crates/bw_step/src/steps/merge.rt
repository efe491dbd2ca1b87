ghost use Rattle.std.specs.Prelude.{◌≡◌, IfOk};

use bw_delta::{NoMemory, Spare};
use bw_keys::{Pid, Version};
use std::alloc::Allocator;

/// Merges the marked page into its left neighbour.
#[derive(Drop)]
pub struct Merge<A: Allocator> {
    pub left: Pid,
    pub left_seen: Version,
    pub page: Pid,
    pub page_seen: Version,
    pub left_spare: Spare<A>,
    pub page_spare: Spare<A>,
}

impl<A: Allocator + Copy> Merge<A> {
    /// Returns an equal step with memory of its own.
    pub fn twin(&self, alloc: A) -> Result<Merge<A>, NoMemory>
        ensures { IfOk result (λ twin. twin ≡ self.now) }
    {
        Ok(Merge {
            left_spare: Spare::new(alloc)?,
            page_spare: Spare::new(alloc)?,
            ..*self
        })
    }
}
