ghost use Rattle.std.specs.Prelude.{◌≡◌, IfOk};

use bw_delta::{NoMemory, Spare};
use bw_keys::{Pid, Version};
use std::alloc::Allocator;

/// Begins the removal of the page, whose parent is named to show that the page isn't its leftmost
/// child.
#[derive(Drop)]
pub struct Mark<A: Allocator> {
    pub page: Pid,
    pub seen: Version,
    pub parent: Pid,
    pub spare: Spare<A>,
}

impl<A: Allocator + Copy> Mark<A> {
    /// Returns an equal step with memory of its own.
    pub fn twin(&self, alloc: A) -> Result<Mark<A>, NoMemory>
        ensures { IfOk result (λ twin. twin ≡ self.now) }
    {
        Ok(Mark {
            spare: Spare::new(alloc)?,
            ..*self
        })
    }
}
