ghost use Rattle.std.specs.Prelude.{◌≡◌, IfOk};

use bw_delta::{NoMemory, Spare};
use bw_keys::{Pid, Version};
use std::alloc::Allocator;

/// Removes the term of the merged child from its parent, and frees the child's slot.
#[derive(Drop)]
pub struct TermDelete<A: Allocator> {
    pub parent: Pid,
    pub parent_seen: Version,
    pub child: Pid,
    pub child_seen: Version,
    pub spare: Spare<A>,
}

impl<A: Allocator + Copy> TermDelete<A> {
    /// Returns an equal step with memory of its own.
    pub fn twin(&self, alloc: A) -> Result<TermDelete<A>, NoMemory>
        ensures { IfOk result (λ twin. twin ≡ self.now) }
    {
        Ok(TermDelete {
            spare: Spare::new(alloc)?,
            ..*self
        })
    }
}
