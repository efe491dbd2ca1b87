ghost use Rattle.std.specs.Prelude.{◌≡◌, IfOk};

use bw_delta::{NoMemory, Spare};
use bw_keys::{Pid, Version};
use std::alloc::Allocator;

/// Names the child, which a split made, in its parent.
#[derive(Drop)]
pub struct TermAdd<A: Allocator> {
    pub parent: Pid,
    pub parent_seen: Version,
    pub child: Pid,
    pub child_seen: Version,
    pub spare: Spare<A>,
}

impl<A: Allocator + Copy> TermAdd<A> {
    /// Returns an equal step with memory of its own.
    pub fn twin(&self, alloc: A) -> Result<TermAdd<A>, NoMemory>
        ensures { IfOk result (λ twin. twin ≡ self.now) }
    {
        Ok(TermAdd {
            spare: Spare::new(alloc)?,
            ..*self
        })
    }
}
