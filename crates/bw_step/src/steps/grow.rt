ghost use Rattle.std.specs.Prelude.{◌≡◌, IfOk};

use bw_delta::{Base, NoMemory};
use bw_keys::{Pid, Version};
use std::alloc::Allocator;

/// Puts a new root over the old one and the child that a split of it made.
#[derive(Drop)]
pub struct Grow<A: Allocator> {
    pub child: Pid,
    pub seen: Version,
    pub base: Base<A>,
}

impl<A: Allocator + Copy> Grow<A> {
    /// Returns an equal step with memory of its own.
    pub fn twin(&self, alloc: A) -> Result<Grow<A>, NoMemory>
        ensures { IfOk result (λ twin. twin ≡ self.now) }
    {
        Ok(Grow {
            base: self.base.copy_in(alloc)?,
            ..*self
        })
    }
}
