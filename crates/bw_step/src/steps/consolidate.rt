ghost use Rattle.std.specs.Prelude.{◌≡◌, IfOk};

use bw_delta::{Base, NoMemory};
use bw_keys::{Pid, Version};
use std::alloc::Allocator;

/// Replaces the chain by the base, which lists the same.
#[derive(Drop)]
pub struct Consolidate<A: Allocator> {
    pub page: Pid,
    pub seen: Version,
    pub base: Base<A>,
}

impl<A: Allocator + Copy> Consolidate<A> {
    /// Returns an equal step with memory of its own.
    pub fn twin(&self, alloc: A) -> Result<Consolidate<A>, NoMemory>
        ensures { IfOk result (λ twin. twin ≡ self.now) }
    {
        Ok(Consolidate {
            base: self.base.copy_in(alloc)?,
            ..*self
        })
    }
}
