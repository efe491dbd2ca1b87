ghost use Rattle.std.specs.Prelude.{◌≡◌, IfOk};

use bw_delta::{Base, NoMemory, Spare};
use bw_keys::{Key, Pid, Version};
use std::alloc::Allocator;

/// Moves the entries from the separator on, which the base lists, to a new page on the right.
#[derive(Drop)]
pub struct Split<A: Allocator> {
    pub page: Pid,
    pub seen: Version,
    pub separator: Key,
    pub base: Base<A>,
    pub spare: Spare<A>,
}

impl<A: Allocator + Copy> Split<A> {
    /// Returns an equal step with memory of its own.
    pub fn twin(&self, alloc: A) -> Result<Split<A>, NoMemory>
        ensures { IfOk result (λ twin. twin ≡ self.now) }
    {
        Ok(Split {
            base: self.base.copy_in(alloc)?,
            spare: Spare::new(alloc)?,
            ..*self
        })
    }
}
