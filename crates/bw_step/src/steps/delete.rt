ghost use Rattle.std.specs.Prelude.{◌≡◌, IfOk};

use bw_delta::{NoMemory, Spare};
use bw_keys::{Key, Pid, Version};
use std::alloc::Allocator;

/// Removes the key.
#[derive(Drop)]
pub struct Delete<A: Allocator> {
    pub page: Pid,
    pub seen: Version,
    pub key: Key,
    pub spare: Spare<A>,
}

impl<A: Allocator + Copy> Delete<A> {
    /// Returns an equal step with memory of its own.
    pub fn twin(&self, alloc: A) -> Result<Delete<A>, NoMemory>
        ensures { IfOk result (λ twin. twin ≡ self.now) }
    {
        Ok(Delete {
            spare: Spare::new(alloc)?,
            ..*self
        })
    }
}
