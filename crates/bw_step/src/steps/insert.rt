ghost use Rattle.std.specs.Prelude.{◌≡◌, IfOk};

use bw_delta::{NoMemory, Spare};
use bw_keys::{Key, Pid, Version};
use std::alloc::Allocator;

/// Inserts the key, which the leaf doesn't have, with the value.
#[derive(Drop)]
pub struct Insert<A: Allocator> {
    pub page: Pid,
    pub seen: Version,
    pub key: Key,
    pub value: u64,
    pub spare: Spare<A>,
}

impl<A: Allocator + Copy> Insert<A> {
    /// Returns an equal step with memory of its own.
    pub fn twin(&self, alloc: A) -> Result<Insert<A>, NoMemory>
        ensures { IfOk result (λ twin. twin ≡ self.now) }
    {
        Ok(Insert {
            spare: Spare::new(alloc)?,
            ..*self
        })
    }
}
