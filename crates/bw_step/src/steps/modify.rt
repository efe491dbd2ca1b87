ghost use Rattle.std.specs.Prelude.{◌≡◌, IfOk};

use bw_delta::{NoMemory, Spare};
use bw_keys::{Key, Pid, Version};
use std::alloc::Allocator;

/// Changes the value of the key, which the leaf has.
#[derive(Drop)]
pub struct Modify<A: Allocator> {
    pub page: Pid,
    pub seen: Version,
    pub key: Key,
    pub value: u64,
    pub spare: Spare<A>,
}

impl<A: Allocator + Copy> Modify<A> {
    /// Returns an equal step with memory of its own.
    pub fn twin(&self, alloc: A) -> Result<Modify<A>, NoMemory>
        ensures { IfOk result (λ twin. twin ≡ self.now) }
    {
        Ok(Modify {
            spare: Spare::new(alloc)?,
            ..*self
        })
    }
}
