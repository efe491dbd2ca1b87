ghost use Rattle.std.specs.Prelude.{◌≡◌, ◌-◌, ◌<◌, ◌^◌, ◌∷◌, IfOk, replicate};
ghost use Rattle.bw_law.specs.Slots.{free_slot};
ghost use Rattle.bw_law.specs.Tables.{first_slot};

use crate::slot::Slot;
use std::alloc::{AllocError, Allocator, Global};

/// The slots of a new table: an empty leaf, and a free slot for each other id.
pub(crate) fn first_slots<A: Allocator + Copy>(
    machine: Global,
    alloc: A,
    pages: u32,
    version: u64,
) -> Result<Vec<Slot<A>>, AllocError>
    requires { 0 < pages }
    ensures fits { version < 2 ^ 64 }
    ensures slots { IfOk result (λ slots.
        slots.items ≡ first_slot version ∷ replicate (pages - 1) (free_slot version)) }
{
    let mut slots = Vec::with_capacity(machine, pages as usize)?;
    slots.push(Slot::first(alloc, version))?;
    let others = pages - 1;
    for _page in 0..others {
        slots.push(Slot::free(alloc, version))?;
    }
    Ok(slots)
}
