//! Callers with contracts of their own: one of a map, and one of each call of a reader.
#![tactic(auto)]

ghost use Rattle.std.specs.Prelude.{◌≡◌, OnOk};
ghost use Rattle.bw_delta.specs.Entries.{put};

use nifforan::{Fault, Key, Map};
use std::alloc::Global;

pub mod waitless;

/// Sets both keys to the value.
pub fn set_both(map: &mut Map<Global>, first: Key, second: Key, value: u64) -> Result<(), Fault>
    ensures { OnOk result (map.new.pairs ≡ put second value (put first value map.old.pairs)) }
{
    map.set(first, value)?;
    map.set(second, value)?;
    Ok(())
}
