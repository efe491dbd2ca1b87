//! Puts a few pairs into a map, reads them, and removes some of them.
#![tactic(auto)]

use anyhow::Result;
use nifforan::{Fence, Map, usual_config};
use std::alloc::Global;

fn change_and_read(rt: HostRuntime, map: &mut Map<Global>) -> Result<()> {
    for key in 1..11 {
        map.put(key, 100)?;
    }
    // `put` leaves a value that is there
    println!(rt; "{:?}", map.put(4, 200)?.reply)?;
    println!(rt; "{:?}", map.set(4, 200)?.reply)?;
    println!(rt; "{:?}", map.delete(6)?.reply)?;
    for (key, value) in map.range(3..8) {
        println!(rt; "{key} has {value}")?;
    }
    println!(rt; "{} {:?}", map.len(), map.last())?;
    println!(rt; "{}", map.clear(5, Fence::Top).removed)?;
    Ok(())
}

pub fn main(rt: HostRuntime) -> Result<()> {
    let mut map = Map::new(rt.alloc(), rt.alloc(), usual_config())?;
    change_and_read(rt, &mut map)
}
