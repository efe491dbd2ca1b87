//! Runs each example in turn, and prints what it tells.
#![tactic(auto)]

mod forest;
mod map;
mod readers;
mod shared;

use anyhow::Result;

fn main(rt: HostRuntime) -> Result<()> {
    map::main(rt)?;
    let mut told = String::new(rt.alloc());
    shared::run(rt, rt.alloc(), &mut told)?;
    forest::run(rt, rt.alloc(), &mut told)?;
    readers::run(rt, rt.alloc(), &mut told)?;
    print!(rt; "{told}")?;
    Ok(())
}
