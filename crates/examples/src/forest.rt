//! Four threads fill one ordered map that has eight trees, each with a lock of its own, and delete
//! some keys of it again.

use anyhow::Result;
use nifforan_forest::{
    Bounds, Config, Fault, ForestHand, ForestJob, ForestWorker, GivenUp, share_forest,
};
use std::alloc::Global;
use std::sync::Wait;
use std::thread::Threads;

/// Puts every fourth of four thousand keys, and deletes every fourth of those.
struct Fill;

impl ForestJob for Fill {
    type Output = Result<(), Fault>;

    type Trail = GivenUp;

    fn work<H: ForestHand>(
        &self,
        worker: u32,
        forest: &mut ForestWorker<'_, H>,
    ) -> Result<(), Fault> {
        for i in 0..1000 {
            let key = 4 * i + u64::from(worker);
            forest.put(key, 7 * key)?;
            if i % 4 == 0 {
                forest.delete(key)?;
            }
        }
        Ok(())
    }
}

/// Writes how many pairs each tree has, and what the forest has then.
pub fn run<R: Threads + Wait + Sync + Send + Copy>(
    rt: R,
    machine: Global,
    told: &mut String,
) -> Result<()> {
    let bounds = Bounds::even(machine, 8, 4000)?;
    let shared = share_forest(rt, machine, bounds, Config::default(), 4, &Fill)?;
    for worker in shared.workers {
        worker.output?;
    }
    for tree in shared.forest.trees().iter() {
        let book = tree.table().book();
        let pairs = book.inserted - book.removed;
        writeln!(told, "from {}: {pairs} pairs", tree.range().low)?;
    }
    let pairs = shared.forest.pairs(machine)?;
    writeln!(told, "{} pairs, up to {:?}", pairs.len(), pairs.last())?;
    writeln!(told, "{:?}", shared.forest.get(1004))?;
    Ok(())
}
