//! Runs of a trace by worker threads on a forest: trees by ranges of keys, each under a lock of its
//! own.

ghost use Rattle.std.specs.Prelude.{◌≡◌, ◌<◌, All, IsOk, IfOk, IfErr, length};
ghost use Rattle.std.specs.List.{AllByRecursion};
ghost use Rattle.bw_forest.specs.Bounds.{AreOfSample};
ghost use Rattle.bw_forest.specs.Forests.{IsClosedForest};
ghost use Rattle.bw_run.specs.ForestFaults.{IsForestRunFault, MayRunForest};
ghost use Rattle.bw_run.specs.ForestRuns.{EachIsLegal, TellsByTrees, shares_at, trails_at};
ghost use Rattle.bw_run.specs.Rows.{keys_of};

mod acts;
mod ending;
mod histories;
mod job;
mod sample;
mod survey;
mod trails;

use crate::checks::check_crew;
use crate::fault::RunFault;
use crate::forest::ending::finish_forest;
use crate::forest::job::ForestRows;
use crate::forest::sample::bounds_for;
use crate::plan::share_out;
use crate::progress::Progress;
use bw_forest::MAX_TREES;
use bw_keys::Config;
use bw_texts::Row;
pub use ending::FinishedForest;
use nifforan_forest::share_forest;
use std::alloc::Global;
use std::sync::Wait;
use std::thread::Threads;

/// Runs a trace as [`run_counted`](crate::run_counted) does without readers, on a new forest of
/// `trees` trees, 1 to `MAX_TREES`, or of fewer. Their ranges begin at quantiles of the keys that the
/// rows name, and equal quantiles begin one range. The configuration is for each tree. Each tree's
/// history, which is the trails of all workers there, is audited with the pairs that its table has.
#[tactic(auto, using(crate::proofs::ForestEnds::crew_in_forest_run))]
pub fn run_forest<R: Threads + Wait + Sync + Send + Copy>(
    rt: R,
    machine: Global,
    config: Config,
    workers: u32,
    trees: u32,
    rows: &[Row],
    progress: &Progress,
) -> Result<FinishedForest, RunFault>
    requires { AllByRecursion (λ row. row.worker < workers) rows.now }
    ensures replies { IfOk result (λ finished. length finished.replies.items ≡ length rows.now) }
    ensures bounds { IfOk result
        (λ finished. AreOfSample (keys_of rows.now) trees finished.forest.bounds) }
    ensures closed { IfOk result
        (λ finished. IsClosedForest config (shares_at finished) finished.forest) }
    ensures trails { IfOk result
        (λ finished. length finished.trails.items ≡ length finished.forest.bounds) }
    ensures each { IfOk result
        (λ finished. All (λ its. length its.items ≡ workers) finished.trails.items) }
    ensures legal { IfOk result
        (λ finished. EachIsLegal finished.forest.tables (trails_at finished)) }
    ensures reported { IfOk result (TellsByTrees workers rows.now) }
    ensures fine { IsOk result → MayRunForest config workers trees }
    ensures fault { IfErr result (IsForestRunFault config workers trees rows.now) }
{
    check_crew(config, workers)?;
    if !(1..=MAX_TREES).contains(&trees) {
        return Err(RunFault::Trees);
    }
    let bounds = bounds_for(machine, rows, trees)?;
    let plan = share_out(machine, workers, rows)?;
    let job = ForestRows {
        machine,
        plan: &plan,
        progress,
    };
    let outcome = share_forest(rt, machine, bounds, config, workers, &job)?;
    finish_forest(machine, rows, outcome)
}
