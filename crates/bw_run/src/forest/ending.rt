//! The end of a run on a forest.

ghost use Rattle.std.specs.Prelude.{◌≡◌, ◌<◌, All, IfOk, IfErr, length, map};
ghost use Rattle.std.specs.List.{AllByRecursion};
ghost use Rattle.bw_step.specs.Trails.{lists_of};
ghost use Rattle.bw_tree.specs.Shares.{sum_of};
ghost use Rattle.bw_crew.specs.Workers.{ByNumber, share_by};
ghost use Rattle.bw_run.specs.ForestAnswers.{AreForestAnswersTo};
ghost use Rattle.bw_run.specs.ForestFaults.{EndsForest};
ghost use Rattle.bw_run.specs.ForestRuns.{EachIsLegal, TellsByTrees, by_trees, in_a_row, shares_at, trails_at};
ghost use Rattle.bw_run.specs.Rows.{acts_of};

use crate::answers::Answers;
use crate::fault::RunFault;
use crate::forest::histories::judge_each;
use crate::forest::trails::sort_out;
use crate::merging::merge;
use crate::stopping::check_stops;
use bw_delta::NoMemory;
use bw_forest::ClosedForest;
use bw_procedures::Reply;
use bw_step::Receipt;
use bw_texts::Row;
use nifforan_forest::ForestOutcome;
use std::alloc::Global;
use std::convert::Infallible;

/// A finished run on a forest, whose audit found each tree's history legal.
#[derive(Drop)]
pub struct FinishedForest {
    /// The trees, in the order of their ranges.
    pub forest: ClosedForest<Global>,
    /// The reply to each row of the trace, at the row's place.
    pub replies: Vec<Reply>,
    /// At each tree, each worker's receipts there, in their order.
    pub trails: Vec<Vec<Vec<Receipt>>>,
}

/// Ends a run on a forest that left this: audits each tree's history, and brings the replies into
/// the order of the rows. Fails if a worker stopped, and names the one with the least number; and
/// if a history isn't legal.
pub(crate) fn finish_forest(
    machine: Global,
    rows: &[Row],
    outcome: ForestOutcome<Result<Answers, NoMemory>, Vec<Receipt>>,
) -> Result<FinishedForest, RunFault>
    requires workers { AllByRecursion (λ row. row.worker < length outcome.workers.items) rows.now }
    requires trails { All (λ it. length it.trails.items ≡ length outcome.forest.bounds)
        outcome.workers.items }
    requires promised { ByNumber (λ worker it. IfOk it.output
        (AreForestAnswersTo outcome.forest.bounds (acts_of worker rows.now)
        (lists_of it.trails.items)))
        0 outcome.workers.items }
    ensures forest { IfOk result (λ finished. finished.forest ≡ outcome.forest) }
    ensures shares { IfOk result (λ finished. sum_of (shares_at finished) ≡ sum_of (map share_by
        (in_a_row (map (λ it. lists_of it.trails.items) outcome.workers.items)))) }
    ensures replies { IfOk result (λ finished. length finished.replies.items ≡ length rows.now) }
    ensures trails { IfOk result
        (λ finished. length finished.trails.items ≡ length outcome.forest.bounds) }
    ensures each { IfOk result (λ finished.
        All (λ its. length its.items ≡ length outcome.workers.items) finished.trails.items) }
    ensures legal { IfOk result
        (λ finished. EachIsLegal outcome.forest.tables (trails_at finished)) }
    ensures reported { IfOk result (TellsByTrees (length outcome.workers.items) rows.now) }
    ensures fault { IfErr result (EndsForest (length outcome.workers.items) rows.now
        outcome.forest.tables (by_trees (length outcome.forest.bounds)
        (map (λ it. lists_of it.trails.items) outcome.workers.items))) }
{
    let ForestOutcome { forest, workers } = outcome;
    let (answers, trails) = sort_out(machine, forest.bounds().trees() as usize, workers)?;
    check_stops::<Infallible>(rows, &answers)?;
    judge_each(machine, forest.trees(), &trails)?;
    let replies = merge(machine, rows, answers)?;
    Ok(FinishedForest {
        forest,
        replies,
        trails,
    })
}
