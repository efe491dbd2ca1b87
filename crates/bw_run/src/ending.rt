//! The end of a run.

ghost use Rattle.std.specs.Prelude.{◌≡◌, ◌<◌, IfOk, IfErr, length};
ghost use Rattle.std.specs.List.{AllByRecursion};
ghost use Rattle.bw_step.specs.Trails.{lists_of};
ghost use Rattle.bw_tree.specs.Trees.{IsTree, CountsPairs};
ghost use Rattle.bw_crew.specs.Workers.{changes_in};
ghost use Rattle.bw_run.specs.Answers.{AreAnswered, columns_of};
ghost use Rattle.bw_run.specs.Faults.{EndsBadly};
ghost use Rattle.bw_run.specs.Runs.{IsRunOf};

use crate::answers::Answers;
use crate::fault::RunFault;
use crate::judgement::judge;
use crate::merging::merge;
use bw_procedures::Reply;
use bw_step::Receipt;
use bw_table::Table;
use bw_texts::Row;
use std::alloc::Global;

/// A run that came to its end, and that the audit found legal.
#[derive(Drop)]
pub struct Finished {
    pub table: Table<Global>,
    /// The reply to each row of the trace, at the row's place.
    pub replies: Vec<Reply>,
    /// Each worker's receipts, in their order.
    pub trails: Vec<Vec<Receipt>>,
}

/// Ends a run that left this table, and each worker's answers and trail: audits its history, and
/// brings the replies into the order of the rows. Fails if the history isn't legal.
pub(crate) fn finish(
    machine: Global,
    rows: &[Row],
    table: Table<Global>,
    answers: Vec<Answers>,
    trails: Vec<Vec<Receipt>>,
) -> Result<Finished, RunFault>
    requires workers { AllByRecursion (λ row. row.worker < length answers.items) rows.now }
    requires trails { length trails.items ≡ length answers.items }
    requires answered { AreAnswered rows.now (columns_of answers.items) (lists_of trails.items) }
    requires tree { IsTree table }
    requires counted { CountsPairs table (changes_in (lists_of trails.items)) }
    ensures finished { IfOk result (IsRunOf (length answers.items) rows.now) }
    ensures table { IfOk result (λ finished. finished.table ≡ table) }
    ensures fault { IfErr result (EndsBadly (length answers.items)) }
{
    judge(machine, &table, &trails)?;
    let replies = merge(machine, rows, answers)?;
    Ok(Finished {
        table,
        replies,
        trails,
    })
}
