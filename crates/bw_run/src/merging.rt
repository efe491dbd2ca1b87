//! The workers' replies, brought into the order of the trace.

ghost use Rattle.std.specs.Prelude.{◌≡◌, ◌<◌, IfOk, length, map};
ghost use Rattle.std.specs.List.{AllByRecursion};
ghost use Rattle.bw_run.specs.Answers.{columns_of};
ghost use Rattle.bw_run.specs.Rows.{AreFull, IsMerged};

use crate::answers::Answers;
use bw_delta::NoMemory;
use bw_procedures::Reply;
use bw_texts::Row;
use std::alloc::Global;
use std::vec::IntoIter;

/// Returns the replies, each at its row's place. Each worker has as many replies as rows.
#[tactic(auto, using(crate::proofs::Merges::own_end))]
pub(crate) fn merge(
    machine: Global,
    rows: &[Row],
    answers: Vec<Answers>,
) -> Result<Vec<Reply>, NoMemory>
    requires workers { AllByRecursion (λ row. row.worker < length answers.items) rows.now }
    requires full { AreFull rows.now (columns_of answers.items) }
    ensures { IfOk result (λ merged. IsMerged rows.now (columns_of answers.items) merged.items) }
{
    let mut columns = replies_of(machine, answers)?;
    let mut merged = Vec::with_capacity(machine, rows.len())?;
    for row in rows {
        let Some(reply) = columns[row.worker as usize].next() else {
            unreachable!()
        };
        merged.push(reply)?;
    }
    Ok(merged)
}

/// Returns each worker's replies, to be taken one by one.
fn replies_of(
    machine: Global,
    answers: Vec<Answers>,
) -> Result<Vec<IntoIter<Reply, Global>>, NoMemory>
    ensures { IfOk result (λ columns.
        map (λ column. column.rest.items) columns.items ≡ columns_of answers.items) }
{
    let mut columns = Vec::with_capacity(machine, answers.len())?;
    for each in answers {
        let Answers { replies, .. } = each;
        columns.push(replies.into_iter())?;
    }
    Ok(columns)
}
