//! The rows of a trace, shared out to the workers.

ghost use Rattle.std.specs.Prelude.{◌≡◌, ◌<◌, [], IfOk, length, map, replicate};
ghost use Rattle.std.specs.List.{AllByRecursion};
ghost use Rattle.bw_run.specs.Rows.{ArePlanned};

use bw_delta::NoMemory;
use bw_procedures::Act;
use bw_texts::Row;
use std::alloc::Global;

/// Returns each worker's acts, in the order of its rows.
pub(crate) fn share_out(
    machine: Global,
    workers: u32,
    rows: &[Row],
) -> Result<Vec<Vec<Act>>, NoMemory>
    requires { AllByRecursion (λ row. row.worker < workers) rows.now }
    ensures count { IfOk result (λ plan. length plan.items ≡ workers) }
    ensures planned { IfOk result (λ plan.
        ArePlanned (map (λ acts. acts.items) plan.items) rows.now) }
{
    let mut plan = empty_lists(machine, workers as usize)?;
    for row in rows {
        plan[row.worker as usize].push(row.act)?;
    }
    Ok(plan)
}

/// Returns so many empty lists.
pub(crate) fn empty_lists<T: Drop>(machine: Global, count: usize) -> Result<Vec<Vec<T>>, NoMemory>
    ensures { IfOk result (λ lists. map (λ list. list.items) lists.items ≡ replicate count []) }
{
    let mut lists = Vec::with_capacity(machine, count)?;
    for _ in 0..count {
        lists.push(Vec::new(machine))?;
    }
    Ok(lists)
}
