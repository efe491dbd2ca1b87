//! The audit of a run on a forest.

ghost use Rattle.std.specs.Prelude.{◌≡◌, All, OnOk, IfErr, length, map};
ghost use Rattle.bw_step.specs.Trails.{lists_of};
ghost use Rattle.bw_tree.specs.Trees.{IsTree};
ghost use Rattle.bw_forest.specs.Forests.{tables_of};
ghost use Rattle.bw_run.specs.ForestFaults.{IsTreeVerdictOn, NamesFirstBad};
ghost use Rattle.bw_run.specs.ForestRuns.{EachIsLegal, IsLegalAt};

use crate::fault::RunFault;
use crate::judgement::judge;
use bw_forest::ClosedTree;
use bw_step::Receipt;
use bw_table::Table;
use std::alloc::Global;

/// Audits each tree's history: the trails of all workers there, with the pairs of its table. Fails
/// if one isn't legal, and names the first of these.
pub(crate) fn judge_each(
    machine: Global,
    trees: &[ClosedTree<Global>],
    trails: &[Vec<Vec<Receipt>>],
) -> Result<(), RunFault>
    requires trees { All IsTree (tables_of trees.now) }
    requires each { length trails.now ≡ length trees.now }
    ensures legal { OnOk result
        (EachIsLegal (tables_of trees.now) (map (λ its. lists_of its.items) trails.now)) }
    ensures fault { IfErr result
        (NamesFirstBad (tables_of trees.now) (map (λ its. lists_of its.items) trails.now)) }
{
    for number in 0..trees.len() {
        judge_tree(machine, number, trees[number].table(), &trails[number])?;
    }
    Ok(())
}

/// Audits the history of the tree with this number.
fn judge_tree(
    machine: Global,
    number: usize,
    table: &Table<Global>,
    trails: &[Vec<Receipt>],
) -> Result<(), RunFault>
    requires { IsTree table.now }
    ensures legal { OnOk result (IsLegalAt table.now (lists_of trails.now)) }
    ensures fault { IfErr result (IsTreeVerdictOn number table.now (lists_of trails.now)) }
{
    let Err(fault) = judge(machine, table, trails) else {
        return Ok(());
    };
    match fault {
        RunFault::Audit(worker, receipt) => Err(RunFault::TreeAudit(number, worker, receipt)),
        _ => Err(fault),
    }
}
