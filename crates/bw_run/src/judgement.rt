//! The audit of a run.

ghost use Rattle.std.specs.Prelude.{ℕ, List, OnOk, IfErr};
ghost use Rattle.bw_step.specs.Trails.{lists_of};
ghost use Rattle.bw_table.specs.Views.{ArePairsOf};
ghost use Rattle.bw_tree.specs.Trees.{IsTree};
ghost use Rattle.bw_audit.specs.Legal.{IsLegal};
ghost use Rattle.bw_run.specs.Faults.{IsVerdictOn};

use crate::fault::RunFault;
use bw_audit::{AuditFault, Verdict, audit};
use bw_step::Receipt;
use bw_table::Table;
use std::alloc::Global;

/// Audits the trails with the table's pairs. Fails if they aren't a legal history.
#[tactic(auto, using(crate::proofs::Verdicts::same_pairs))]
pub(crate) fn judge(
    machine: Global,
    table: &Table<Global>,
    trails: &[Vec<Receipt>],
) -> Result<(), RunFault>
    requires { IsTree table.now }
    ensures legal { OnOk result ((pairs : List (ℕ × ℕ)) → ArePairsOf table.now pairs
        → IsLegal (lists_of trails.now) pairs) }
    ensures fault { IfErr result (λ fault. (pairs : List (ℕ × ℕ)) → ArePairsOf table.now pairs
        → IsVerdictOn (lists_of trails.now) pairs fault) }
{
    let pairs = table.pairs(machine)?;
    match audit(machine, trails, &pairs) {
        Ok(Verdict::Yes) => Ok(()),
        Ok(Verdict::No(worker, receipt)) => Err(RunFault::Audit(worker, receipt)),
        Err(AuditFault::NoMemory) => Err(RunFault::Memory),
    }
}
