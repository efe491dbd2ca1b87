ghost use Rattle.std.specs.Prelude.{◌≡◌, ◌↔◌, IfOk};
ghost use Rattle.bw_keys.specs.Ranges.{key_count};
ghost use Rattle.bw_delta.specs.Entries.{rises};
ghost use Rattle.bw_chain.specs.Ascends.{IsAscending};
ghost use Rattle.bw_step.specs.Trails.{lists_of};
ghost use Rattle.bw_audit.specs.Changes.{all_changes};
ghost use Rattle.bw_audit.specs.Legal.{IsLegal};
ghost use Rattle.bw_audit.specs.Verdicts.{leaves, verdict_of};

use crate::change::gather;
use crate::index::Index;
use crate::rules::first_fault;
use crate::verdict::{AuditFault, Verdict};
use bw_keys::Key;
use bw_step::Receipt;
use std::alloc::Global;

/// Audits a history: returns whether one order of the changes explains every reply and leaves the
/// pairs, or else the first bad receipt.
///
/// Each trail has one worker's receipts, in their order. Receipts of changed shape are skipped. A
/// receipt is bad if
///
/// - it is a change whose number isn't above what stands before it in its trail, or a look that saw
///   fewer changes;
/// - it is a change whose number is 0, above the count of all changes, or that of an earlier
///   receipt, or a look that saw more changes than there are;
/// - its reply isn't what the map has after the changes with smaller numbers.
///
/// Takes O(n log n) time for n receipts and pairs.
///
/// # Errors
///
/// Fails only if memory runs out.
#[tactic(auto, using(crate::proofs::Converse::yes_exactly))]
pub fn audit(
    machine: Global,
    trails: &[Vec<Receipt>],
    pairs: &[(Key, u64)],
) -> Result<Verdict, AuditFault>
    requires ascending { IsAscending pairs.now }
    ensures legal { IfOk result (λ verdict.
        (verdict ≡ Verdict.Yes) ↔ IsLegal (lists_of trails.now) pairs.now) }
    ensures first { IfOk result (λ verdict. verdict ≡ verdict_of (lists_of trails.now) pairs.now) }
{
    let changes = gather(machine, trails)?;
    let index = Index::new(machine, changes)?;
    judge(machine, &index, trails, pairs)
}

/// Returns whether the keys of the pairs rise strictly, as [`audit`] requires.
pub fn is_ascending(pairs: &[(Key, u64)]) -> bool
    ensures { result ≡ rises 0 key_count pairs.now }
{
    let Some((first, rest)) = pairs.split_first() else {
        return true;
    };
    let mut last = first.0;
    for pair in rest {
        if pair.0 <= last {
            return false;
        }
        last = pair.0;
    }
    true
}

/// Returns the first bad receipt, or else whether the changes leave the pairs.
fn judge(
    machine: Global,
    index: &Index,
    trails: &[Vec<Receipt>],
    pairs: &[(Key, u64)],
) -> Result<Verdict, AuditFault>
    requires ascending { IsAscending pairs.now }
    requires indexed { index.now ≡ all_changes (lists_of trails.now) }
    ensures { IfOk result (λ verdict. verdict ≡ verdict_of (lists_of trails.now) pairs.now) }
{
    if let Some((worker, place)) = first_fault(index, trails) {
        return Ok(Verdict::No(worker, place));
    }
    if does_leave(machine, index, pairs)? {
        Ok(Verdict::Yes)
    } else {
        Ok(Verdict::No(trails.len(), 0))
    }
}

/// Returns whether the map after all changes has these pairs and no others.
fn does_leave(machine: Global, index: &Index, pairs: &[(Key, u64)]) -> Result<bool, AuditFault>
    requires ascending { IsAscending pairs.now }
    ensures { IfOk result (λ same. same ≡ leaves index.now pairs.now) }
{
    let left = index.pairs(machine)?;
    Ok(left.as_slice() == pairs)
}
