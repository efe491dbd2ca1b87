//! The audit of a table that was opened with pairs.

ghost use Rattle.std.specs.Prelude.{◌≡◌, ◌↔◌, IfOk, length, map};
ghost use Rattle.bw_chain.specs.Ascends.{IsAscending};
ghost use Rattle.bw_law.specs.Tables.{number_of};
ghost use Rattle.bw_step.specs.Trails.{lists_of};
ghost use Rattle.bw_table.specs.Views.{ArePairsOf};
ghost use Rattle.bw_audit.specs.Opened.{IsLegalFrom, insertions, of_the_others, recounted};
ghost use Rattle.bw_audit.specs.Opened.{seen_from, trails_from, verdict_from};

use crate::auditor::audit;
use crate::verdict::{AuditFault, Verdict};
use bw_keys::Key;
use bw_step::Receipt;
use bw_table::Table;
use std::alloc::{Allocator, Global};

/// What a table has before workers share it: how many changes there were, and the pairs that they left.
#[derive(Drop)]
pub struct Opening {
    pub number: u64,
    pub pairs: Vec<(Key, u64)>,
}

impl Opening {
    /// Returns what the table has.
    pub fn of<A: Allocator + Copy>(machine: Global, table: &Table<A>) -> Result<Opening, AuditFault>
        ensures number { IfOk result (λ opening. opening.number ≡ number_of table.now.book) }
        ensures pairs { IfOk result (λ opening. ArePairsOf table.now opening.pairs.items) }
    {
        table.law();
        let book = table.book();
        let Ok(pairs) = table.pairs(machine) else {
            return Err(AuditFault::NoMemory);
        };
        Ok(Opening {
            number: book.inserted + book.removed + book.modified,
            pairs,
        })
    }
}

/// Audits the history of a table that was opened with pairs, as [`audit`] does that of a new one: the
/// trails have the receipts since then, and the pairs are those that the table has now.
///
/// # Errors
///
/// Fails only if memory runs out.
pub fn audit_from(
    machine: Global,
    opening: &Opening,
    trails: &[Vec<Receipt>],
    pairs: &[(Key, u64)],
) -> Result<Verdict, AuditFault>
    requires ascending { IsAscending pairs.now }
    ensures legal { IfOk result (λ verdict. (verdict ≡ Verdict.Yes)
        ↔ IsLegalFrom opening.now.number opening.now.pairs.items (lists_of trails.now) pairs.now) }
    ensures first { IfOk result (λ verdict. verdict
        ≡ verdict_from opening.now.number opening.now.pairs.items (lists_of trails.now) pairs.now) }
{
    let trails = trails_from(machine, opening, trails)?;
    let verdict = audit(machine, trails.as_slice(), pairs)?;
    Ok(of_the_others(verdict))
}

fn of_the_others(verdict: Verdict) -> Verdict
    ensures same { result ≡ of_the_others verdict }
    ensures yes { (result ≡ Verdict.Yes) ↔ (verdict ≡ Verdict.Yes) }
{
    match verdict {
        Verdict::Yes => Verdict::Yes,
        Verdict::No(worker, place) => Verdict::No(worker.saturating_sub(1), place),
    }
}

/// Returns the trails, counted from the opening's pairs, behind one with the insertions of these.
fn trails_from(
    machine: Global,
    opening: &Opening,
    trails: &[Vec<Receipt>],
) -> Result<Vec<Vec<Receipt>>, AuditFault>
    ensures { IfOk result (λ all. lists_of all.items
        ≡ trails_from opening.now.number opening.now.pairs.items (lists_of trails.now)) }
{
    let mut all = Vec::new(machine);
    all.push(insertions(machine, opening.pairs.as_slice())?)?;
    for trail in trails {
        all.push(recounted_trail(machine, opening, trail.as_slice())?)?;
    }
    Ok(all)
}

/// Returns the receipts of the pairs' insertions.
fn insertions(machine: Global, pairs: &[(Key, u64)]) -> Result<Vec<Receipt>, AuditFault>
    ensures { IfOk result (λ trail. trail.items ≡ insertions 0 pairs.now) }
{
    let mut trail = Vec::new(machine);
    for place in 0..pairs.len() {
        let (key, value) = pairs[place];
        trail.push(Receipt::Inserted {
            number: place as u64 + 1,
            key,
            value,
        })?;
    }
    Ok(trail)
}

/// Returns the receipts, counted from the opening's pairs.
fn recounted_trail(
    machine: Global,
    opening: &Opening,
    trail: &[Receipt],
) -> Result<Vec<Receipt>, AuditFault>
    ensures { IfOk result (λ moved. moved.items
        ≡ map (recounted opening.now.number (length opening.now.pairs.items)) trail.now) }
{
    let mut moved = Vec::new(machine);
    for receipt in trail {
        moved.push(recounted(opening.number, opening.pairs.len() as u64, *receipt))?;
    }
    Ok(moved)
}

fn recounted(first: u64, left: u64, receipt: Receipt) -> Receipt
    ensures { result ≡ recounted first left receipt }
{
    let before = first.saturating_sub(left);
    match receipt {
        Receipt::Inserted { number, key, value } => Receipt::Inserted {
            number: number.saturating_sub(before),
            key,
            value,
        },
        Receipt::Deleted { number, key, value } => Receipt::Deleted {
            number: number.saturating_sub(before),
            key,
            value,
        },
        Receipt::Modified {
            number,
            key,
            old,
            value,
        } => Receipt::Modified {
            number: number.saturating_sub(before),
            key,
            old,
            value,
        },
        Receipt::Looked { at, key, found } => Receipt::Looked {
            at: seen_from(first, left, at),
            key,
            found,
        },
        Receipt::Shaped { kind, page, other } => Receipt::Shaped { kind, page, other },
    }
}

fn seen_from(first: u64, left: u64, at: u64) -> u64
    ensures { result ≡ seen_from first left at }
{
    if at < first {
        u64::MAX
    } else {
        at.saturating_sub(first.saturating_sub(left))
    }
}
