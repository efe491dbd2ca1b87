//! What makes a receipt bad, and the first bad one.

ghost use Rattle.std.specs.Prelude.{◌≡◌, ◌+◌, ◌≤◌, IfNone, length};
ghost use Rattle.bw_step.specs.Tellings.{telling_of};
ghost use Rattle.bw_step.specs.Trails.{lists_of};
ghost use Rattle.bw_audit.specs.Changes.{all_changes, changes_of};
ghost use Rattle.bw_audit.specs.Legal.{position_after, rises_from};
ghost use Rattle.bw_audit.specs.Verdicts.{first_bad, first_fault, is_bad, is_bad_change, is_bad_look, is_misnumbered};

use crate::change::Change;
use crate::index::Index;
use bw_keys::Key;
use bw_step::Receipt;

/// Returns whether a receipt may follow the position: a change above it, a look not below it.
fn does_rise(last: u64, receipt: &Receipt) -> bool
    ensures { result ≡ rises_from last (telling_of receipt.now) }
{
    match *receipt {
        Receipt::Inserted { number, .. }
        | Receipt::Deleted { number, .. }
        | Receipt::Modified { number, .. } => last < number,
        Receipt::Looked { at, .. } => last <= at,
        Receipt::Shaped { .. } => true,
    }
}

/// Returns the position after the receipt.
fn moved_on(last: u64, receipt: &Receipt) -> u64
    ensures { result ≡ position_after last (telling_of receipt.now) }
{
    match *receipt {
        Receipt::Inserted { number, .. }
        | Receipt::Deleted { number, .. }
        | Receipt::Modified { number, .. } => number,
        Receipt::Looked { at, .. } => at,
        Receipt::Shaped { .. } => last,
    }
}

fn is_bad_change(index: &Index, before: usize, change: &Change) -> bool
    ensures { result ≡ is_bad_change index.now before change.now }
{
    if index.is_misnumbered(before, change.number) {
        return true;
    }
    index.value_after(change.number - 1, change.key) != change.before
}

fn is_bad_look(index: &Index, at: u64, key: Key, found: Option<u64>) -> bool
    ensures { result ≡ is_bad_look index.now at key found }
{
    index.count() < at || index.value_after(at, key) != found
}

fn is_bad(index: &Index, before: usize, last: u64, receipt: &Receipt) -> bool
    ensures { result ≡ is_bad index.now before last (telling_of receipt.now) }
{
    if !does_rise(last, receipt) {
        return true;
    }
    if let Some(change) = Change::of(receipt) {
        return is_bad_change(index, before, &change);
    }
    match *receipt {
        Receipt::Looked { at, key, found } => is_bad_look(index, at, key, found),
        _ => false,
    }
}

/// Returns the place of the first bad receipt of a trail. If there is none, adds the number of the
/// trail's changes to `before`.
fn first_bad(index: &Index, before: &mut usize, trail: &[Receipt]) -> Option<usize>
    requires { before.old + length (changes_of trail.now) ≤ length index.now }
    ensures place { result ≡ first_bad index.now before.old 0 0 trail.now }
    ensures passed { IfNone result (before.new ≡ before.old + length (changes_of trail.now)) }
{
    // The call shows the prover that the number of changes fits its type.
    let _ = index.count();
    let mut last = 0;
    for (place, receipt) in trail.iter().enumerate() {
        if is_bad(index, *before, last, receipt) {
            return Some(place);
        }
        if Change::of(receipt).is_some() {
            *before += 1;
        }
        last = moved_on(last, receipt);
    }
    None
}

/// Returns the worker and the place of the first bad receipt.
pub fn first_fault(index: &Index, trails: &[Vec<Receipt>]) -> Option<(usize, usize)>
    requires { length (all_changes (lists_of trails.now)) ≤ length index.now }
    ensures { result ≡ first_fault index.now 0 0 (lists_of trails.now) }
{
    let mut before = 0;
    for (worker, trail) in trails.iter().enumerate() {
        if let Some(place) = first_bad(index, &mut before, trail.as_slice()) {
            return Some((worker, place));
        }
    }
    None
}
