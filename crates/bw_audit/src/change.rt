ghost use Rattle.std.specs.Prelude.{◌≡◌, ◌++◌, OnOk, IfOk};
ghost use Rattle.bw_step.specs.Trails.{lists_of};
ghost use Rattle.bw_audit.specs.Changes.{all_changes, change_of, changes_of};

use crate::verdict::AuditFault;
use bw_keys::Key;
use bw_step::Receipt;
use std::alloc::Global;

/// A change of the map, with the value of the key before and after it. Each kind of receipt of a
/// change is one, so that the rules are the same for all.
#[derive(Clone, Copy, Debug, PartialEq, Eq)]
pub struct Change {
    pub number: u64,
    pub key: Key,
    pub before: Option<u64>,
    pub after: Option<u64>,
}

impl Change {
    /// Returns the change of a receipt, if it is of one.
    pub fn of(receipt: &Receipt) -> Option<Change>
        ensures { result ≡ change_of receipt.now }
    {
        match *receipt {
            Receipt::Inserted { number, key, value } => Some(Change {
                number,
                key,
                before: None,
                after: Some(value),
            }),
            Receipt::Deleted { number, key, value } => Some(Change {
                number,
                key,
                before: Some(value),
                after: None,
            }),
            Receipt::Modified {
                number,
                key,
                old,
                value,
            } => Some(Change {
                number,
                key,
                before: Some(old),
                after: Some(value),
            }),
            Receipt::Looked { .. } | Receipt::Shaped { .. } => None,
        }
    }
}

/// Appends the changes of a trail to the list.
fn gather_trail(changes: &mut Vec<Change>, trail: &[Receipt]) -> Result<(), AuditFault>
    ensures { OnOk result (changes.new.items ≡ changes.old.items ++ changes_of trail.now) }
{
    for receipt in trail {
        if let Some(change) = Change::of(receipt) {
            changes.push(change)?;
        }
    }
    Ok(())
}

/// Returns the changes of all trails, worker by worker.
pub fn gather(machine: Global, trails: &[Vec<Receipt>]) -> Result<Vec<Change>, AuditFault>
    ensures { IfOk result (λ changes. changes.items ≡ all_changes (lists_of trails.now)) }
{
    let mut changes = Vec::new(machine);
    for trail in trails {
        gather_trail(&mut changes, trail.as_slice())?;
    }
    Ok(changes)
}
