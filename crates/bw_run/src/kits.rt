//! What each worker of a run is given.

ghost use Rattle.std.specs.Prelude.{◌≡◌, ◌<◌, ◌≤◌, [], IfOk, length, map, vec_len, vec_capacity};
ghost use Rattle.std.specs.List.{AllByRecursion};
ghost use Rattle.bw_crew.specs.Workers.{ByNumber};
ghost use Rattle.bw_run.specs.Reads.{handed_out};
ghost use Rattle.bw_run.specs.Rows.{acts_of};

use crate::plan::share_out;
use bw_delta::NoMemory;
use bw_procedures::{Act, Reply};
use bw_texts::Row;
use std::alloc::Global;

/// A worker's acts, room for its replies to them, and its reader, if it has one.
#[derive(Drop)]
pub(crate) struct Kit<L> {
    pub acts: Vec<Act>,
    pub replies: Vec<Reply>,
    pub reader: Option<L>,
    ghost empty: { replies.items ≡ [] },
    ghost room: { vec_len acts ≤ vec_capacity replies },
}

/// Returns a kit for each worker, with the acts of its rows. The first readers go to the first
/// workers.
pub(crate) fn kits_for<L: Drop>(
    machine: Global,
    workers: u32,
    rows: &[Row],
    readers: Vec<L>,
) -> Result<Vec<Kit<L>>, NoMemory>
    requires { AllByRecursion (λ row. row.worker < workers) rows.now }
    ensures count { IfOk result (λ kits. length kits.items ≡ workers) }
    ensures acts { IfOk result (λ kits.
        ByNumber (λ worker kit. kit.acts.items ≡ acts_of worker rows.now) 0 kits.items) }
    ensures readers { IfOk result (λ kits.
        map (λ kit. kit.reader) kits.items ≡ handed_out workers readers.items) }
{
    let plan = share_out(machine, workers, rows)?;
    kits_of(machine, plan, readers)
}

/// Returns a kit for each list of acts.
fn kits_of<L: Drop>(
    machine: Global,
    plan: Vec<Vec<Act>>,
    readers: Vec<L>,
) -> Result<Vec<Kit<L>>, NoMemory>
    ensures acts { IfOk result (λ kits.
        map (λ kit. kit.acts.items) kits.items ≡ map (λ acts. acts.items) plan.items) }
    ensures readers { IfOk result (λ kits.
        map (λ kit. kit.reader) kits.items ≡ handed_out (length plan.items) readers.items) }
{
    let mut left = readers.into_iter();
    let mut kits = Vec::with_capacity(machine, plan.len())?;
    for acts in plan {
        let replies = Vec::with_capacity(machine, acts.len())?;
        kits.push(Kit {
            acts,
            replies,
            reader: left.next(),
        })?;
    }
    Ok(kits)
}
