//! The acts of a worker of a forest, one after the other.

ghost use Rattle.std.specs.Prelude.{◌≡◌, ◌≤◌, ◌<◌, [], IfOk, IfErr, OnOk, OnErr, length, map, false, vec_capacity};
ghost use Rattle.bw_run.specs.ForestAnswers.{SweepsAct, TellsAct, TellInTurn};
ghost use Rattle.bw_run.specs.Stops.{MayStop};

use crate::answers::Stop;
use crate::progress::Progress;
use bw_procedures::{Act, Fault, Reply};
use nifforan_forest::{ForestHand, ForestWorker};
use std::alloc::Global;

/// Does the acts in their order, until one is given up, appends the reply to each, and counts it.
#[tactic(auto, using(crate::proofs::ForestTold::none_told))]
pub(crate) fn do_acts<H: ForestHand>(
    machine: Global,
    forest: &mut ForestWorker<'_, H>,
    acts: &[Act],
    replies: &mut Vec<Reply>,
    progress: &Progress,
) -> Result<(), Stop>
    requires empty { replies.old.items ≡ [] }
    requires room { length acts.now ≤ vec_capacity replies.old }
    ensures told { OnOk result (TellInTurn H.bounds acts.now replies.new.items
        (map (λ hand. (H.seen hand).trail) forest.old.hands.items)
        (map (λ hand. (H.seen hand).trail) forest.new.hands.items)) }
    ensures all { OnOk result (length replies.new.items ≡ length acts.now) }
    ensures stopped { OnErr result (length replies.new.items < length acts.now) }
    ensures stop { IfErr result (MayStop false) }
{
    for act in acts {
        let reply = do_act(machine, forest, *act)?;
        replies.push_reserved(reply);
        progress.count(replies.len(), &reply);
    }
    Ok(())
}

/// Does the act by the forest's calls, and returns its reply. The reply to a removal of a range has
/// its fault, so that act never fails.
fn do_act<H: ForestHand>(
    machine: Global,
    forest: &mut ForestWorker<'_, H>,
    act: Act,
) -> Result<Reply, Fault>
    ensures told { IfOk result (λ reply. TellsAct H.bounds act reply
        (map (λ hand. (H.seen hand).trail) forest.old.hands.items)
        (map (λ hand. (H.seen hand).trail) forest.new.hands.items)) }
    ensures swept { IfOk result (λ reply. SweepsAct H.bounds H.seen H.follows H.shows act reply
        forest.old.hands.items forest.new.hands.items) }
{
    match act {
        Act::Put { key, value } => Ok(Reply::Put(forest.put(key, value)?)),
        Act::Set { key, value } => Ok(Reply::Set(forest.set(key, value)?)),
        Act::Delete { key } => Ok(Reply::Delete(forest.delete(key)?)),
        Act::Get { key } => Ok(Reply::Get(forest.get(key)?)),
        Act::Clear { low, high } => Ok(Reply::Clear(forest.clear(machine, low, high))),
    }
}
