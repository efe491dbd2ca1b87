//! A worker's acts, one after the other.

ghost use Rattle.std.specs.Prelude.{◌≡◌, ◌≤◌, ◌<◌, [], IfOk, IfErr, OnOk, OnErr, length, vec_capacity};
ghost use Rattle.bw_step.specs.Tellings.{reported_in};
ghost use Rattle.bw_procedures.specs.Reported.{AddsReported, GoWith};
ghost use Rattle.bw_run.specs.Reads.{IsReadByOwn};
ghost use Rattle.bw_run.specs.Stops.{MayStop};

use crate::answers::Stop;
use crate::looks::Looks;
use crate::progress::Progress;
use bw_procedures::{Act, Reply, do_act};
use nifforan_shared::Notes;

/// Does the acts in their order, until one is given up, appends the reply to each, and counts it. The
/// worker looks keys up by its reader, if it has one.
#[tactic(auto, using(crate::proofs::Receipts::none_done))]
pub(crate) fn do_acts<W: Notes, L: Looks>(
    hand: &mut W,
    reader: &mut Option<L>,
    acts: &[Act],
    replies: &mut Vec<Reply>,
    progress: &Progress,
) -> Result<(), Stop>
    requires new { (W.seen hand.old).trail ≡ [] }
    requires empty { replies.old.items ≡ [] }
    requires room { length acts.now ≤ vec_capacity replies.old }
    ensures reported { GoWith acts.now replies.new.items (reported_in (W.seen hand.new).trail) }
    ensures all { OnOk result (length replies.new.items ≡ length acts.now) }
    ensures stopped { OnErr result (length replies.new.items < length acts.now) }
    ensures stop { IfErr result (MayStop L.may_close) }
{
    for act in acts {
        let reply = do_row(hand, reader, *act)?;
        replies.push_reserved(reply);
        progress.count(replies.len(), &reply);
    }
    Ok(())
}

/// Does a row: a look by the reader, if there is one, and everything else by the hand.
fn do_row<W: Notes, L: Looks>(hand: &mut W, reader: &mut Option<L>, act: Act) -> Result<Reply, Stop>
    ensures reported { IfOk result (λ reply.
        AddsReported act reply (W.seen hand.old).trail (W.seen hand.new).trail) }
    ensures nothing { OnErr result
        (reported_in (W.seen hand.new).trail ≡ reported_in (W.seen hand.old).trail) }
    ensures read { IfOk result
        (IsReadByOwn L.finds reader.new act (W.seen hand.old).trail (W.seen hand.new).trail) }
    ensures stop { IfErr result (MayStop L.may_close) }
{
    let machine = hand.alloc();
    match act {
        Act::Get { key } => match L::look_by(reader, key)? {
            Some(found) => {
                // a reader's look is kept as a receipt
                hand.note(key, found.look)?;
                Ok(Reply::Get(found.look.found))
            }
            None => Ok(do_act(hand, machine, act)?),
        },
        // A reader answers gets alone.
        act => Ok(do_act(hand, machine, act)?),
    }
}
