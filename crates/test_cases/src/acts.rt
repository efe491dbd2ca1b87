//! What a worker does beside a plain map.

use crate::ending::{Deviation, Ending};
use crate::plain::{KEYS, Plain};
use bw_keys::Fence;
use bw_step::Step;
use bw_work::{Act, Fault, Reply, Steps, do_act};
use std::alloc::Global;

/// A worker of a tree, or of a forest.
pub(crate) trait Acting {
    /// Does the act, with copies of leaves in the machine's memory, and returns its reply.
    fn act(&mut self, machine: Global, act: Act) -> Result<Reply, Fault>;
}

impl<S: Steps<Global, Step<Global>>> Acting for S {
    fn act(&mut self, machine: Global, act: Act) -> Result<Reply, Fault> {
        do_act(self, machine, act)
    }
}

/// The acts of each worker of a trial. The puts split a leaf twice, and the deletes merge one. The
/// range that is removed twice may be left in part by the first removal. The last puts split a leaf again.
pub(crate) const ACTS: [Act; 23] = [
    Act::Put { key: 1, value: 1 },
    Act::Put { key: 2, value: 2 },
    Act::Put { key: 3, value: 3 },
    Act::Put { key: 4, value: 4 },
    Act::Put { key: 5, value: 5 },
    Act::Put { key: 6, value: 6 },
    Act::Put { key: 7, value: 7 },
    Act::Get { key: 4 },
    Act::Delete { key: 3 },
    Act::Delete { key: 4 },
    Act::Get { key: 4 },
    Act::Set { key: 5, value: 50 },
    Act::Set { key: 8, value: 80 },
    Act::Put { key: 1, value: 10 },
    Act::Delete { key: 9 },
    Act::Clear {
        low: 2,
        high: Fence::Key(7),
    },
    Act::Clear {
        low: 2,
        high: Fence::Key(7),
    },
    Act::Put { key: 10, value: 10 },
    Act::Put { key: 11, value: 11 },
    Act::Put { key: 12, value: 12 },
    Act::Put { key: 13, value: 13 },
    Act::Put { key: 14, value: 14 },
    Act::Get { key: 0 },
];

/// Fails unless each key has for the worker what it has in the plain map.
fn see_all<W: Acting>(worker: &mut W, machine: Global, plain: &Plain) -> Result<(), Deviation> {
    for key in 0..KEYS as u64 {
        if worker.act(machine, Act::Get { key }) != Ok(Reply::Get(plain.get(key))) {
            return Err(Deviation::Pairs);
        }
    }
    Ok(())
}

/// Does the act. If memory was refused, checks the pairs, and if it was refused whole, does it
/// again.
fn act_once<W: Acting>(
    worker: &mut W,
    machine: Global,
    act: Act,
    plain: &mut Plain,
) -> Result<Ending, Deviation> {
    match worker.act(machine, act) {
        Ok(reply) => {
            let ending = plain.take(act, reply)?;
            if matches!(ending, Ending::Refused) {
                see_all(worker, machine, plain)?;
            }
            Ok(ending)
        }
        Err(Fault::NoMemory) => {
            see_all(worker, machine, plain)?;
            act_again(worker, machine, act, plain)
        }
        Err(_) => Err(Deviation::Fault),
    }
}

/// Does once more an act that was refused.
fn act_again<W: Acting>(
    worker: &mut W,
    machine: Global,
    act: Act,
    plain: &mut Plain,
) -> Result<Ending, Deviation> {
    let Ok(reply) = worker.act(machine, act) else {
        return Err(Deviation::Refusal);
    };
    match plain.take(act, reply)? {
        Ending::Whole => Ok(Ending::Refused),
        Ending::Refused => Err(Deviation::Refusal),
    }
}

/// Does the acts.
pub(crate) fn act_all<W: Acting>(
    worker: &mut W,
    machine: Global,
    acts: &[Act],
    plain: &mut Plain,
) -> Result<Ending, Deviation> {
    let mut ending = Ending::Whole;
    for act in acts {
        ending = ending.and(act_once(worker, machine, *act, plain)?);
    }
    Ok(ending)
}
