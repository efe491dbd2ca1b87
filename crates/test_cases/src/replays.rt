//! Replays that are refused memory.

ghost use Rattle.std.specs.Prelude.{◌≡◌};

use crate::ending::{Ending, Stop, hold};
use bw_audit::{Deed, Event, ReplayFault, Replayed, Verdict, audit, is_ascending, replay};
use bw_delta::Spare;
use bw_keys::{Key, Pid, Version};
use bw_step::{Insert, Receipt, Step};
use std::alloc::Global;
use test_kit::SMALL;

fn insert(worker: u32, key: Key, spare: Spare<Global>) -> Event
    ensures { result.worker ≡ worker }
{
    let step = Insert {
        page: Pid(0),
        seen: Version(0),
        key,
        value: key.saturating_mul(10),
        spare,
    };
    Event {
        worker,
        act: Deed::Step(Step::Insert(step)),
    }
}

fn look(worker: u32, key: Key) -> Event
    ensures { result.worker ≡ worker }
{
    Event {
        worker,
        act: Deed::Look(key),
    }
}

/// Replays two steps that saw the same page, of which the second is stale, and a look between them.
fn replay_events(machine: Global) -> Result<Replayed, Stop> {
    let mut events = Vec::new(machine);
    events.push(insert(0, 5, Spare::new(machine)?))?;
    events.push(look(1, 5))?;
    events.push(insert(1, 6, Spare::new(machine)?))?;
    match replay(machine, SMALL, 2, events) {
        Ok(replayed) => Ok(replayed),
        Err(ReplayFault::NoMemory) => Err(Stop::Memory),
        Err(ReplayFault::BadConfig(_)) => Err(Stop::Broken("memory alone is wanting")),
    }
}

/// The receipts of the first worker, and of the second.
const RECEIPTS: [Receipt; 2] = [
    Receipt::Inserted {
        number: 1,
        key: 5,
        value: 50,
    },
    Receipt::Looked {
        at: 1,
        key: 5,
        found: Some(50),
    },
];

/// The trial of a replay and its audit.
pub(crate) fn replays(machine: Global) -> Result<Ending, Stop> {
    let Replayed { table, trails } = replay_events(machine)?;
    let are_right = match trails.as_slice() {
        [zero, one] => {
            (zero.len(), one.len()) == (1, 1)
                && zero.first() == Some(&RECEIPTS[0])
                && one.first() == Some(&RECEIPTS[1])
        }
        _ => false,
    };
    hold(are_right, "a replay leaves the trails of its events")?;
    let pairs = table.pairs(machine)?;
    if !is_ascending(&pairs) {
        return Err(Stop::Broken("the pairs' keys rise"));
    }
    hold(
        audit(machine, &trails, &pairs)? == Verdict::Yes,
        "the audit says yes",
    )?;
    Ok(Ending::Whole)
}
