ghost use Rattle.std.specs.Prelude.{◌≡◌, ◌<◌, None, IsOk, IfOk, IfErr, OnOk, length, replicate, ◌∷◌, []};
ghost use Rattle.std.specs.List.{AllByRecursion};
ghost use Rattle.bw_keys.specs.Limits.{first_bad_field};
ghost use Rattle.bw_step.specs.Trails.{lists_of};
ghost use Rattle.bw_law.specs.Tables.{Lawful};
ghost use Rattle.bw_audit.specs.Events.{turn_of, world_left, world_of, IsReplayFault, Replays};
ghost use Rattle.bw_audit.specs.Explained.{Explains};
ghost use Rattle.bw_audit.specs.Replays.{add_receipts, first_world, world_on, HasLegalHistory, IsLookAt, LeadsTo};

use crate::event::{Deed, Event};
use bw_delta::NoMemory;
use bw_keys::{BadConfig, Config, Key};
use bw_step::Receipt;
use bw_table::{NewFault, Table};
use std::alloc::Global;
use thiserror::Error;

/// What a replay leaves.
#[derive(Drop)]
pub struct Replayed {
    pub table: Table<Global>,
    /// Each worker's receipts, in the order of its events.
    pub trails: Vec<Vec<Receipt>>,
}

/// Why events aren't replayed.
#[derive(Clone, Copy, Debug, PartialEq, Eq, Error)]
pub enum ReplayFault {
    /// A field of the configuration is out of its range.
    #[error("{0}")]
    BadConfig(BadConfig),
    #[error("out of memory")]
    NoMemory,
}

/// Replays the events in turn on a new table. An accepted step adds its receipt to the trail of its
/// worker, a refused one changes nothing, and a look adds what it saw.
///
/// # Errors
///
/// Fails with [`ReplayFault::BadConfig`] if a field of `config` is out of its range, and with
/// [`ReplayFault::NoMemory`] if memory runs out.
pub fn replay(
    machine: Global,
    config: Config,
    workers: u32,
    events: Vec<Event>,
) -> Result<Replayed, ReplayFault>
    requires workers { AllByRecursion (λ event. event.worker < workers) events.items }
    ensures interleaved { IfOk result (Replays (first_world config workers) events.items) }
    ensures legal { IfOk result (λ replayed. HasLegalHistory (world_left replayed)) }
    ensures fine { IsOk result → first_bad_field config ≡ None }
    ensures fault { IfErr result (IsReplayFault config) }
{
    // Reading the first version shows the prover that it fits its type.
    let _version = config.first_version;
    match Table::new(machine, machine, config) {
        Ok(table) => match take_turns(machine, table, workers, events) {
            Ok(replayed) => Ok(replayed),
            Err(NoMemory) => Err(ReplayFault::NoMemory),
        },
        Err(NewFault::BadConfig(bad)) => Err(ReplayFault::BadConfig(bad)),
        Err(NewFault::NoMemory) => Err(ReplayFault::NoMemory),
    }
}

/// Replays the events in turn on a new table.
fn take_turns(
    machine: Global,
    mut table: Table<Global>,
    workers: u32,
    events: Vec<Event>,
) -> Result<Replayed, NoMemory>
    requires explained { Explains table (replicate workers []) }
    requires workers { AllByRecursion (λ event. event.worker < workers) events.items }
    ensures interleaved { IfOk result (Replays (world_on table workers) events.items) }
    ensures explained { IfOk result (λ left. Explains left.table (lists_of left.trails.items)) }
{
    let mut trails = empty_trails(machine, workers)?;
    for event in events {
        take_turn(&mut table, &mut trails, event)?;
    }
    Ok(Replayed { table, trails })
}

/// Returns an empty trail for each worker.
fn empty_trails(machine: Global, workers: u32) -> Result<Vec<Vec<Receipt>>, NoMemory>
    ensures { IfOk result (λ trails. lists_of trails.items ≡ replicate workers []) }
{
    let mut trails = Vec::with_capacity(machine, workers as usize)?;
    for _ in 0..workers {
        trails.push(Vec::new(machine))?;
    }
    Ok(trails)
}

/// Replays one event, and adds its receipt to the trail of its worker.
fn take_turn(
    table: &mut Table<Global>,
    trails: &mut Vec<Vec<Receipt>>,
    event: Event,
) -> Result<(), NoMemory>
    requires lawful { Lawful table.old }
    requires worker { event.worker < length trails.old.items }
    ensures { OnOk result (LeadsTo (world_of table.old (lists_of trails.old.items))
        (turn_of event) (world_of table.new (lists_of trails.new.items))) }
{
    let Event { worker, act } = event;
    match act {
        Deed::Step(step) => {
            if let Ok(receipt) = table.install(step) {
                add_receipt(trails, worker, receipt)?;
            }
        }
        Deed::Look(key) => add_receipt(trails, worker, look(table, key))?,
    }
    Ok(())
}

/// Looks at the key, and returns the receipt.
fn look(table: &Table<Global>, key: Key) -> Receipt
    requires lawful { Lawful table.now }
    ensures { IsLookAt table.now key result }
{
    match table.look(table.locate(key), key) {
        Some(look) => Receipt::Looked {
            at: look.at,
            key,
            found: look.found,
        },
        None => unreachable!(),
    }
}

/// Adds the receipt to the worker's trail.
fn add_receipt(
    trails: &mut Vec<Vec<Receipt>>,
    worker: u32,
    receipt: Receipt,
) -> Result<(), NoMemory>
    requires { worker < length trails.old.items }
    ensures { OnOk result (lists_of trails.new.items
        ≡ add_receipts (lists_of trails.old.items) worker (receipt ∷ [])) }
{
    trails[worker as usize].push(receipt)?;
    Ok(())
}
