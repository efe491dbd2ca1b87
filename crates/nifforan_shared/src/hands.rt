//! The workers of a crew on one tree, each with a hand of its own, and what they bring back.

ghost use Rattle.std.specs.Prelude.{◌≡◌, ◌<◌, ◌≤◌, [], IfOk, All, length, map, vec_capacity};
ghost use Rattle.bw_tree.specs.Shares.{no_changes};
ghost use Rattle.bw_crew.specs.Workers.{AllAsPromised, ByNumber, share_by};

use crate::task::Task;
use bw_crew::{CrewFault, Member, Notes, Part, Worked, run_all};
use bw_delta::NoMemory;
use bw_procedures::{Steps, Trail};
use bw_step::{Receipt, Step};
use bw_tree::{Ordered, Share};
use bw_work::Gate;
use std::alloc::Global;
use std::sync::Wait;
use std::sync::ledger::Ledger;
use std::thread::Threads;

/// What a worker begins with: a hand that has taken no step, and its kit.
#[derive(Drop)]
struct Seat<W: Steps<Global, Step<Global>>, K> {
    hands: W,
    kit: K,
    ghost new: { (W.seen hands).trail ≡ [] },
}

/// A task that workers share.
#[derive(Drop)]
struct Shared<'t, J> {
    task: &'t J,
}

impl<'t, W: Notes + Drop, K: Drop, O: Drop, J: Task<K, Output = O>> Part<Seat<W, K>>
    for Shared<'t, J> {
    type Output = Worked<W, O>;

    ghost given = { λ part worker seat. J.given part.task.now worker seat.kit };

    ghost promised = { λ part worker worked.
        J.promised part.task.now worker worked.output (W.seen worked.hands).trail };

    fn run(&self, worker: u32, seat: Seat<W, K>) -> Worked<W, O> {
        let Seat { mut hands, kit } = seat;
        let output = self.task.run(worker, &mut hands, kit);
        Worked { hands, output }
    }
}

/// The workers' shares, trails and outputs, by the workers' numbers.
#[derive(Drop)]
pub struct Gathered<I: Ledger, D: Ledger, O, L: Trail = Vec<Receipt>> {
    pub shares: Vec<Share<I, D>>,
    pub trails: Vec<L>,
    pub outputs: Vec<O>,
    ghost trailed: { length trails.items ≡ length shares.items },
    ghost answered: { length outputs.items ≡ length shares.items },
    ghost counted: { shares.items ≡ map (λ trail. share_by (L.added trail)) trails.items },
}

impl<I: Ledger, D: Ledger, O: Drop, L: Trail> Gathered<I, D, O, L> {
    /// Makes room for what `workers` workers bring back, and for one more share.
    pub fn with_room(machine: Global, workers: usize) -> Result<Gathered<I, D, O, L>, NoMemory>
        requires few { workers ≤ 64 }
        ensures empty { IfOk result (λ room. room.shares.items ≡ []) }
        ensures shares { IfOk result (λ room. workers < vec_capacity room.shares) }
        ensures trails { IfOk result (λ room. workers ≤ vec_capacity room.trails) }
        ensures outputs { IfOk result (λ room. workers ≤ vec_capacity room.outputs) }
    {
        Ok(Gathered {
            shares: Vec::with_capacity(machine, workers + 1)?,
            trails: Vec::with_capacity(machine, workers)?,
            outputs: Vec::with_capacity(machine, workers)?,
        })
    }
}

/// Does the task with each share and each kit side by side, each in a thread of its own, and
/// gathers what the workers bring back, by the workers' numbers. The worker with number `i` has the
/// kit at `i`, and calls the gate after each of its steps that changes the tree's shape.
///
/// Fails if memory is short before the first thread starts, or if a thread can't be started; those
/// that did start do their part to the end. Leaves room for one more share.
pub fn work_all<
    I: Ledger + Send + Sync,
    D: Ledger + Send + Sync,
    K: Drop + Send,
    O: Drop + Send,
    L: Trail + Send,
    T: Ordered<Global, Step<Global>, Insertions = I, Removals = D> + Sync,
    G: Gate + Sync,
    J: Task<K, Output = O, Trail = L> + Sync,
    R: Threads + Wait + Sync,
>(
    rt: &R,
    machine: Global,
    tree: &T,
    gate: &G,
    task: &J,
    shares: Vec<Share<I, D>>,
    kits: Vec<K>,
) -> Result<Gathered<I, D, O, L>, CrewFault>
    requires few { length kits.items ≤ 64 }
    requires shares { length shares.items ≡ length kits.items }
    requires new { All (λ share. share ≡ no_changes) shares.items }
    requires given { ByNumber (J.given task.now) 0 kits.items }
    ensures count { IfOk result (λ all. length all.shares.items ≡ length kits.items) }
    ensures spare { IfOk result (λ all. length kits.items < vec_capacity all.shares) }
    ensures promised { IfOk result (λ all.
        AllAsPromised L.added (J.promised task.now) all.outputs.items all.trails.items) }
{
    let room = Gathered::with_room(machine, kits.len())?;
    let seats = seats_of(machine, tree, gate, shares, kits)?;
    let worked = run_all(rt, machine, &Shared { task }, seats)?;
    Ok(gather(room, worked))
}

/// Returns a seat for each kit.
fn seats_of<'t, K: Drop, L: Trail, T: Ordered<Global, Step<Global>>, G: Gate>(
    machine: Global,
    tree: &'t T,
    gate: &'t G,
    shares: Vec<Share<T::Insertions, T::Removals>>,
    kits: Vec<K>,
) -> Result<Vec<Seat<Member<'t, T, G, L>, K>>, NoMemory>
    requires few { length kits.items ≤ 64 }
    requires shares { length shares.items ≡ length kits.items }
    requires new { All (λ share. share ≡ no_changes) shares.items }
    ensures count { IfOk result (λ seats. length seats.items ≡ length kits.items) }
    ensures kits { IfOk result (λ seats. map (λ seat. seat.kit) seats.items ≡ kits.items) }
{
    let mut shares = shares;
    let mut seats = Vec::with_capacity(machine, kits.len())?;
    let mut worker = 0u32;
    for kit in kits {
        let Some(share) = shares.pop() else {
            unreachable!()
        };
        let hands = Member::new(machine, tree, share, worker, gate);
        seats.push(Seat { hands, kit })?;
        worker += 1;
    }
    Ok(seats)
}

/// Sorts what the workers bring back into the room. Needs no memory, so that nothing done is lost
/// for want of it.
fn gather<'t, O: Drop, L: Trail, T: Ordered<Global, Step<Global>>, G: Gate>(
    room: Gathered<T::Insertions, T::Removals, O, L>,
    all: Vec<Worked<Member<'t, T, G, L>, O>>,
) -> Gathered<T::Insertions, T::Removals, O, L>
    requires empty { room.shares.items ≡ [] }
    requires shares { length all.items < vec_capacity room.shares }
    requires trails { length all.items ≤ vec_capacity room.trails }
    requires outputs { length all.items ≤ vec_capacity room.outputs }
    ensures count { length result.shares.items ≡ length all.entry.items }
    ensures spare { length all.entry.items < vec_capacity result.shares }
    ensures trails { map L.added result.trails.items
        ≡ map (λ worked. worked.hands.seen.trail) all.entry.items }
    ensures outputs { result.outputs.items ≡ map (λ worked. worked.output) all.entry.items }
{
    let Gathered {
        mut shares,
        mut trails,
        mut outputs,
    } = room;
    for worked in all {
        let Worked { hands, output } = worked;
        let (share, trail) = hands.finish();
        shares.push_reserved(share);
        trails.push_reserved(trail);
        outputs.push_reserved(output);
    }
    Gathered {
        shares,
        trails,
        outputs,
    }
}
