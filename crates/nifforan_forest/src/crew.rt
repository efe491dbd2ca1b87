//! The workers of a forest, each in a thread of its own.

ghost use Rattle.std.specs.Prelude.{◌≡◌, ◌+◌, ◌*◌, ◌++◌, ◌≤◌, [], All, IfOk, length, map, vec_capacity};
ghost use Rattle.bw_tree.specs.Shares.{no_changes};
ghost use Rattle.bw_crew.specs.Workers.{ByNumber, share_by};
ghost use Rattle.bw_forest.specs.Bounds.{ranges_of};
ghost use Rattle.nifforan_forest.specs.Workers.{AllReturn, trails_of};

use crate::hand::Divides;
use crate::hands::{Hands, InForest};
use crate::job::ForestJob;
use crate::returned::Returned;
use bw_crew::{CrewFault, Worked, run_all};
use bw_delta::NoMemory;
use bw_forest::Bounds;
use bw_procedures::Trail;
use bw_step::Step;
use bw_tree::{Ordered, Share};
use std::alloc::Global;
use std::sync::Wait;
use std::sync::ledger::Ledger;
use std::thread::Threads;

/// Does the job with each list of shares, one at each tree, side by side, each in a thread of its own.
/// Returns the opening shares with those of all workers behind them, and what else the workers bring
/// back, by their numbers.
///
/// Fails if memory is short before the first thread starts, or if a thread can't be started; the
/// workers that did start do their part to the end.
pub(crate) fn work_all<
    I: Divides + Send + Sync,
    D: Ledger + Send + Sync,
    O: Drop + Send,
    L: Trail + Send,
    S: Ordered<Global, Step<Global>, Insertions = I, Removals = D> + Sync,
    J: ForestJob<Output = O, Trail = L> + Sync,
    R: Threads + Wait + Sync,
>(
    rt: &R,
    machine: Global,
    bounds: &Bounds,
    trees: &[S],
    shares: Vec<Vec<Share<I, D>>>,
    opening: Vec<Share<I, D>>,
    job: &J,
) -> Result<(Vec<Share<I, D>>, Vec<Returned<O, L>>), CrewFault>
    requires divided { bounds.now ≡ I.bounds }
    requires trees { length trees.now ≡ length I.bounds }
    requires placed { map S.range trees.now ≡ ranges_of I.bounds }
    requires few { length shares.items ≤ 64 }
    requires each { All (λ its. length its.items ≡ length I.bounds) shares.items }
    requires new { All (λ its. All (λ share. share ≡ no_changes) its.items) shares.items }
    requires room { length opening.items + length shares.items * length I.bounds
        ≤ vec_capacity opening }
    ensures count { IfOk result (λ all. length all.1.items ≡ length shares.items) }
    ensures shares { IfOk result (λ all.
        all.0.items ≡ opening.items ++ map share_by (trails_of L.added all.1.items)) }
    ensures trails { IfOk result (λ all.
        All (λ it. length it.trails.items ≡ length I.bounds) all.1.items) }
    ensures promised { IfOk result (λ all.
        AllReturn L.added (J.promised job.now) I.bounds all.1.items) }
{
    let workers = Vec::with_capacity(machine, shares.len())?;
    let hands = hands_of(machine, bounds, trees, shares)?;
    let all = run_all(rt, machine, &InForest { job }, hands)?;
    Ok(gather(opening, workers, job, all))
}

/// Makes the hands of a worker for each list of shares.
fn hands_of<'t, I: Divides, S: Ordered<Global, Step<Global>, Insertions = I>, L: Trail>(
    machine: Global,
    bounds: &'t Bounds,
    trees: &'t [S],
    shares: Vec<Vec<Share<I, S::Removals>>>,
) -> Result<Vec<Hands<'t, I, S, L>>, NoMemory>
    requires divided { bounds.now ≡ I.bounds }
    requires trees { length trees.now ≡ length I.bounds }
    requires placed { map S.range trees.now ≡ ranges_of I.bounds }
    requires few { length shares.items ≤ 64 }
    requires each { All (λ its. length its.items ≡ length I.bounds) shares.items }
    requires new { All (λ its. All (λ share. share ≡ no_changes) its.items) shares.items }
    ensures count { IfOk result (λ hands. length hands.items ≡ length shares.items) }
    ensures new { IfOk result (λ hands. ByNumber (λ worker it.
        All (λ hand. hand.seen.trail ≡ []) it.members.items) 0 hands.items) }
{
    let mut hands = Vec::with_capacity(machine, shares.len())?;
    let mut worker = 0u32;
    for its in shares {
        hands.push(Hands::new(machine, bounds, trees, its, worker)?)?;
        worker += 1;
    }
    Ok(hands)
}

/// Puts the shares that the workers bring back behind the opening ones, and all else into the room.
/// Needs no memory, so that nothing done is lost for want of it.
fn gather<
    't,
    I: Divides,
    O: Drop,
    S: Ordered<Global, Step<Global>, Insertions = I>,
    L: Trail,
    J: ForestJob<Output = O, Trail = L>,
>(
    opening: Vec<Share<I, S::Removals>>,
    room: Vec<Returned<O, L>>,
    job: &J,
    all: Vec<Worked<Hands<'t, I, S, L>, O>>,
) -> (Vec<Share<I, S::Removals>>, Vec<Returned<O, L>>)
    requires empty { room.items ≡ [] }
    requires room { length all.items ≤ vec_capacity room }
    requires shares_fit { length opening.items + length all.items * length I.bounds
        ≤ vec_capacity opening }
    requires promised { ByNumber (λ worker worked. J.promised job.now I.bounds worker worked.output
        (map (λ hand. hand.seen.trail) worked.hands.members.items)) 0 all.items }
    ensures count { length result.1.items ≡ length all.entry.items }
    ensures shares { result.0.items
        ≡ opening.items ++ map share_by (trails_of L.added result.1.items) }
    ensures trails { All (λ it. length it.trails.items ≡ length I.bounds) result.1.items }
    ensures promised { AllReturn L.added (J.promised job.now) I.bounds result.1.items }
{
    let (mut shares, mut workers) = (opening, room);
    for worked in all {
        let Worked { hands, output } = worked;
        let trails = hands.finish(&mut shares);
        workers.push_reserved(Returned { output, trails });
    }
    (shares, workers)
}
