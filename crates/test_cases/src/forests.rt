//! Workers that share a forest and are refused memory.

use crate::acts::{ACTS, Acting, act_all};
use crate::ending::{Ending, Stop, hold};
use crate::plain::Plain;
use crate::workers::{audited, no_opening};
use bw_audit::Opening;
use bw_keys::Key;
use bw_step::Receipt;
use bw_work::{Act, Fault, Reply};
use nifforan_forest::{
    BadTables, Bounds, ClosedForest, ForestHand, ForestJob, ForestOutcome, ForestWorker, Returned,
    ShareForestFault, share_closed_forest, share_forest,
};
use std::alloc::Global;
use std::mem::replace;
use std::sync::Wait;
use std::sync::atomic::{AtomicU32, Ordering};
use std::thread::Threads;
use test_kit::SMALL;

/// Where the trees begin. The range that is cleared goes over two of them.
const LOWS: [Key; 3] = [0, 6, 16];

/// A worker of a forest, whose acts are those of a tree's worker.
#[derive(Drop)]
struct Across<'f, 'b, H: ForestHand> {
    forest: &'f mut ForestWorker<'b, H>,
}

impl<'f, 'b, H: ForestHand> Acting for Across<'f, 'b, H> {
    fn act(&mut self, machine: Global, act: Act) -> Result<Reply, Fault> {
        Ok(match act {
            Act::Put { key, value } => Reply::Put(self.forest.put(key, value)?),
            Act::Set { key, value } => Reply::Set(self.forest.set(key, value)?),
            Act::Delete { key } => Reply::Delete(self.forest.delete(key)?),
            Act::Get { key } => Reply::Get(self.forest.get(key)?),
            Act::Clear { low, high } => Reply::Clear(self.forest.clear(machine, low, high)),
        })
    }
}

/// What a worker leaves, and how it ended.
type Left = Result<(Plain, Ending), Stop>;

type Outcome = ForestOutcome<Left, Vec<Receipt>>;

/// The first worker's acts, and a scan of what they leave. A second one only looks on, so that as much memory is
/// requested whatever the order in which they come.
#[derive(Drop)]
struct Trial {
    machine: Global,
    /// What the first worker finds.
    found: Plain,
    begun: AtomicU32,
}

impl ForestJob for Trial {
    type Output = Left;

    type Trail = Vec<Receipt>;

    fn work<H: ForestHand>(&self, worker: u32, forest: &mut ForestWorker<'_, H>) -> Left {
        self.begun.fetch_add(1, Ordering::SeqCst);
        let mut plain = self.found;
        if worker > 0 {
            return Ok((plain, Ending::Whole));
        }
        let mut across = Across {
            forest: &mut *forest,
        };
        let acted = act_all(&mut across, self.machine, &ACTS, &mut plain)?;
        let scanned = scan(self.machine, forest, &plain)?;
        Ok((plain, acted.and(scanned)))
    }
}

/// Scans all keys. If memory was refused, the list has the first of the pairs, and a further
/// scan has all of them.
fn scan<H: ForestHand>(
    machine: Global,
    forest: &mut ForestWorker<'_, H>,
    plain: &Plain,
) -> Result<Ending, Stop> {
    let mut list = Vec::new(machine);
    let mut ending = Ending::Whole;
    if let Err(fault) = forest.scan(0, plain.len(), &mut list) {
        hold(fault == Fault::NoMemory, "memory alone is wanting")?;
        let first = replace(&mut list, Vec::new(machine));
        let again = forest.scan(0, plain.len(), &mut list);
        hold(again.is_ok(), "memory is refused once")?;
        hold(
            list.starts_with(first.as_slice()),
            "a refused scan lists the first pairs",
        )?;
        ending = Ending::Refused;
    }
    hold(plain.has(&list), "a scan lists all pairs")?;
    Ok(ending)
}

impl Trial {
    fn new(machine: Global, found: Plain) -> Trial {
        Trial {
            machine,
            found,
            begun: AtomicU32::new(0),
        }
    }

    /// Fails unless memory was wanting, and that before each worker had begun.
    fn see_fault(&self, fault: ShareForestFault, workers: u32) -> Result<(), Stop> {
        hold(
            matches!(
                fault,
                ShareForestFault::NoMemory
                    | ShareForestFault::NoMemoryForWorkers
                    | ShareForestFault::NoThread
            ),
            "memory alone is wanting",
        )?;
        hold(
            self.begun.load(Ordering::SeqCst) < workers,
            "a sharing fails only where a worker couldn't begin",
        )
    }

    /// Shares a new forest.
    fn share<R: Threads + Wait + Sync + Send + Copy>(
        &self,
        rt: R,
        workers: u32,
    ) -> Result<Outcome, Stop> {
        let mut lows = Vec::new(self.machine);
        lows.extend_from_slice(&LOWS)?;
        let Ok(bounds) = Bounds::of(lows) else {
            return Err(Stop::Broken("the trees' ranges part the keys"));
        };
        match share_forest(rt, self.machine, bounds, SMALL, workers, self) {
            Ok(outcome) => Ok(outcome),
            Err(fault) => {
                self.see_fault(fault, workers)?;
                Err(Stop::Memory)
            }
        }
    }

    /// Shares a closed forest with one worker. If memory was refused, the forest comes back as it was,
    /// and is shared then.
    fn share_closed<R: Threads + Wait + Sync + Send + Copy>(
        &self,
        rt: R,
        forest: ClosedForest<Global>,
    ) -> Result<(Outcome, Ending), Stop> {
        let unshared = match share_closed_forest(rt, self.machine, forest, 1, self) {
            Ok(outcome) => return Ok((outcome, Ending::Whole)),
            Err(unshared) => unshared,
        };
        self.see_fault(unshared.fault, 1)?;
        let Ok(forest) = unshared.forest else {
            return Err(Stop::Broken("a forest that isn't shared comes back"));
        };
        hold(
            self.found.has(&forest.pairs(self.machine)?),
            "a forest that isn't shared is as it was",
        )?;
        match share_closed_forest(rt, self.machine, forest, 1, self) {
            Ok(outcome) => Ok((outcome, Ending::Refused)),
            Err(_) => Err(Stop::Broken("memory is refused once")),
        }
    }
}

/// Takes the forest apart, and makes a forest of its tables again. If memory was refused, the tables
/// come back, and make one then.
fn reclose(
    machine: Global,
    forest: ClosedForest<Global>,
) -> Result<(ClosedForest<Global>, Ending), Stop> {
    let (bounds, trees) = forest.into_parts();
    let mut tables = Vec::with_capacity(machine, trees.len())?;
    for tree in trees {
        tables.push(tree.into_table())?;
    }
    let unclosed = match ClosedForest::of(machine, bounds, tables) {
        Ok(forest) => return Ok((forest, Ending::Whole)),
        Err(unclosed) => unclosed,
    };
    hold(
        unclosed.fault == BadTables::NoMemory,
        "memory alone is wanting",
    )?;
    match ClosedForest::of(machine, unclosed.bounds, unclosed.tables) {
        Ok(forest) => Ok((forest, Ending::Refused)),
        Err(_) => Err(Stop::Broken("memory is refused once")),
    }
}

/// Fails unless the forest has the pairs of the first worker's map. Returns how that worker ended.
fn see_pairs(
    machine: Global,
    forest: &ClosedForest<Global>,
    workers: &[Returned<Left, Vec<Receipt>>],
) -> Result<Ending, Stop> {
    let Some(first) = workers.first() else {
        return Err(Stop::Broken("a forest has its worker"));
    };
    let (plain, ending) = first.output?;
    let pairs = forest.pairs(machine)?;
    hold(plain.has(&pairs), "the pairs are the script's")?;
    Ok(ending)
}

/// Takes each worker's trail at the last tree of which it has one.
fn last_trails(
    machine: Global,
    workers: &mut [Returned<Left, Vec<Receipt>>],
) -> Result<Vec<Vec<Receipt>>, Stop> {
    let mut trails = Vec::new(machine);
    for worker in workers {
        if let Some(trail) = worker.trails.pop() {
            trails.push(trail)?;
        }
    }
    Ok(trails)
}

/// Fails unless the trees, which were opened so, have the pairs of the first worker's map, and the audit explains the
/// trails at each tree. Returns how that worker ended.
fn judge(machine: Global, openings: Vec<Opening>, outcome: Outcome) -> Result<Ending, Stop> {
    let mut openings = openings;
    let ForestOutcome {
        forest,
        mut workers,
    } = outcome;
    let ending = see_pairs(machine, &forest, &workers)?;
    for tree in forest.trees().iter().rev() {
        let trails = last_trails(machine, &mut workers)?;
        let opening = match openings.pop() {
            Some(opening) => opening,
            None => no_opening(machine),
        };
        audited(machine, &opening, tree.table(), &trails)?;
    }
    Ok(ending)
}

/// The trial of two workers.
pub(crate) fn forest_of_two<R: Threads + Wait + Sync + Send + Copy>(
    rt: R,
    machine: Global,
) -> Result<Ending, Stop> {
    judge(
        machine,
        Vec::new(machine),
        Trial::new(machine, Plain::EMPTY).share(rt, 2)?,
    )
}

/// Returns what each tree has.
fn openings_of(machine: Global, forest: &ClosedForest<Global>) -> Result<Vec<Opening>, Stop> {
    let mut openings = Vec::new(machine);
    for tree in forest.trees() {
        openings.push(Opening::of(machine, tree.table())?)?;
    }
    Ok(openings)
}

/// The trial of a worker on a forest that is taken apart, put together and shared once more.
pub(crate) fn forest<R: Threads + Wait + Sync + Send + Copy>(
    rt: R,
    machine: Global,
) -> Result<Ending, Stop> {
    let mut shared = Trial::new(machine, Plain::EMPTY).share(rt, 1)?;
    let Some(first) = shared.workers.pop() else {
        return Err(Stop::Broken("a forest has its worker"));
    };
    let (plain, ended) = first.output?;
    let (forest, reclosed) = reclose(machine, shared.forest)?;
    let openings = openings_of(machine, &forest)?;
    let (again, reshared) = Trial::new(machine, plain).share_closed(rt, forest)?;
    let ended = ended.and(judge(machine, openings, again)?);
    Ok(ended.and(reclosed).and(reshared))
}
