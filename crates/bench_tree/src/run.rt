//! The structures under a task.

use crate::Stop;
use crate::index::{Answer, ByCalls, Change, Index, Pairs, Tally};
use crate::race::{Part, Race, Worked};
use crate::request::Structure;
use crate::task::{Task, Work};
use bw_alone::Sole;
use nifforan::Map;
use nifforan_forest::{Bounds, ForestHand, ForestJob, ForestWorker, share_forest};
use nifforan_shared::{
    Calls, GivenUp, Job, Key, ReadingJob, Reads, Receipt, Table, Trail, Worker, share_table,
    share_with_readers,
};
use std::alloc::Global;
use std::marker::PhantomData;
use std::sync::Wait;
use std::sync::atomic::Ordering;
use std::thread::Threads;
use std::time::{Clock, Duration, Instant};

/// What the workers' threads take of the system.
pub(crate) trait Runtime: Clock + Threads + Wait + Sync + Send + Copy {}

impl<R: Clock + Threads + Wait + Sync + Send + Copy> Runtime for R {}

/// Does the task on a new structure.
pub(crate) fn run<R: Runtime>(rt: R, alloc: Global, structure: Structure, task: &Task) -> Worked {
    let race = Race::new(rt, alloc, structure, task)?;
    match structure {
        Structure::Alone => run_alone(&race),
        Structure::Map => run_map(&race),
        Structure::Hand => run_hands::<R, Vec<Receipt>>(&race),
        Structure::GivingUp => run_hands::<R, GivenUp>(&race),
        Structure::Forest(trees) => run_forest::<R, GivenUp>(&race, trees),
        Structure::KeepingForest(trees) => run_forest::<R, Vec<Receipt>>(&race, trees),
        Structure::Reader | Structure::Pending => run_readers::<R, GivenUp>(&race),
        Structure::Beside(_) | Structure::Puts(_) => run_readers::<R, Vec<Receipt>>(&race),
    }
}

/// Returns a table that is filled by one worker without receipts.
fn filled_table<R: Runtime>(race: &Race<R>) -> Result<Table<Global>, Stop> {
    let mut table = Table::new(race.alloc, race.alloc, race.task.config)?;
    let mut alone = Sole::with_trail(GivenUp::new(), race.alloc, &mut table);
    race.fill(&mut ByCalls { worker: &mut alone }, 0, 1)?;
    Ok(table)
}

fn run_alone<R: Runtime>(race: &Race<R>) -> Worked {
    let mut table = filled_table(race)?;
    let mut alone = Sole::with_trail(Vec::<Receipt>::empty(race.alloc), race.alloc, &mut table);
    race.run_calls(&mut alone, 0)
}

fn run_map<R: Runtime>(race: &Race<R>) -> Worked {
    let mut map = Map::new(race.alloc, race.alloc, race.task.config)?;
    let filled = race.fill(&mut map, 0, 1);
    race.run(&mut map, 0, filled)
}

fn run_hands<R: Runtime, L: Trail + Send + Sync>(race: &Race<R>) -> Worked {
    let (table, crew) = (filled_table(race)?, Crew::<R, L>::of(race));
    match share_table(race.rt, race.alloc, table, race.task.workers, &crew) {
        Ok(shared) => Part::of_all(shared.outputs),
        Err(unshared) => Err(Stop::from(unshared.fault)),
    }
}

fn run_readers<R: Runtime, L: Trail + Send + Sync>(race: &Race<R>) -> Worked {
    let (workers, crew) = (race.structure.workers(&race.task), Crew::<R, L>::of(race));
    let shared = share_with_readers(race.rt, race.alloc, race.task.config, workers, &crew)?;
    Part::of_all(shared.outputs)
}

fn run_forest<R: Runtime, L: Trail + Send + Sync>(race: &Race<R>, trees: u32) -> Worked {
    let (rt, alloc, task) = (race.rt, race.alloc, &race.task);
    let end = match task.work {
        Work::Load | Work::Rising => task.keys,
        _ => task.end(),
    };
    let Ok(bounds) = Bounds::even(alloc, trees, u64::from(end)) else {
        return Err(Stop::Nobody);
    };
    // for twice the keys that a tree has by the bounds, a quarter full
    let pages = (task.end() / trees.max(1) / 16).saturating_add(64);
    let mut config = task.config;
    config.pages = config.pages.min(pages);
    let crew = Crew::<R, L>::of(race);
    let shared = share_forest(rt, alloc, bounds, config, task.workers, &crew)?;
    let mut parts = Vec::with_capacity(alloc, shared.workers.len())?;
    for worker in shared.workers {
        parts.push(worker.output)?;
    }
    Part::of_all(parts)
}

/// Those who do a task, by receipts in such a trail.
#[derive(Drop)]
struct Crew<'r, R, L> {
    race: &'r Race<R>,
    trail: PhantomData<L>,
}

impl<'r, R, L> Crew<'r, R, L> {
    fn of(race: &'r Race<R>) -> Self {
        Crew {
            race,
            trail: PhantomData,
        }
    }
}

impl<'r, R: Clock + Wait + Copy, L: Trail> Job for Crew<'r, R, L> {
    type Output = Worked;

    type Trail = L;

    fn work<W: Worker>(&self, worker: u32, hand: &mut W) -> Worked {
        self.race.run_calls(hand, worker)
    }
}

impl<'r, R: Clock + Wait + Copy, L: Trail> ForestJob for Crew<'r, R, L> {
    type Output = Worked;

    type Trail = L;

    fn work<H: ForestHand>(&self, worker: u32, forest: &mut ForestWorker<'_, H>) -> Worked {
        let filled = self.race.fill(forest, worker, self.race.task.workers);
        self.race.run(forest, worker, filled)
    }
}

/// How many changes there are between two publications while a tree is filled.
const FILLED: u32 = 4096;

/// A worker that reads without the lock, and publishes once in so many changes, or never at 0.
#[derive(Drop)]
struct Published<'h, 'x, R, W, X> {
    rt: R,
    hand: ByCalls<'h, W>,
    reader: &'x mut X,
    every: u32,
    changes: u32,
    longest: Duration,
}

impl<'h, 'x, R: Clock + Copy, W: Worker, X: Reads> Published<'h, 'x, R, W, X> {
    fn publish(&mut self) -> Result<(), Stop> {
        let start = Instant::now(&self.rt)?;
        let _published = self.reader.publish()?;
        self.longest = self.longest.max(start.elapsed(&self.rt)?);
        Ok(())
    }
}

impl<'h, 'x, R: Clock + Copy, W: Worker, X: Reads> Index for Published<'h, 'x, R, W, X> {
    fn get_one(&mut self, key: Key) -> Answer {
        Ok(Tally::of_get(self.reader.get(key)?))
    }

    fn get_eight(&mut self, keys: [Key; 8]) -> Answer {
        Ok(Tally::of_eight(self.reader.get_eight(keys)?))
    }

    fn change(&mut self, change: Change) -> Answer {
        let tally = self.hand.change(change)?;
        if tally.has_changes() {
            self.changes = self.changes.saturating_add(1);
            if self.changes.is_multiple_of(self.every) {
                self.publish()?;
            }
        }
        Ok(tally)
    }

    fn scan_from(&mut self, low: Key, limit: usize, list: &mut Pairs) -> Answer {
        self.reader.scan(low, limit, list)?;
        Ok(Tally::of_scan(list))
    }
}

impl<R: Clock + Wait + Copy> Race<R> {
    /// Does one worker's part by its calls.
    fn run_calls<W: Calls<Global>>(&self, worker: &mut W, number: u32) -> Worked {
        self.run(&mut ByCalls { worker }, number, Ok(Tally::default()))
    }

    /// Fills the tree, and publishes it part by part.
    fn fill_by<W: Worker, X: Reads>(&self, index: &mut Published<'_, '_, R, W, X>) -> Answer {
        index.every = FILLED;
        let filled = self.fill(index, 0, 1)?;
        index.publish()?;
        // the copy that readers don't see takes the last part too
        index.publish()?;
        Ok(filled)
    }
}

/// Readers, each of them a worker, and a writer behind them, if there is one.
impl<'r, R: Clock + Wait + Copy, L: Trail> ReadingJob for Crew<'r, R, L> {
    type Output = Worked;

    type Trail = L;

    fn work<W: Worker, X: Reads>(&self, worker: u32, hand: &mut W, reader: &mut X) -> Worked {
        let race = self.race;
        let mut index = Published {
            rt: race.rt,
            hand: ByCalls { worker: hand },
            reader,
            every: 0,
            changes: 0,
            longest: Duration::ZERO,
        };
        let filled = match (worker, race.structure) {
            (0, Structure::Pending) => race.fill(&mut index, 0, 1),
            (0, _) => race.fill_by(&mut index),
            _ => Ok(Tally::default()),
        };
        index.every = match race.structure {
            Structure::Beside(every) | Structure::Puts(every) => every,
            _ => 0,
        };
        if worker >= race.task.workers {
            let mut part = race.begin(filled)?;
            race.change_often(&mut index)?;
            part.writing = part.began.elapsed(&race.rt)?;
            (part.changes, part.longest) = (index.changes, index.longest);
            return Ok(part);
        }
        let part = race.run(&mut index, worker, filled);
        race.ended.fetch_add(1, Ordering::SeqCst);
        part
    }
}
