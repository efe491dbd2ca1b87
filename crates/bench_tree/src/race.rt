//! A task under a clock, and its operations on any structure.

use crate::Stop;
use crate::index::{Answer, Change, Index, Tally};
use crate::request::Structure;
use crate::task::{Task, Work};
use nifforan_shared::Key;
use rand_core::Rng;
use rand_pcg::Pcg32;
use std::alloc::Global;
use std::sync::atomic::{AtomicU32, Ordering};
use std::sync::{Barrier, Wait};
use std::time::{Clock, Duration, Instant};

/// The number of pairs that a scan asks for.
pub(crate) const SCANNED: usize = 100;

/// What a worker was answered, when it began and ended, and what it published.
#[derive(Clone, Copy)]
pub(crate) struct Part {
    pub tally: Tally,
    pub began: Instant,
    pub ended: Instant,
    /// The changes of a writer beside readers, whose time is no part of theirs.
    pub changes: u32,
    pub writing: Duration,
    /// The time of the longest publication.
    pub longest: Duration,
}

/// What a worker brings back.
pub(crate) type Worked = Result<Part, Stop>;

impl Part {
    /// Returns the part of all, from the first beginning to the last end.
    pub(crate) fn of_all(parts: Vec<Worked>) -> Worked {
        let mut parts = parts.into_iter();
        let mut all = parts.next().unwrap_or(Err(Stop::Nobody))?;
        for part in parts {
            let part = part?;
            all = Part {
                tally: all.tally.plus(part.tally),
                began: all.began.min(part.began),
                ended: all.ended.max(part.ended),
                changes: all.changes.max(part.changes),
                writing: all.writing.max(part.writing),
                longest: all.longest.max(part.longest),
            };
        }
        Ok(all)
    }
}

/// A task whose workers wait for each other, and begin together. Its keys are drawn before.
#[derive(Drop)]
pub(crate) struct Race<R> {
    pub rt: R,
    pub alloc: Global,
    pub structure: Structure,
    pub task: Task,
    /// The keys in the order of the puts.
    order: Vec<u32>,
    /// The keys of all operations, where workers don't draw them as they go.
    drawn: Vec<u32>,
    start: Barrier,
    /// How many readers have ended.
    pub ended: AtomicU32,
}

impl<R: Clock + Wait + Copy> Race<R> {
    pub(crate) fn new(rt: R, alloc: Global, held: Structure, task: &Task) -> Result<Self, Stop> {
        Ok(Race {
            rt,
            alloc,
            structure: held,
            task: *task,
            order: task.order(alloc)?,
            drawn: task.drawn_keys(alloc)?,
            start: Barrier::new(held.workers(task) as usize),
            ended: AtomicU32::new(0),
        })
    }

    /// Waits until all have filled what they are to fill, and returns a part that begins and ends then.
    pub(crate) fn begin(&self, filled: Answer) -> Worked {
        let _ = self.start.wait(&self.rt);
        filled?;
        let began = Instant::now(&self.rt)?;
        Ok(Part {
            tally: Tally::default(),
            began,
            ended: began,
            changes: 0,
            writing: Duration::ZERO,
            longest: Duration::ZERO,
        })
    }

    /// Does one worker's part of the task, once all have filled.
    pub(crate) fn run<I: Index>(&self, index: &mut I, worker: u32, filled: Answer) -> Worked {
        let mut part = self.begin(filled)?;
        let mut rng = Pcg32::new(u64::from(worker), 1);
        part.tally = match self.task.work {
            Work::Mix(gets) | Work::Zipf(gets) | Work::Near(gets) => {
                self.mix(index, &mut rng, worker, gets)?
            }
            Work::Eights => self.get_by_eights(index, &mut rng)?,
            Work::Set => self.set_often(index, &mut rng)?,
            Work::Load | Work::Rising | Work::Delete => {
                self.each_key(index, self.task.work, worker, self.task.workers)?
            }
            _ => self.scan_often(index, &mut rng)?,
        };
        part.ended = Instant::now(&self.rt)?;
        Ok(part)
    }

    /// Puts every second key of those drawn later, as one of so many workers, unless the task begins
    /// with an empty map.
    pub(crate) fn fill<I: Index>(&self, index: &mut I, worker: u32, workers: u32) -> Answer {
        match self.task.work {
            Work::Load | Work::Rising => Ok(Tally::default()),
            _ => self.each_key(index, Work::Fill, worker, workers),
        }
    }

    /// Changes the keys of a worker's turns, one of each round of so many workers.
    fn each_key<I: Index>(&self, index: &mut I, work: Work, worker: u32, workers: u32) -> Answer {
        let mut tally = Tally::default();
        for round in self.order.chunks(workers.max(1) as usize) {
            if let Some(key) = round.get(worker as usize) {
                let key = u64::from(*key);
                tally = tally.plus(index.change(match work {
                    Work::Load | Work::Rising => Change::Put(key, key),
                    Work::Delete => Change::Delete(2 * key),
                    _ => Change::Put(2 * key, key),
                })?);
            }
        }
        Ok(tally)
    }

    /// Gets, puts and deletes.
    fn mix<I: Index>(&self, index: &mut I, rng: &mut Pcg32, worker: u32, gets: u32) -> Answer {
        let mut tally = Tally::default();
        let turns = self.task.turns();
        let mut parts = self.drawn.chunks(turns.max(1) as usize);
        let part = parts.nth(worker as usize).unwrap_or(&[]);
        for turn in 0..turns {
            let key = match part.get(turn as usize) {
                Some(key) => u64::from(*key),
                None => self.drawn_key(rng),
            };
            tally = tally.plus(mix_one(index, rng, key, gets)?);
        }
        Ok(tally)
    }

    /// Gets the values of eight drawn keys at a time.
    fn get_by_eights<I: Index>(&self, index: &mut I, rng: &mut Pcg32) -> Answer {
        let mut tally = Tally::default();
        for _ in 0..self.task.turns() / 8 {
            let mut keys = [0; 8];
            for key in keys.iter_mut() {
                *key = self.drawn_key(rng);
                // a mix draws once more, for what it does
                let _draw = rng.next_u32();
            }
            tally = tally.plus(index.get_eight(keys)?);
        }
        Ok(tally)
    }

    /// Sets drawn keys that have values to drawn ones.
    fn set_often<I: Index>(&self, index: &mut I, rng: &mut Pcg32) -> Answer {
        let mut tally = Tally::default();
        for _ in 0..self.task.turns() {
            let key = 2 * u64::from(rng.next_u32() % self.task.keys.max(1));
            let value = u64::from(rng.next_u32());
            tally = tally.plus(index.change(Change::Set(key, value))?);
        }
        Ok(tally)
    }

    /// Scans from drawn keys on, or lists all pairs.
    fn scan_often<I: Index>(&self, index: &mut I, rng: &mut Pcg32) -> Answer {
        let mut tally = Tally::default();
        let mut list = Vec::with_capacity(self.alloc, 2 * SCANNED)?;
        for _ in 0..self.task.turns() {
            let (low, limit) = match self.task.work {
                Work::List => (0, usize::MAX),
                _ => (self.drawn_key(rng), SCANNED),
            };
            tally = tally.plus(index.scan_from(low, limit, &mut list)?);
        }
        Ok(tally)
    }

    /// Puts or deletes drawn keys until the readers have ended.
    pub(crate) fn change_often<I: Index>(&self, index: &mut I) -> Result<(), Stop> {
        let mut rng = Pcg32::new(64, 1); // readers have lesser numbers
        for _ in 0..u64::MAX {
            if self.ended.load(Ordering::SeqCst) >= self.task.workers {
                break;
            }
            let key = self.drawn_key(&mut rng);
            let _tally = mix_one(index, &mut rng, key, 0)?;
        }
        Ok(())
    }

    /// Returns a key below twice their number.
    fn drawn_key(&self, rng: &mut Pcg32) -> Key {
        u64::from(rng.next_u32() % self.task.end())
    }
}

/// Gets the key, puts it with itself as value, or deletes it.
fn mix_one<I: Index>(index: &mut I, rng: &mut Pcg32, key: Key, gets: u32) -> Answer {
    let draw = rng.next_u32() % 200;
    if draw / 2 < gets {
        index.get_one(key)
    } else if draw % 2 == 0 {
        index.change(Change::Put(key, key))
    } else {
        index.change(Change::Delete(key))
    }
}
