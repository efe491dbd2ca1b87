//! What workers are to do on a structure, and the keys that it takes.

ghost use Rattle.std.specs.Prelude.{◌<◌};

use nifforan::Config;
use rand::seq::SliceRandom;
use rand_core::Rng;
use rand_pcg::Pcg32;
use std::alloc::{AllocError, Global};

/// The kind of a task's operations.
#[derive(Clone, Copy)]
pub(crate) enum Work {
    /// Puts each key once.
    Load,
    /// The same in rising order.
    Rising,
    /// Scans. Without operations only the filling of the map is left, and the memory that it takes.
    Fill,
    /// Scans of a map that was filled in rising order.
    FillRising,
    /// Gets in this number of a hundred operations. Half of the others are puts, half deletes.
    Mix(u32),
    /// The same by Zipf's distribution, so that a few keys are drawn often, which lie apart.
    Zipf(u32),
    /// The same with these keys side by side.
    Near(u32),
    /// Gets of eight keys at a time.
    Eights,
    /// Replaces values.
    Set,
    /// Deletes each key once.
    Delete,
    /// The first hundred pairs from a key on.
    Scan,
    /// All pairs.
    List,
}

/// The kinds by their words. The last one's answers aren't told.
pub(crate) const WORKS: [(&'static str, Work); 17] = [
    ("load", Work::Load),
    ("rising", Work::Rising),
    ("fill", Work::Fill),
    ("fill-rising", Work::FillRising),
    ("100", Work::Mix(100)),
    ("eights", Work::Eights),
    ("95", Work::Mix(95)),
    ("50", Work::Mix(50)),
    ("zipf", Work::Zipf(100)),
    ("zipf95", Work::Zipf(95)),
    ("zipf50", Work::Zipf(50)),
    ("near", Work::Near(100)),
    ("near50", Work::Near(50)),
    ("set", Work::Set),
    ("delete", Work::Delete),
    ("scan", Work::Scan),
    ("list", Work::List),
];

/// Operations of a kind, shared out to workers.
#[derive(Clone, Copy)]
pub(crate) struct Task {
    pub work: Work,
    pub workers: u32,
    pub keys: u32,
    pub operations: u32,
    /// The configuration of the tree.
    pub config: Config,
}

/// The usual configuration, with room for the most keys. Short chains suit it, as each record is a
/// piece of memory of its own, which gets have to pass.
pub(crate) const CONFIG: Config = Config {
    fanout: 64,
    chain: 2,
    pages: 65_536,
    tries: 1000,
    first_version: 0,
};

impl Task {
    /// Reads the words for the kind, the workers, the keys and the operations.
    pub(crate) fn read(config: Config, words: [&str; 4]) -> Option<Task> {
        let [work, workers, keys, operations] = words;
        Some(Task {
            config,
            work: WORKS.iter().find(|(word, _)| *word == work)?.1,
            workers: number(workers, 1, 64)?,
            // operations draw from twice as many
            keys: number(keys, 1, 1 << 30)?,
            operations: number(operations, 0, u32::MAX)?,
        })
    }

    /// Returns whether nothing is changed.
    pub(crate) fn only_reads(&self) -> bool {
        match self.work {
            Work::Load | Work::Rising | Work::Set | Work::Delete => false,
            Work::Mix(gets) | Work::Zipf(gets) | Work::Near(gets) => gets == 100,
            Work::Fill | Work::FillRising | Work::Eights | Work::Scan | Work::List => true,
        }
    }

    /// Returns the number of operations of all workers together.
    pub(crate) fn count(&self) -> u32 {
        match self.work {
            Work::Load | Work::Rising | Work::Delete => self.keys,
            _ => self.turns().saturating_mul(self.workers),
        }
    }

    /// Returns the number of operations of each worker.
    pub(crate) fn turns(&self) -> u32 {
        self.operations.checked_div(self.workers).unwrap_or(0)
    }

    /// Returns the keys, each once, in the order in which they are put.
    pub(crate) fn order(&self, alloc: Global) -> Result<Vec<u32>, AllocError> {
        let mut order = Vec::new(alloc);
        for key in 0..self.keys {
            order.push(key)?;
        }
        if !matches!(self.work, Work::Rising | Work::FillRising) {
            order.as_mut_slice().shuffle(&mut Pcg32::new(0, 0));
        }
        Ok(order)
    }

    /// Returns the end of the keys that operations draw. A filled map has half of them.
    pub(crate) fn end(&self) -> u32
        ensures { 0 < result }
    {
        self.keys.saturating_mul(2).max(1)
    }

    /// Returns the keys of all operations, if they are by Zipf's distribution: these take too long to
    /// be drawn while a clock runs.
    pub(crate) fn drawn_keys(&self, alloc: Global) -> Result<Vec<u32>, AllocError> {
        match self.work {
            Work::Zipf(_) => draw_by_zipf(alloc, self.end(), self.count(), SCATTERED),
            Work::Near(_) => draw_by_zipf(alloc, self.end(), self.count(), 1),
            _ => Ok(Vec::new(alloc)),
        }
    }
}

/// Reads a number from the least to the greatest.
pub(crate) fn number(word: &str, least: u32, greatest: u32) -> Option<u32> {
    word.parse::<u32>()
        .ok()
        .filter(|number: &u32| (least..=greatest).contains(number))
}

/// The weight of the first rank: so great that a later one, rounded down, is wrong by less than a
/// ten-thousandth up to millions of ranks, and so small that no sum or product here reaches 2^64.
const FIRST_WEIGHT: u64 = 1 << 54;

/// A prime above every `end`, so that the ranks times this, modulo `end`, are all the keys, and those
/// that are drawn often don't lie side by side.
const SCATTERED: u64 = 2_654_435_761;

/// Returns `count` keys below `end`, drawn by Zipf's distribution with exponent 0.99: a few of them
/// often, most of them seldom. They are the ranks times the step.
fn draw_by_zipf(alloc: Global, end: u32, count: u32, step: u64) -> Result<Vec<u32>, AllocError> {
    let sums = cumulative_weights(alloc, end)?;
    let mut rng = Pcg32::new(0, 2);
    let mut keys = Vec::new(alloc);
    for _ in 0..count {
        let rank = drawn_rank(&mut rng, sums.as_slice()) as u64;
        keys.push((rank.saturating_mul(step) % u64::from(end.max(1))) as u32)?;
    }
    Ok(keys)
}

/// Returns the weights of the ranks, each with those of the ranks before it. Those of all ranks r are
/// as r^-0.99 to within a thousandth: from r to r + 1 that falls by (1 + 1/r)^-0.99, which is
/// (r + 1/200) / (r + 199/200) but for terms of 1/r^3.
fn cumulative_weights(alloc: Global, ranks: u32) -> Result<Vec<u64>, AllocError> {
    let mut sums = Vec::new(alloc);
    let mut weight = FIRST_WEIGHT;
    let mut sum = 0u64;
    for rank in 1..=ranks {
        sum = sum.saturating_add(weight);
        sums.push(sum)?;
        let base = 200 * u64::from(rank);
        weight = weight.saturating_mul(base + 1) / (base + 199);
    }
    Ok(sums)
}

/// Returns a rank drawn by its weight. The first is 0.
fn drawn_rank(rng: &mut Pcg32, sums: &[u64]) -> usize {
    let total = sums.last().copied().unwrap_or(1).max(1);
    let drawn = rng.next_u64() % total;
    sums.partition_point(|sum| *sum <= drawn)
}
