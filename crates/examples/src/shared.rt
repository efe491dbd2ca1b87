//! Four threads fill one map, each with keys of its own. Then one worker reads it page by page while another
//! puts more after its pairs. Four with readers fill another map, and scan what they put without the lock.

use anyhow::Result;
use nifforan_shared::{
    Calls, Config, Each, Fault, GivenUp, Job, Key, Pages, Queries, ReadingJob, Reads, Steps,
    Worker, share, share_table, share_with_readers,
};
use std::alloc::Global;
use std::sync::Wait;
use std::thread::Threads;

/// Puts a thousand keys by each worker. Nobody will ask for the receipts.
struct Fill;

impl Job for Fill {
    type Output = Result<(), Fault>;

    type Trail = GivenUp;

    fn work<W: Worker>(&self, worker: u32, hand: &mut W) -> Result<(), Fault> {
        let first = 1000 * u64::from(worker);
        for key in first..first + 1000 {
            hand.put(key, 7 * key)?;
        }
        Ok(())
    }
}

/// Does the same, and returns the first two of the worker's pairs, which its reader scans.
impl ReadingJob for Fill {
    type Output = Result<Vec<(Key, u64)>, Fault>;

    type Trail = GivenUp;

    fn work<W: Worker, R: Reads>(
        &self,
        worker: u32,
        hand: &mut W,
        reader: &mut R,
    ) -> Result<Vec<(Key, u64)>, Fault> {
        Job::work(self, worker, hand)?;
        reader.publish()?;
        let mut pairs = Vec::new(hand.alloc());
        reader.scan(1000 * u64::from(worker), 2, &mut pairs)?;
        Ok(pairs)
    }
}

/// What one of two workers does.
enum Work {
    /// Puts a thousand keys from this one on, and returns how many pairs there are then.
    Fill(Key),
    /// Finds the greatest value of the keys up to this one.
    Read(Key),
}

impl Job for Work {
    type Output = Result<u64, Fault>;

    type Trail = GivenUp;

    fn work<W: Worker>(&self, _worker: u32, hand: &mut W) -> Result<u64, Fault> {
        match *self {
            Work::Fill(first) => put_from(hand, first),
            Work::Read(end) => greatest_up_to(hand, end),
        }
    }
}

fn put_from<W: Worker>(hand: &mut W, first: Key) -> Result<u64, Fault> {
    for key in (first..).take(1000) {
        hand.put(key, key % 700)?;
    }
    Ok(hand.len())
}

fn greatest_up_to<W: Worker>(hand: &mut W, end: Key) -> Result<u64, Fault> {
    let mut greatest = 0;
    let machine = hand.alloc();
    for page in Pages::of(hand, machine, 0) {
        for (key, value) in page?.pairs {
            if key > end {
                return Ok(greatest);
            }
            greatest = greatest.max(value);
        }
    }
    Ok(greatest)
}

/// Writes what each map has, and what the workers bring back.
pub fn run<R: Threads + Wait + Sync + Send + Copy>(
    rt: R,
    machine: Global,
    told: &mut String,
) -> Result<()> {
    let filled = share(rt, machine, Config::default(), 4, &Fill)?;
    for output in filled.outputs {
        output?;
    }
    writeln!(told, "{:?}", filled.table.get(1000))?;
    let each = Each {
        jobs: &[Work::Fill(4000), Work::Read(1200)],
    };
    match share_table(rt, machine, filled.table, 2, &each) {
        Ok(shared) => writeln!(told, "{:?}", shared.outputs)?,
        Err(unshared) => return Err(unshared.fault.into()),
    }
    let read = share_with_readers(rt, machine, Config::default(), 4, &Fill)?;
    for found in read.outputs {
        writeln!(told, "found {:?}", found?)?;
    }
    let pairs = read.table.pairs(machine)?;
    writeln!(told, "{} pairs, up to {:?}", pairs.len(), pairs.last())?;
    Ok(())
}
