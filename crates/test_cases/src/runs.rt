//! Runs: one that is refused memory, workers side by side, and workers that stop.

use crate::ending::{Ending, Stop, hold};
use crate::plain::Plain;
use bw_keys::{Config, Key};
use bw_run::{Act, Finished, Reply, Row, RunFault, is_trace_for, run};
use bw_step::Kind;
use bw_work::{Fault, Gate};
use std::alloc::Global;
use std::sync::Wait;
use std::sync::atomic::{AtomicU64, Ordering};
use std::thread::Threads;
use test_kit::{LARGE, Meeting, SMALL};

/// Puts of the first worker, each of a key with itself as value, and a get.
macro_rules! rows {
    ($($key:literal),*; $sought:literal) => {
        [
            $(Row { worker: 0, act: Act::Put { key: $key, value: $key } },)*
            Row { worker: 0, act: Act::Get { key: $sought } },
        ]
    };
}

/// The puts split a leaf twice, and at the last row a worker with a reader publishes them.
const ROWS: [Row; 8] = rows!(1, 2, 3, 4, 5, 6, 7; 4);

/// The number of the worker's calls of its gate: for three consolidations, two splits, and the root
/// and the term over the new leaves.
const CALLS: u64 = 7;

/// Counts the calls of its workers, and may hold each of two at its first call until the other has come to its own.
#[derive(Drop)]
struct Watch {
    calls: AtomicU64,
    meeting: Option<Meeting>,
}

impl Watch {
    fn new(meeting: Option<Meeting>) -> Watch {
        Watch {
            calls: AtomicU64::new(0),
            meeting,
        }
    }
}

impl Gate for Watch {
    fn at(&self, worker: u32, _kind: Kind) {
        self.calls.fetch_add(1, Ordering::SeqCst);
        if let Some(meeting) = &self.meeting {
            if meeting.arrive(worker) {
                meeting.wait_for(if worker == 0 { 1 } else { 0 });
            }
        }
    }
}

/// Takes over the acts of the rows, by their replies.
fn take_replies(plain: &mut Plain, replies: &[Reply]) -> Result<Ending, Stop> {
    hold(replies.len() == ROWS.len(), "each row has a reply")?;
    let mut ending = Ending::Whole;
    for (row, reply) in ROWS.iter().zip(replies.iter()) {
        ending = ending.and(plain.take(row.act, *reply)?);
    }
    Ok(ending)
}

fn judge(machine: Global, finished: &Finished) -> Result<Ending, Stop> {
    let mut plain = Plain::EMPTY;
    let ending = take_replies(&mut plain, &finished.replies)?;
    let pairs = finished.table.pairs(machine)?;
    hold(plain.has(&pairs), "the pairs are the script's")?;
    Ok(ending)
}

/// Returns why a run without an end may begin again. A run reports `Memory` before its worker
/// starts or in the audit, and its other faults before the worker starts, as the number of the
/// gate's calls shows.
fn refused(fault: RunFault, readers: u32, calls: u64) -> Stop {
    match fault {
        RunFault::Memory if calls == 0 || calls == CALLS => Stop::Memory,
        RunFault::Threads if calls == 0 => Stop::Memory,
        RunFault::NoReader if readers > 0 && calls == 0 => Stop::Memory,
        RunFault::Stopped(0, row, Fault::NoMemory) if (1..=ROWS.len()).contains(&row) => {
            Stop::Memory
        }
        RunFault::Memory | RunFault::Threads | RunFault::NoReader => {
            Stop::Broken("a run tells its own faults before its worker starts or in the audit")
        }
        _ => Stop::Broken("memory alone is wanting"),
    }
}

/// Runs a trace of so many workers.
fn run_for<R: Threads + Wait + Sync + Send + Copy>(
    rt: R,
    machine: Global,
    config: Config,
    workers: u32,
    readers: u32,
    rows: &[Row],
    gate: &Watch,
) -> Result<Finished, RunFault> {
    if !is_trace_for(rows, workers) {
        return Err(RunFault::Workers);
    }
    run(rt, machine, config, workers, readers, rows, gate)
}

/// The trial of a run of one worker, with or without a reader.
pub(crate) fn run_with<R: Threads + Wait + Sync + Send + Copy>(
    rt: R,
    machine: Global,
    readers: u32,
) -> Result<Ending, Stop> {
    let gate = Watch::new(None);
    match run_for(rt, machine, SMALL, 1, readers, &ROWS, &gate) {
        Ok(finished) => judge(machine, &finished),
        Err(fault) => Err(refused(fault, readers, gate.calls.load(Ordering::SeqCst))),
    }
}

/// Adds a worker's puts of the `many` keys after `behind`, each with itself as value.
fn add_puts(trace: &mut Vec<Row>, worker: u32, behind: Key, many: Key) -> Result<(), Stop> {
    for number in 1..=many {
        let key = behind.wrapping_add(number);
        let act = Act::Put { key, value: key };
        trace.push(Row { worker, act })?;
    }
    Ok(())
}

/// Workers run side by side, with a reader and without: each of two is held at its first change of shape until the
/// other has come to its own.
pub(crate) fn side_by_side<R: Threads + Wait + Sync + Send + Copy>(
    rt: R,
    machine: Global,
) -> Result<Ending, Stop> {
    let mut trace = Vec::new(machine);
    add_puts(&mut trace, 0, 0, 100)?;
    add_puts(&mut trace, 1, 100, 100)?;
    let short = Config { chain: 1, ..LARGE };
    for readers in 0..=1 {
        let gate = Watch::new(Some(Meeting::new()));
        let Ok(ran) = run_for(rt, machine, short, 2, readers, &trace, &gate) else {
            return Err(Stop::Broken("two workers run"));
        };
        hold(ran.table.book().inserted == 200, "each key is put")?;
        let have_met = match &gate.meeting {
            Some(meeting) => meeting.came_about(),
            None => false,
        };
        hold(have_met, "workers run side by side")?;
    }
    Ok(Ending::Whole)
}

/// A version that is used up lets no key in.
const WORN: Config = Config {
    first_version: u64::MAX,
    ..LARGE
};

/// Of two workers that stop the first is named. Worker 1 stops at its first row. That worker 0 does all of its rows
/// shows in the row that is named: the last but one of these, which it can't do either.
pub(crate) fn stopped<R: Threads + Wait + Sync + Send + Copy>(
    rt: R,
    machine: Global,
) -> Result<Ending, Stop> {
    let mut trace = Vec::new(machine);
    add_puts(&mut trace, 1, 0, 2)?;
    for key in 0..100 {
        let act = Act::Get { key };
        trace.push(Row { worker: 0, act })?;
    }
    add_puts(&mut trace, 0, 5, 2)?;
    let first = RunFault::Stopped(0, 103, Fault::Worn);
    for number in 0..30 {
        let gate = Watch::new(None);
        let ran = run_for(rt, machine, WORN, 2, number % 3, &trace, &gate);
        hold(ran.err() == Some(first), "the first worker is named")?;
    }
    Ok(Ending::Whole)
}

/// Faults that no case of the command comes to.
const FAULTS: [RunFault; 7] = [
    RunFault::OtherRange,
    RunFault::NoReader,
    RunFault::Threads,
    RunFault::Memory,
    RunFault::Stopped(0, 4, Fault::Worn),
    RunFault::Audit(1, 2),
    RunFault::TreeAudit(3, 1, 2),
];

/// The faults of runs have their texts.
pub(crate) fn fault_texts(machine: Global) -> Result<Ending, Stop> {
    let mut told = String::new(machine);
    for fault in FAULTS {
        told.push_str(&format!(in machine; "{fault}; ")?)?;
    }
    let texts = "a tree has another range; reader; threads; memory; worker 0 row 4: worn; \
        audit no 1 2; audit no 1 2 tree 3; ";
    hold(told.as_str() == texts, "each fault has its text")?;
    Ok(Ending::Whole)
}
