//! Times the tree on the machine that it runs on, by each of its structures.
#![tactic(auto)]

mod index;
mod race;
mod request;
mod run;
mod task;

use crate::request::{Request, STRUCTURES, Structure, USAGE};
use crate::run::{Runtime, run};
use crate::task::{Task, WORKS, Work};
use nifforan::{Fault, NewFault, NoMemory};
use nifforan_forest::ShareForestFault;
use nifforan_shared::{Closed, ScanFault, ShareFault};
use std::alloc::{AllocError, Global};
use std::{env, io};
use thiserror::Error;

/// Why no time is reported.
#[derive(Clone, Copy, Debug, Error)]
pub(crate) enum Stop {
    #[error("out of memory")]
    Memory(#[from(alloc)] AllocError),
    #[error("the system refused the clock or the arguments")]
    System,
    #[error("no tree was made")]
    New(#[from] NewFault),
    #[error("a call gave up")]
    Call(#[from] Fault),
    #[error("nothing was published")]
    Publish(#[from] NoMemory),
    #[error("nothing was read")]
    Read(#[from] Closed),
    #[error("nothing was scanned")]
    Scan(#[from] ScanFault),
    #[error("no tree was shared")]
    Share(#[from] ShareFault),
    #[error("no forest was shared")]
    Forest(#[from] ShareForestFault),
    #[error("no worker was asked")]
    Nobody,
}

impl From<io::Error> for Stop {
    fn from(_: io::Error) -> Stop {
        Stop::System
    }
}

/// What the program prints.
type Text = Result<String, Stop>;

/// Returns the line of a task's rate, in millions a second. Beside a writer it has the rate of the
/// readers, that of the writer's changes, and the milliseconds of the longest publication.
fn line_of(rt: impl Runtime, alloc: Global, name: &str, structure: Structure, task: &Task) -> Text {
    let part = run(rt, alloc, structure, task)?;
    let time = part.ended.saturating_duration_since(part.began);
    let rate = f64::from(task.count()) / 1e6 / time.as_secs_f64();
    if !matches!(structure, Structure::Beside(_)) {
        return Ok(format!(in alloc; "{name} {rate:.3}\n")?);
    }
    let changes = f64::from(part.changes) / 1e6 / part.writing.as_secs_f64();
    let longest = part.longest.as_secs_f64() * 1e3;
    Ok(format!(in alloc; "{name} {rate:.9} writer {changes:.6} longest {longest:.3}\n")?)
}

/// Returns what one worker is answered, a line for each work and structure, without times.
fn tallies(rt: impl Runtime, alloc: Global, task: &Task) -> Text {
    let mut text = String::new(alloc);
    for (name, work) in WORKS {
        let task = Task { work, ..*task };
        for (word, structure) in STRUCTURES {
            if structure.is_for(&task) && !matches!(work, Work::List) {
                let tally = run(rt, alloc, structure, &task)?.tally;
                writeln!(text, "{word} {name}: {tally}")?;
            }
        }
    }
    Ok(text)
}

/// Returns the answer to the words, or the usage where they ask for nothing.
fn report(rt: impl Runtime, alloc: Global, words: &[String]) -> Text {
    let words: Vec<&str> = words.iter().map(|word| word.as_str()).collect(alloc)?;
    match Request::read(words.as_slice()) {
        Some(Request::Rate(name, structure, task)) => line_of(rt, alloc, name, structure, &task),
        Some(Request::Tallies(task)) => tallies(rt, alloc, &task),
        None => Ok(String::from_str(alloc, USAGE)?),
    }
}

fn main(rt: HostRuntime) -> Result<(), Stop> {
    let words: Vec<String> = env::args(&rt)?.skip(1).collect(rt.alloc())?;
    let text = report(rt, rt.alloc(), words.as_slice())?;
    print!(rt; "{text}")?;
    Ok(())
}
