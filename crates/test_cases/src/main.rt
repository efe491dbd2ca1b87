//! Does what the words of the input name, and reports of each whether all held. `vectors/NAME` and `shared/NAME` are
//! files of cases, and each other word is a trial. Those of the first line are what holds where memory is refused:
//! `.ci/refuse_memory` has each of them run once for each request for memory, with that one refused.
#![tactic(auto)]

mod acts;
mod ending;
mod forests;
mod plain;
mod readers;
mod replays;
mod runs;
mod shared;
mod texts;
mod traces;
mod workers;

use crate::ending::{Ending, Stop};
use anyhow::Result;
use std::alloc::Global;
use std::io::Read;
use std::rt::Files;
use std::sync::Wait;
use std::thread::Threads;
use std::{io, str};

/// Does the trial with this name.
fn run_trial<R: Threads + Wait + Sync + Send + Copy>(
    rt: R,
    machine: Global,
    name: &str,
) -> Result<Ending, Stop> {
    match name {
        "alone" => workers::alone(machine),
        "by_hand" => workers::by_hand(rt, machine),
        "beside_readers" => readers::beside_readers(rt, machine),
        "publications" => readers::publications(rt, machine),
        "changes_at_once" => readers::changes_at_once(rt, machine),
        "replays" => replays::replays(machine),
        "run" => runs::run_with(rt, machine, 0),
        "run_with_reader" => runs::run_with(rt, machine, 1),
        "forest" => forests::forest(rt, machine),
        "forest_of_two" => forests::forest_of_two(rt, machine),
        "side_by_side" => runs::side_by_side(rt, machine),
        "stopped" => runs::stopped(rt, machine),
        "fault_texts" => runs::fault_texts(machine),
        _ => Err(Stop::Broken("no such trial")),
    }
}

/// Does a trial, begins it once more if it was refused memory while nothing was at stake, and
/// returns its outcome.
fn stand<R: Threads + Wait + Sync + Send + Copy>(
    rt: R,
    machine: Global,
    name: &str,
) -> &'static str {
    match run_trial(rt, machine, name) {
        Ok(Ending::Whole) => "held, and nothing was refused",
        Ok(Ending::Refused) => "held, and one request was refused",
        Err(Stop::Broken(sentence)) => sentence,
        Err(Stop::Memory) => match run_trial(rt, machine, name) {
            Ok(Ending::Whole) => "held, and one request was refused",
            Ok(Ending::Refused) | Err(Stop::Memory) => "memory is refused once",
            Err(Stop::Broken(sentence)) => sentence,
        },
    }
}

/// Goes through the cases of a file, and returns whether they are answered as foretold.
fn agree<R: Wait + Copy + Files + AllocGlobal>(rt: R, path: &str, kind: &str) -> Result<()> {
    match kind {
        "vectors" => traces::agree(rt, path),
        _ => shared::agree(rt, path),
    }
}

fn main(rt: HostRuntime) -> io::Result<()> {
    let mut bytes = [0u8; 1024];
    let read = rt.stdin().read(&mut bytes)?;
    let input = bytes
        .get(..read)
        .and_then(|bytes| str::from_utf8(bytes).ok());
    for word in input.unwrap_or("").split_whitespace() {
        match word.split_once('/') {
            None => println!(rt; "{word}: {}", stand(rt, rt.alloc(), word))?,
            Some((kind, _)) => match agree(rt, word, kind) {
                Ok(()) => println!(rt; "{word}: as foretold")?,
                Err(fault) => println!(rt; "{word}: {fault}")?,
            },
        }
    }
    Ok(())
}
