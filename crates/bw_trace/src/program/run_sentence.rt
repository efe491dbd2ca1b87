//! What is said of a run that has no end to show if somebody watches.

use crate::program::asked::Asked;
use crate::program::room::{NO_ROOM, pages_for, pairs_to_bring};
use crate::program::sentence::sentence_of_memory;
use bw_run::RunFault;
use bw_texts::read_trace;
use bw_work::Fault;
use std::alloc::Global;

/// Returns what a run wanted, and what it was given.
pub(crate) fn sentence_of_run(alloc: Global, asked: &Asked, fault: RunFault) -> Option<String> {
    match fault {
        RunFault::Stopped(_, row, fault) => sentence_of_stop(alloc, asked, row, fault),
        RunFault::Threads => {
            let workers = asked.number("workers")?;
            format!(in alloc; "--workers is {workers}, and no further thread could be started").ok()
        }
        RunFault::NoReader => {
            let readers = asked.number("readers")?;
            format!(in alloc; "--readers is {readers}, and may be less").ok()
        }
        RunFault::Memory => sentence_of_memory(alloc),
        _ => None,
    }
}

/// Returns what the row that a worker gave up was in want of.
fn sentence_of_stop(alloc: Global, asked: &Asked, row: usize, fault: Fault) -> Option<String> {
    let name = asked.name();
    match fault {
        Fault::Contended => {
            let tries = asked.number("tries")?;
            format!(in alloc; "row {row} of {name}: --tries is {tries}, and may be 1 to 1000").ok()
        }
        Fault::TooTall => {
            let fanout = asked.number("fanout")?;
            format!(in alloc; "row {row} of {name}: --fanout is {fanout}, and may be 4 to 64").ok()
        }
        Fault::TableFull => {
            let (pages, advice) = (asked.number("pages")?, advice_on(alloc, asked)?);
            format!(in alloc; "row {row} of {name}: --pages is {pages}; {advice}").ok()
        }
        Fault::NoMemory => sentence_of_memory(alloc),
        Fault::Worn => {
            format!(in alloc;
                "row {row} of {name}: a version is used up, and a new run has new ones"
            ).ok()
        }
    }
}

/// Returns how many pages would do for the trace that was read.
fn advice_on(alloc: Global, asked: &Asked) -> Option<String> {
    let workers = u32::try_from(asked.number("workers")?).ok()?;
    let fanout = u32::try_from(asked.number("fanout")?).ok()?;
    let rows = read_trace(alloc, asked.kept.text.as_slice(), workers).ok()?;
    match pages_for(pairs_to_bring(&rows), fanout, workers) {
        Some(pages) => format!(in alloc; "--pages {pages} would do").ok(),
        None => NO_ROOM.to_string(alloc).ok(),
    }
}
