//! What is said of a finished run if somebody watches.

use crate::program::room::{NO_ROOM, pages_for, pairs_brought};
use crate::program::setting::Setting;
use bw_run::{Reply, count_beside};
use bw_work::Fault;
use std::io;
use std::io::Write;

/// Writes a line for each fault that stands beside the replies of a run, with the number of its rows,
/// and its cure.
pub(crate) fn write_notes<N: Write>(
    notes: &mut N,
    setting: Setting,
    replies: &[Reply],
) -> io::Result<()> {
    for (fault, told) in [
        (Fault::Contended, "had no effort left: more --tries"),
        (Fault::NoMemory, "found no memory"),
        (Fault::TableFull, "found the table full: "),
        (
            Fault::TooTall,
            "found the tree too tall: a greater --fanout",
        ),
        (Fault::Worn, "found a version used up: a new run"),
    ] {
        let count = count_beside(replies, fault);
        if count > 0 {
            note(notes, count, told)?;
            note_room(notes, fault, setting, replies)?;
        }
    }
    Ok(())
}

/// Writes how many rows had the fault, and its cure.
fn note<N: Write>(notes: &mut N, count: usize, told: &str) -> io::Result<()> {
    match count {
        1 => write!(notes, "1 row {told}"),
        count => write!(notes, "{count} rows {told}"),
    }
}

/// Writes how many pages would do, if the fault is a want of them, and ends the line.
fn note_room<N: Write>(
    notes: &mut N,
    fault: Fault,
    setting: Setting,
    replies: &[Reply],
) -> io::Result<()> {
    if fault != Fault::TableFull {
        return writeln!(notes);
    }
    let pairs = pairs_brought(replies);
    match pages_for(pairs, setting.config.fanout, setting.workers) {
        Some(pages) => writeln!(notes, "--pages {pages} would do"),
        None => writeln!(notes, "{NO_ROOM}"),
    }
}
