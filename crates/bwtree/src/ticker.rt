//! A line a second on how far a run is.

use bw_trace::Progress;
use std::alloc::{AllocError, Global};
use std::io::Write;
use std::sync::{Condvar, Mutex, Wait};
use std::time::{Clock, Duration};

/// The end of a command, for which another thread waits.
#[derive(Drop)]
pub(crate) struct Ending {
    has_come: Mutex<bool>,
    changed: Condvar,
}

impl Ending {
    pub(crate) fn new() -> Ending {
        Ending {
            has_come: Mutex::new(false),
            changed: Condvar::new(),
        }
    }

    /// Says that the command has ended.
    pub(crate) fn announce(&self, rt: &impl Wait) {
        *self.has_come.lock(rt) = true;
        self.changed.notify_one();
    }

    /// Waits for the end, for a second at most, and returns whether it has come.
    fn comes<R: Wait + Clock>(&self, rt: &R) -> bool {
        let second = Duration::from_secs(1);
        let (has_come, _) = self
            .changed
            .wait_timeout_while(rt, self.has_come.lock(rt), second, |come| !*come);
        *has_come
    }
}

/// Says each second how far the run is, until the command ends.
pub(crate) fn tell<R: Wait + Clock, W: Write>(
    rt: &R,
    alloc: Global,
    progress: &Progress,
    ending: &Ending,
    faults: &mut W,
) {
    let mut before = 0;
    for _ in rt.forever() {
        if ending.comes(rt) {
            break;
        }
        let rows = progress.rows();
        if rows > before {
            if let Ok(line) = line_of(alloc, rows, rows.saturating_sub(before), progress.faults()) {
                let _ = faults.write_all(line.as_bytes());
            }
        }
        before = rows;
    }
}

/// Returns the line in one piece, so that no other stands in it.
fn line_of(alloc: Global, rows: u64, pace: u64, faults: u64) -> Result<String, AllocError> {
    format!(in alloc; "{rows} rows done, {pace} a second, {faults} with a fault\n")
}
