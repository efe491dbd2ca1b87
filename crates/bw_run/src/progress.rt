//! How far a run is, for other threads to see.

use crate::beside::fault_beside;
use bw_procedures::Reply;
use std::sync::atomic::{AtomicU64, Ordering};

/// How many rows a worker does from count to count, so that workers seldom meet there.
const STRIDE: u8 = 64;

/// How far a run is. Other threads may look while its workers count.
#[derive(Drop)]
pub struct Progress {
    rows: AtomicU64,
    faults: AtomicU64,
}

impl Progress {
    /// Creates the progress of a run that hasn't begun.
    pub fn new() -> Progress {
        Progress {
            rows: AtomicU64::new(0),
            faults: AtomicU64::new(0),
        }
    }

    /// Returns how many rows are done, without the last few of each worker.
    pub fn rows(&self) -> u64 {
        self.rows.load(Ordering::SeqCst)
    }

    /// Returns how many rows have a fault beside their reply.
    pub fn faults(&self) -> u64 {
        self.faults.load(Ordering::SeqCst)
    }

    /// Counts a worker's last reply, the one that makes its replies this many.
    pub(crate) fn count(&self, replies: usize, last: &Reply) {
        if replies % usize::from(STRIDE) == 0 {
            self.rows.fetch_add(u64::from(STRIDE), Ordering::SeqCst);
        }
        if fault_beside(last).is_some() {
            self.faults.fetch_add(1, Ordering::SeqCst);
        }
    }
}
