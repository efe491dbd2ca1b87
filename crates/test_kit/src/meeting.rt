use std::sync::atomic::{AtomicU64, Ordering};
use std::thread;

/// The number of times that a held worker gives way before it gives up.
const MOST_TURNS: u32 = 1_000_000;

/// A point at which two workers, 0 and 1, wait for each other.
#[derive(Drop)]
pub struct Meeting {
    zero: AtomicU64,
    one: AtomicU64,
    missed: AtomicU64,
}

impl Meeting {
    pub fn new() -> Meeting {
        Meeting {
            zero: AtomicU64::new(0),
            one: AtomicU64::new(0),
            missed: AtomicU64::new(0),
        }
    }

    fn flag(&self, worker: u32) -> &AtomicU64 {
        if worker == 0 { &self.zero } else { &self.one }
    }

    /// Notes that the worker has come. Returns whether it is the first time.
    pub fn arrive(&self, worker: u32) -> bool {
        self.flag(worker).swap(1, Ordering::SeqCst) == 0
    }

    /// Holds the caller until the worker has come.
    pub fn wait_for(&self, worker: u32) {
        let flag = self.flag(worker);
        for _ in 0..MOST_TURNS {
            if flag.load(Ordering::SeqCst) == 1 {
                return;
            }
            thread::yield_now();
        }
        self.missed.store(1, Ordering::SeqCst);
    }

    /// Returns whether both came, and neither gave up waiting.
    pub fn came_about(&self) -> bool {
        self.zero.load(Ordering::SeqCst) == 1
            && self.one.load(Ordering::SeqCst) == 1
            && self.missed.load(Ordering::SeqCst) == 0
    }
}
