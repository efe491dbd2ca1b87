//! A tree that takes atomic steps alone, and a gate that counts.

use bw_delta::Chain;
use bw_keys::{Config, Key, Pid, Version};
use bw_step::{CopyFault, Denied, Kind, Look, Next, Place, Receipt, Step, View};
use bw_tree::{Share, Shared};
use bw_work::Gate;
use std::alloc::Global;
use std::sync::atomic::{AtomicU64, Ordering};

/// A count that is shared.
#[derive(Drop)]
pub(crate) struct Counter {
    count: AtomicU64,
}

impl Counter {
    pub(crate) fn new() -> Counter {
        Counter {
            count: AtomicU64::new(0),
        }
    }

    pub(crate) fn get(&self) -> u64 {
        self.count.load(Ordering::SeqCst)
    }
}

/// Counts its calls.
impl Gate for Counter {
    fn at(&self, _worker: u32, _kind: Kind) {
        self.count.fetch_add(1, Ordering::SeqCst);
    }
}

/// A shared tree of which only the atomic steps are written. It counts those that are taken.
#[derive(Drop)]
pub(crate) struct Stepwise<'t, S> {
    pub(crate) tree: &'t S,
    pub(crate) taken: &'t Counter,
}

impl<'t, S: Shared<Global, Step<Global>>> Shared<Global, Step<Global>> for Stepwise<'t, S> {
    type Insertions = S::Insertions;

    type Removals = S::Removals;

    ghost made_by = { λ stepwise. S.made_by stepwise.tree.now };

    fn config(&self) -> Config {
        self.tree.config()
    }

    fn root(&self) -> Place {
        self.tree.root()
    }

    fn visit(&self, place: Place, key: Key, goal: u8) -> Next {
        self.tree.visit(place, key, goal)
    }

    fn peek(&self, pid: Pid) -> Option<View> {
        self.tree.peek(pid)
    }

    fn look(&self, pid: Pid, key: Key) -> Option<Look> {
        self.tree.look(pid, key)
    }

    fn copy_page(
        &self,
        alloc: Global,
        pid: Pid,
        seen: Version,
    ) -> Result<Chain<Global>, CopyFault> {
        self.tree.copy_page(alloc, pid, seen)
    }

    fn install(
        &self,
        share: &mut Share<S::Insertions, S::Removals>,
        step: Step<Global>,
    ) -> Result<Receipt, Denied> {
        let answer = self.tree.install(share, step);
        if answer.is_ok() {
            self.taken.count.fetch_add(1, Ordering::SeqCst);
        }
        answer
    }
}
