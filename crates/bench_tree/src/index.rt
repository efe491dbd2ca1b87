//! What a task's calls do on each structure, and what they are answered.

use crate::Stop;
use crate::race::SCANNED;
use nifforan::{Del, Map, Put, Set};
use nifforan_forest::{ForestHand, ForestWorker};
use nifforan_shared::{Calls, Key};
use std::alloc::Global;
use std::fmt;

/// The numbers of gets that found a value, keys inserted, values replaced, keys removed and pairs that
/// scans returned. Two programs that do the same operations with one worker have the same tally.
#[derive(Clone, Copy, Default)]
pub(crate) struct Tally {
    found: u64,
    inserted: u64,
    replaced: u64,
    removed: u64,
    scanned: u64,
}

impl Tally {
    pub(crate) fn of_get(found: Option<u64>) -> Tally {
        Tally {
            found: u64::from(found.is_some()),
            ..Tally::default()
        }
    }

    pub(crate) fn of_eight(found: [Option<u64>; 8]) -> Tally {
        let mut tally = Tally::default();
        for value in found {
            tally = tally.plus(Tally::of_get(value));
        }
        tally
    }

    fn of_put(reply: Put) -> Tally {
        Tally {
            inserted: u64::from(matches!(reply, Put::Inserted)),
            ..Tally::default()
        }
    }

    fn of_set(reply: Set) -> Tally {
        Tally {
            inserted: u64::from(matches!(reply, Set::Inserted)),
            replaced: u64::from(matches!(reply, Set::Replaced(_))),
            ..Tally::default()
        }
    }

    fn of_delete(reply: Del) -> Tally {
        Tally {
            removed: u64::from(matches!(reply, Del::Removed(_))),
            ..Tally::default()
        }
    }

    pub(crate) fn of_scan(list: &Pairs) -> Tally {
        Tally {
            scanned: list.len() as u64,
            ..Tally::default()
        }
    }

    /// Returns whether a key was inserted, replaced or removed.
    pub(crate) fn has_changes(self) -> bool {
        self.inserted > 0 || self.replaced > 0 || self.removed > 0
    }

    pub(crate) fn plus(self, other: Tally) -> Tally {
        Tally {
            found: self.found.saturating_add(other.found),
            inserted: self.inserted.saturating_add(other.inserted),
            replaced: self.replaced.saturating_add(other.replaced),
            removed: self.removed.saturating_add(other.removed),
            scanned: self.scanned.saturating_add(other.scanned),
        }
    }
}

impl fmt::Display for Tally {
    fn fmt<W: fmt::Write>(&self, f: &mut fmt::Formatter<W>) -> fmt::Result {
        write!(f, "found {} inserted {} ", self.found, self.inserted)?;
        write!(f, "replaced {} removed {} ", self.replaced, self.removed)?;
        write!(f, "scanned {}", self.scanned)
    }
}

pub(crate) type Pairs = Vec<(Key, u64)>;

/// The tally of a call's answer.
pub(crate) type Answer = Result<Tally, Stop>;

/// What a call changes.
#[derive(Clone, Copy)]
pub(crate) enum Change {
    Put(Key, u64),
    Set(Key, u64),
    Delete(Key),
}

/// The calls that a task makes.
pub(crate) trait Index {
    fn get_one(&mut self, key: Key) -> Answer;

    /// Gets the values of eight keys, at once where the structure has a call for that.
    fn get_eight(&mut self, keys: [Key; 8]) -> Answer {
        let mut tally = Tally::default();
        for key in keys {
            tally = tally.plus(self.get_one(key)?);
        }
        Ok(tally)
    }

    fn change(&mut self, change: Change) -> Answer;

    /// Replaces the list by the first pairs from the low on.
    fn scan_from(&mut self, low: Key, limit: usize, list: &mut Pairs) -> Answer;
}

/// Makes the call that changes this, and tells its reply.
macro_rules! changed {
    ($worker:expr, $change:expr) => {
        Ok(match $change {
            Change::Put(key, value) => Tally::of_put($worker.put(key, value)?.reply),
            Change::Set(key, value) => Tally::of_set($worker.set(key, value)?.reply),
            Change::Delete(key) => Tally::of_delete($worker.delete(key)?.reply),
        })
    };
}

/// A worker of a tree, alone or one of several.
#[derive(Drop)]
pub(crate) struct ByCalls<'w, W> {
    pub worker: &'w mut W,
}

impl<'w, W: Calls<Global>> Index for ByCalls<'w, W> {
    fn get_one(&mut self, key: Key) -> Answer {
        Ok(Tally::of_get(self.worker.get(key)?))
    }

    #[inline(always)]
    fn change(&mut self, change: Change) -> Answer {
        changed!(self.worker, change)
    }

    fn scan_from(&mut self, low: Key, limit: usize, list: &mut Pairs) -> Answer {
        let machine = self.worker.alloc();
        let mut pairs = Vec::with_capacity(machine, 2 * SCANNED)?;
        let mut key = low;
        'leaves: while pairs.len() < limit {
            let slice = self.worker.page_from(machine, key)?;
            pairs.extend_from_slice(slice.pairs.as_slice())?;
            let Some(next) = slice.next else { break };
            key = next;
        }
        pairs.truncate(limit);
        *list = pairs;
        Ok(Tally::of_scan(list))
    }
}

impl Index for Map<Global> {
    fn get_one(&mut self, key: Key) -> Answer {
        Ok(Tally::of_get(self.get(key)))
    }

    fn get_eight(&mut self, keys: [Key; 8]) -> Answer {
        Ok(Tally::of_eight(self.get_many(keys)))
    }

    #[inline(always)]
    fn change(&mut self, change: Change) -> Answer {
        changed!(self, change)
    }

    fn scan_from(&mut self, low: Key, limit: usize, list: &mut Pairs) -> Answer {
        let mut pairs = Vec::with_capacity(*list.allocator(), SCANNED)?;
        for pair in self.range(low..) {
            if pairs.len() >= limit {
                break;
            }
            pairs.push(pair)?;
        }
        *list = pairs;
        Ok(Tally::of_scan(list))
    }
}

impl<'b, H: ForestHand> Index for ForestWorker<'b, H> {
    fn get_one(&mut self, key: Key) -> Answer {
        Ok(Tally::of_get(self.get(key)?))
    }

    #[inline(always)]
    fn change(&mut self, change: Change) -> Answer {
        changed!(self, change)
    }

    fn scan_from(&mut self, low: Key, limit: usize, list: &mut Pairs) -> Answer {
        list.clear();
        self.scan(low, limit, list)?;
        Ok(Tally::of_scan(list))
    }
}
