//! A plain map beside a tree.

use crate::ending::{Deviation, Ending};
use bw_audit::is_ascending;
use bw_keys::{Fence, Key};
use bw_work::{Act, Cleared, Del, Fault, Put, Reply, Set};

/// The keys of the trials are below this one.
pub(crate) const KEYS: usize = 16;

/// The value of each key. Takes no memory.
#[derive(Clone, Copy)]
pub(crate) struct Plain {
    values: [Option<u64>; KEYS],
}

impl Plain {
    pub(crate) const EMPTY: Plain = Plain {
        values: [None; KEYS],
    };

    pub(crate) fn get(&self, key: Key) -> Option<u64> {
        self.values
            .get(usize::try_from(key).ok()?)
            .copied()
            .flatten()
    }

    /// Sets the key to the value, or removes it, and returns what it had.
    fn change(&mut self, key: Key, value: Option<u64>) -> Option<u64> {
        let had = self.get(key);
        if let Ok(place) = usize::try_from(key) {
            if let Some(slot) = self.values.get_mut(place) {
                *slot = value;
            }
        }
        had
    }

    /// Removes the first keys of the range, at most `most`, and returns their number.
    fn clear(&mut self, low: Key, high: Fence, most: u64) -> u64 {
        let mut removed = 0u64;
        for key in 0..KEYS as u64 {
            if low <= key
                && Fence::Key(key) < high
                && removed < most
                && self.change(key, None).is_some()
            {
                removed += 1;
            }
        }
        removed
    }

    /// Puts the pair, and returns what a tree should reply.
    fn put(&mut self, key: Key, value: u64) -> Put {
        match self.get(key) {
            Some(old) => Put::Present(old),
            None => {
                self.change(key, Some(value));
                Put::Inserted
            }
        }
    }

    fn set(&mut self, key: Key, value: u64) -> Set {
        match self.change(key, Some(value)) {
            Some(old) => Set::Replaced(old),
            None => Set::Inserted,
        }
    }

    fn delete(&mut self, key: Key) -> Del {
        match self.change(key, None) {
            Some(old) => Del::Removed(old),
            None => Del::NoKey,
        }
    }

    /// Takes over the removal of a range, which may have ended early if memory was refused.
    fn take_clear(&mut self, low: Key, high: Fence, cleared: Cleared) -> bool {
        match cleared.fault {
            None => self.clear(low, high, u64::MAX) == cleared.removed,
            Some(_) => self.clear(low, high, cleared.removed) == cleared.removed,
        }
    }

    /// Takes over the act that a tree replied to, and returns whether memory was refused after the
    /// reply. Fails if it is another reply than this map's, or another fault.
    pub(crate) fn take(&mut self, act: Act, reply: Reply) -> Result<Ending, Deviation> {
        let (is_right, fault) = match (act, reply) {
            (Act::Put { key, value }, Reply::Put(done)) => {
                (self.put(key, value) == done.reply, done.fault)
            }
            (Act::Set { key, value }, Reply::Set(done)) => {
                (self.set(key, value) == done.reply, done.fault)
            }
            (Act::Delete { key }, Reply::Delete(done)) => {
                (self.delete(key) == done.reply, done.fault)
            }
            (Act::Clear { low, high }, Reply::Clear(cleared)) => {
                (self.take_clear(low, high, cleared), cleared.fault)
            }
            (Act::Get { key }, Reply::Get(found)) => (self.get(key) == found, None),
            _ => (false, None),
        };
        if !is_right {
            return Err(Deviation::Reply);
        }
        match fault {
            None => Ok(Ending::Whole),
            Some(Fault::NoMemory) => Ok(Ending::Refused),
            Some(_) => Err(Deviation::Fault),
        }
    }

    /// Returns how many keys have a value.
    pub(crate) fn len(&self) -> usize {
        let mut len = 0usize;
        for value in self.values {
            len = len.saturating_add(usize::from(value.is_some()));
        }
        len
    }

    /// Returns whether these are its pairs, in the order of their keys.
    pub(crate) fn has(&self, pairs: &[(Key, u64)]) -> bool {
        for (key, value) in pairs {
            if self.get(*key) != Some(*value) {
                return false;
            }
        }
        is_ascending(pairs) && pairs.len() == self.len()
    }
}
