//! A worker of a forest, with a hand on each tree.

ghost use Rattle.std.specs.Prelude.{◌≡◌, length};
ghost use Rattle.bw_procedures.specs.Facts.{quiet};
ghost use Rattle.bw_procedures.specs.Writes.{Puts, Sets, Deletes};
ghost use Rattle.bw_work.specs.Calls.{Gets};
ghost use Rattle.nifforan_forest.specs.Calls.{IsOfOne};
ghost use Rattle.nifforan_forest.specs.Workers.{ArePlaced};

use crate::hand::ForestHand;
use bw_forest::Bounds;
use bw_keys::Key;
use bw_procedures::{Del, Done, Fault, Put, Set};

/// A worker of a forest: it has a hand on each of the trees, in the order of their ranges.
///
/// A call on one key is a call on the one tree whose range holds the key, as
/// [`Calls`](bw_procedures::Calls) describes it, and leaves the hands on all other trees as they
/// were. Steps of other workers may come between any two steps of a call.
///
/// After a fault in place of a reply, the map is as the call found it, and the worker may go on.
#[derive(Drop)]
pub struct ForestWorker<'b, H: ForestHand> {
    pub(crate) bounds: &'b Bounds,
    pub(crate) hands: Vec<H>,
    ghost each: { length hands.items ≡ length bounds.now },
    ghost divided: { bounds.now ≡ H.bounds },
    ghost placed: { ArePlaced H.range H.bounds hands.items },
}

impl<'b, H: ForestHand> ForestWorker<'b, H> {
    /// Inserts the pair, unless the key has a value, which it returns, as
    /// [`put`](bw_procedures::Calls::put) does.
    #[inline(always)]
    pub fn put(&mut self, key: Key, value: u64) -> Result<Done<Put>, Fault>
        ensures write { IsOfOne H.bounds H.range key H.follows
            (λ old new. Puts key value result (H.seen old) (H.seen new))
            self.old.hands.items self.new.hands.items }
    {
        let tree = self.bounds.tree_of(key);
        self.hands[tree].put(key, value)
    }

    /// Sets the key to the value, and returns the value that it had, if it had one, as
    /// [`set`](bw_procedures::Calls::set) does.
    #[inline(always)]
    pub fn set(&mut self, key: Key, value: u64) -> Result<Done<Set>, Fault>
        ensures write { IsOfOne H.bounds H.range key H.follows
            (λ old new. Sets key value result (H.seen old) (H.seen new))
            self.old.hands.items self.new.hands.items }
    {
        let tree = self.bounds.tree_of(key);
        self.hands[tree].set(key, value)
    }

    /// Deletes the key, and returns its value, if it had one, as
    /// [`delete`](bw_procedures::Calls::delete) does.
    #[inline(always)]
    pub fn delete(&mut self, key: Key) -> Result<Done<Del>, Fault>
        ensures write { IsOfOne H.bounds H.range key H.follows
            (λ old new. Deletes key result (H.seen old) (H.seen new))
            self.old.hands.items self.new.hands.items }
    {
        let tree = self.bounds.tree_of(key);
        self.hands[tree].delete(key)
    }

    /// Returns the key's value, if it has one, as [`get`](bw_procedures::Calls::get) does.
    #[inline(always)]
    pub fn get(&mut self, key: Key) -> Result<Option<u64>, Fault>
        ensures gets { IsOfOne H.bounds H.range key H.follows
            (λ old new. Gets key (H.calm old quiet) result (H.seen old) (H.seen new))
            self.old.hands.items self.new.hands.items }
    {
        let tree = self.bounds.tree_of(key);
        self.hands[tree].get(key)
    }
}
