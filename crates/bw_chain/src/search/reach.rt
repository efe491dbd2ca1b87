ghost use Rattle.std.specs.Prelude.{◌≡◌, ℕ, List, None, true, false};
ghost use Rattle.bw_delta.specs.Slices.{list_of};
ghost use Rattle.bw_chain.specs.Ascends.{IsAscending};
ghost use Rattle.bw_chain.specs.Changes.{changed};
ghost use Rattle.bw_chain.specs.Searching.Reaches.{is_open, GoesOn, IsGreatest};

use crate::entries::bounds::past;
use crate::entries::change::Change;
use crate::entries::sorted::last_listed;
use bw_delta::EntrySlice;
use bw_keys::Key;

/// How far a search for the greatest entry has come on its way down a chain.
#[derive(Clone, Copy)]
pub(crate) struct Reach<X> {
    /// The greatest key that the entry may have.
    pub(crate) upto: Key,
    /// The greatest entry that was found.
    pub(crate) best: Option<(Key, X)>,
}

impl<X: Copy> Reach<X> {
    /// Begins a search that has found nothing yet.
    #[inline(always)]
    pub(crate) fn new(upto: Key) -> Reach<X>
        ensures upto { result.upto ≡ upto }
        ensures none { result.best ≡ None }
    {
        Reach { upto, best: None }
    }

    /// Reports whether an entry at the key would be better than the best one.
    #[inline(always)]
    fn is_open(self, key: Key) -> bool
        ensures { result ≡ is_open self.upto self.best key }
    {
        key <= self.upto
            && match self.best {
                Some(best) => best.0 < key,
                None => true,
            }
    }

    /// Takes account of a change, and reports whether the search may go on below it. It may not go
    /// on below a deletion that could hide what it finds.
    #[inline(always)]
    pub(crate) fn passes(&mut self, change: Change<X>) -> bool
        ensures passed { result ≡ true → (es : List (ℕ × X)) →
            GoesOn self.old (changed change es) self.new es }
        ensures stopped { result ≡ false → self.new ≡ self.old }
    {
        match change {
            Change::Put(key, value) => {
                if self.is_open(key) {
                    self.best = Some((key, value));
                }
                true
            }
            Change::Below(bound) => match bound.checked_sub(1) {
                Some(last) => {
                    self.upto = self.upto.min(last);
                    true
                }
                None => false,
            },
            Change::Without(key) => !self.is_open(key),
            Change::Nothing => true,
        }
    }

    /// Returns the greatest entry, where only those of a base page are left.
    #[inline(always)]
    pub(crate) fn greatest(self, entries: EntrySlice<'_, X>) -> Option<(Key, X)>
        requires ascending { IsAscending (list_of entries) }
        ensures { IsGreatest self.upto self.best (list_of entries.entry) result }
    {
        match last_listed(entries, past(self.upto)) {
            Some(entry) => {
                if self.is_open(entry.0) {
                    Some(entry)
                } else {
                    self.best
                }
            }
            None => self.best,
        }
    }
}
