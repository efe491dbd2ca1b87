ghost use Rattle.std.specs.Prelude.{◌≡◌, ◌↔◌, [], Err, None, IfOk, IsTrue, false};
ghost use Rattle.bw_keys.specs.declared.range.Fence.TheVariants.{Top};
ghost use Rattle.bw_keys.specs.Ranges.{end_of};
ghost use Rattle.bw_delta.specs.Entries.{rises};
ghost use Rattle.bw_delta.specs.declared.fault.BaseFault.TheVariants.{BadEntries};
ghost use Rattle.bw_delta.specs.Pages.{leaf_page, inner_page, is_page, lists_pairs, listed_length};

use crate::entry_list::EntryList;
use crate::fault::{BaseFault, NoMemory};
use bw_keys::{Fence, FenceWord, Key, Pid};
use std::alloc::Allocator;
use std::marker::Model;

/// A base page: the pairs of a leaf or the routes of an inner page, with strictly rising keys
/// inside its range.
#[derive(Drop)]
pub struct Base<A: Allocator> {
    pub entries: Entries<A>,
    /// The least key of the range.
    pub low: Key,
    /// Where the range ends.
    pub high: FenceWord,
    /// The page to the right, if there is one.
    pub right: Option<Pid>,
}

/// What a base page lists.
#[derive(Drop)]
pub enum Entries<A: Allocator> {
    /// The keys and values of a leaf.
    Pairs(EntryList<u64, A>),
    /// The separators of an inner page, each with the page that is searched from it on.
    Routes(EntryList<Pid, A>),
}

impl<A: Allocator> Model for Base<A> {
    ghost use Rattle.bw_delta.specs.Pages.{Page, IsPage};
    ghost use Rattle.bw_delta.specs.Codes.{page_code};

    ghost Value = { Page };

    ghost coded = { page_code };

    ghost use Rattle.bw_delta.specs.PageView.{page_of};

    ghost view = { λ b. page_of b.low b.high b.right b.entries };

    ghost invariant = { λ b. IsPage (page_of b.low b.high b.right b.entries) };
}

impl<A: Allocator + Copy> Base<A> {
    /// Makes the leaf of all keys that has no pairs. It takes no memory.
    pub fn empty(alloc: A) -> Base<A>
        ensures { result ≡ leaf_page 0 Top None [] }
    {
        Base {
            low: 0,
            high: FenceWord::new(Fence::Top),
            right: None,
            entries: Entries::Pairs(EntryList::new(alloc)),
        }
    }

    /// Makes a leaf of these pairs.
    pub fn leaf(
        alloc: A,
        low: Key,
        high: Fence,
        right: Option<Pid>,
        entries: &[(Key, u64)],
    ) -> Result<Base<A>, BaseFault>
        ensures ok { IfOk result (λ base. base ≡ leaf_page low high right entries.now) }
        ensures bad { (result ≡ Err BadEntries)
            ↔ (is_page (leaf_page low high right entries.now) ≡ false) }
    {
        if !high.is_above(low) || !rises_inside(low, high, entries) {
            return Err(BaseFault::BadEntries);
        }
        let Ok(pairs) = EntryList::from_entries(alloc, entries) else {
            return Err(BaseFault::NoMemory);
        };
        Ok(Base {
            low,
            high: FenceWord::new(high),
            right,
            entries: Entries::Pairs(pairs),
        })
    }

    /// Makes an inner page of these routes.
    pub fn inner(
        alloc: A,
        low: Key,
        high: Fence,
        right: Option<Pid>,
        entries: &[(Key, Pid)],
    ) -> Result<Base<A>, BaseFault>
        ensures ok { IfOk result (λ base. base ≡ inner_page low high right entries.now) }
        ensures bad { (result ≡ Err BadEntries)
            ↔ (is_page (inner_page low high right entries.now) ≡ false) }
    {
        if !high.is_above(low) || !rises_inside(low, high, entries) {
            return Err(BaseFault::BadEntries);
        }
        let Ok(routes) = EntryList::from_entries(alloc, entries) else {
            return Err(BaseFault::NoMemory);
        };
        Ok(Base {
            low,
            high: FenceWord::new(high),
            right,
            entries: Entries::Routes(routes),
        })
    }

    /// Reports whether this is a leaf's base.
    pub fn is_leaf(&self) -> bool
        ensures { result ≡ lists_pairs self.now.listed }
    {
        match &self.entries {
            Entries::Pairs(_) => true,
            Entries::Routes(_) => false,
        }
    }

    /// Returns the number of entries.
    pub fn len(&self) -> usize
        ensures { result ≡ listed_length self.now.listed }
    {
        match &self.entries {
            Entries::Pairs(pairs) => pairs.len(),
            Entries::Routes(routes) => routes.len(),
        }
    }

    /// Reports whether the base has no entries.
    pub fn is_empty(&self) -> bool
        ensures { IsTrue result ↔ (listed_length self.now.listed ≡ 0) }
    {
        self.len() == 0
    }

    /// Returns an equal base with memory of its own.
    pub fn copy_in(&self, alloc: A) -> Result<Base<A>, NoMemory>
        ensures { IfOk result (λ copy. copy ≡ self.now) }
    {
        let entries = match &self.entries {
            Entries::Pairs(pairs) => Entries::Pairs(EntryList::copied(alloc, pairs.as_slice(), 0)?),
            Entries::Routes(routes) => Entries::Routes(EntryList::copied(
                alloc,
                routes.as_slice(),
                0,
            )?),
        };
        Ok(Base {
            low: self.low,
            high: self.high,
            right: self.right,
            entries,
        })
    }
}

/// Reports whether the keys rise strictly from `low` on, and stay below `high`.
fn rises_inside<X>(low: Key, high: Fence, entries: &[(Key, X)]) -> bool
    ensures { result ≡ rises low (end_of high) entries.now }
{
    let mut last: Option<Key> = None;
    for (key, _) in entries {
        let follows = match last {
            None => low <= *key,
            Some(last) => last < *key,
        };
        if !follows || !high.is_above(*key) {
            return false;
        }
        last = Some(*key);
    }
    true
}
