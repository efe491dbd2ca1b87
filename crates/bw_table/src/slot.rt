ghost use Rattle.std.specs.Prelude.{◌≡◌, ◌+◌, ◌<◌, ◌==◌, ◌&&◌, true, Some, None, IfSome, is_some, option_copied, option_map};
ghost use Rattle.bw_keys.specs.Ranges.{end_of, is_within};
ghost use Rattle.bw_delta.specs.Entries.{at, below, first_from, from, last_upto, last_below};
ghost use Rattle.bw_delta.specs.Pages.{upper_part};
ghost use Rattle.bw_delta.specs.Records.{depth};
ghost use Rattle.bw_delta.specs.Slices.{list_of};
ghost use Rattle.bw_delta.specs.Sound.{IsSound, page_for};
ghost use Rattle.bw_step.specs.Stages.{is_in_row};
ghost use Rattle.bw_law.specs.Same.{is_same_page};
ghost use Rattle.bw_law.specs.Slots.{free_slot, chain_in, pairs_in, routes_in};
ghost use Rattle.bw_law.specs.Tables.{first_slot, is_leaf_in_row};
ghost use Rattle.bw_law.specs.Refusals.{is_full, is_worn, is_other_kind};
ghost use Rattle.bw_table.specs.Gets.{page_of};
ghost use Rattle.bw_table.specs.SlotFacts.{HasSoundChain, is_later_key, kept_from, summary_of};
ghost use Rattle.bw_table.specs.Views.{view_of};
ghost use Rattle.bw_table.specs.Visits.{is_there, own_todo};

use crate::link::Link;
use bw_chain::{
    child, child_page, find, is_later_key, is_upper_part, next_at, pairs_within, previous_at,
    route_at, route_before, same,
};
use bw_delta::{Base, Chain, EntrySlice};
use bw_keys::{Fence, FenceWord, Key, MAX_DEPTH, Pid, Range, Version};
use bw_step::{Place, Stage, Summary, Todo, View};
use std::alloc::{Allocator, Global};
use std::marker::Model;

/// An entry of the mapping table: what is kept of a page beside its chain, and the chain. All that calls
/// read of it lies in front: the chain of a page without records begins with the lists of its base, and
/// ends with the base's own range, which no search reads.
#[derive(Drop)]
pub(crate) struct Slot<A: Allocator> {
    /// Where the range ends.
    pub(crate) high: FenceWord,
    /// The page to the right, if there is one.
    pub(crate) right: Link,
    pub(crate) level: u8,
    /// How many records stand above a base, along the deepest path.
    pub(crate) depth: u8,
    pub(crate) stage: Stage,
    pub(crate) version: u64,
    /// How many pairs a leaf has, or routes an inner page.
    pub(crate) count: u64,
    /// The least key of the range.
    pub(crate) low: Key,
    /// The chain of a page in a row. An empty base, which takes no memory, stands in its place where there
    /// is none.
    pub(crate) chain: Chain<A>,
}

impl<A: Allocator> Model for Slot<A> {
    ghost use Rattle.bw_law.specs.Slots.{SlotValue};
    ghost use Rattle.bw_table.specs.Codes.{slot_code};

    ghost Value = { SlotValue };

    ghost coded = { slot_code };

    ghost use Rattle.bw_table.specs.Fields.{chain_there};

    ghost view = { λ s. record {
      version = s.version;
      stage = s.stage;
      low = s.low;
      high = s.high;
      right = s.right;
      level = s.level;
      count = s.count;
      depth = s.depth;
      chain = chain_there s.stage s.chain;
    } };
}

/// The bytes that an entry of the mapping table takes, with the newest link of its chain.
pub const SLOT_BYTES: u64 = size_of::<Slot<Global>>() as u64;

/// What is kept of a page without records, beside its base.
#[derive(Clone, Copy)]
pub(crate) struct Kept {
    pub(crate) low: Key,
    pub(crate) high: FenceWord,
    pub(crate) right: Link,
    pub(crate) level: u8,
    pub(crate) count: u64,
}

impl<A: Allocator + Copy> Slot<A> {
    /// A slot of no page.
    pub(crate) fn free(alloc: A, version: u64) -> Slot<A>
        ensures { result ≡ free_slot version }
    {
        Slot {
            high: FenceWord::new(Fence::Top),
            right: Link::none(),
            level: 0,
            depth: 0,
            stage: Stage::Free,
            version,
            count: 0,
            low: 0,
            chain: Chain::bare(Base::empty(alloc)),
        }
    }

    /// The slot of an empty leaf for all keys.
    pub(crate) fn first(alloc: A, version: u64) -> Slot<A>
        ensures { result ≡ first_slot version }
    {
        Slot {
            high: FenceWord::new(Fence::Top),
            right: Link::none(),
            level: 0,
            depth: 0,
            stage: Stage::Posted,
            version,
            count: 0,
            low: 0,
            chain: Chain::bare(Base::empty(alloc)),
        }
    }

    /// Where the range ends.
    #[inline(always)]
    pub(crate) fn high(&self) -> Fence
        ensures { result ≡ self.now.high }
    {
        self.high.fence()
    }

    /// The page to the right, if there is one.
    #[inline(always)]
    pub(crate) fn right(&self) -> Option<Pid>
        ensures { result ≡ self.now.right }
    {
        self.right.page()
    }

    /// The chain of the page, if it is in a row.
    #[inline(always)]
    pub(crate) fn chain(&self) -> Option<&Chain<A>>
        ensures chain { option_copied result ≡ self.now.chain }
        ensures row { is_some result ≡ is_in_row self.now.stage }
    {
        if self.stage.is_in_row() {
            Some(&self.chain)
        } else {
            None
        }
    }

    /// The chain of a page in a row.
    #[inline(always)]
    pub(crate) fn own_chain(&self) -> &Chain<A>
        requires in_row { is_in_row self.now.stage ≡ true }
        requires sound { HasSoundChain self.now }
        ensures chain { self.now.chain ≡ Some result.now }
        ensures sound { IsSound result.now }
    {
        &self.chain
    }

    /// What is kept of the part from the separator on, which has this many entries.
    pub(crate) fn kept_from(&self, separator: Key, count: u64) -> Kept
        ensures { result ≡ kept_from separator count self.now }
    {
        Kept {
            low: separator,
            high: self.high,
            right: self.right,
            level: self.level,
            count,
        }
    }

    /// What is kept of the page beside its chain.
    pub(crate) fn summary(&self) -> Summary
        ensures { result ≡ summary_of self.now }
    {
        Summary {
            count: self.count,
            low: self.low,
            right: self.right(),
            high: self.high(),
            depth: self.depth,
            level: self.level,
        }
    }

    /// The page as callers see it.
    #[inline(always)]
    pub(crate) fn view(&self, pid: Pid) -> View
        ensures { result ≡ view_of pid self.now }
    {
        View {
            pid,
            version: Version(self.version),
            stage: self.stage,
            low: self.low,
            high: self.high(),
            right: self.right(),
            level: self.level,
            count: self.count,
            depth: self.depth,
        }
    }

    /// Whether the range of the page holds the key.
    #[inline(always)]
    pub(crate) fn holds(&self, key: Key) -> bool
        ensures { result ≡ is_within self.now.low self.now.high key }
    {
        let range = Range {
            low: self.low,
            high: self.high(),
        };
        range.holds(key)
    }

    /// Whether this is a leaf in its row.
    #[inline(always)]
    pub(crate) fn is_leaf_in_row(&self) -> bool
        ensures { result ≡ is_leaf_in_row self.now }
    {
        self.stage.is_in_row() && self.level == 0
    }

    /// Whether the other page is on the level below.
    pub(crate) fn is_above(&self, under: &Slot<A>) -> bool
        ensures { result ≡ (self.now.level == under.now.level + 1) }
    {
        u16::from(self.level) == u16::from(under.level) + 1
    }

    /// Whether no further record may stand on the chain.
    #[inline(always)]
    pub(crate) fn is_full(&self) -> bool
        ensures { result ≡ is_full self.now }
    {
        self.depth >= MAX_DEPTH
    }

    /// Whether the version can't rise any more.
    #[inline(always)]
    pub(crate) fn is_worn(&self) -> bool
        ensures { result ≡ is_worn self.now }
    {
        self.version == u64::MAX
    }

    /// The value at a key.
    #[inline(always)]
    pub(crate) fn find(&self, key: Key) -> Option<u64>
        ensures { result ≡ at key (pairs_in self.now) }
    {
        match self.chain() {
            Some(chain) => find(chain, key),
            None => None,
        }
    }

    /// The pair with the least key at or above the key.
    pub(crate) fn next_at(&self, key: Key) -> Option<(Key, u64)>
        requires in_row { is_in_row self.now.stage ≡ true }
        requires sound { HasSoundChain self.now }
        ensures { result ≡ first_from key (pairs_in self.now) }
    {
        next_at(self.own_chain(), key)
    }

    /// The pairs from the key on and below the end, which lie side by side; none if a record stands on
    /// the page.
    #[inline(always)]
    pub(crate) fn pairs_within(&self, key: Key, end: Fence) -> Option<EntrySlice<'_, u64>>
        requires in_row { is_in_row self.now.stage ≡ true }
        requires sound { HasSoundChain self.now }
        ensures all { IfSome result (λ run.
            list_of run ≡ below (end_of end) (from key (pairs_in self.now))) }
        ensures records { result ≡ None → 0 < depth (chain_in self.now) }
    {
        pairs_within(self.own_chain(), key, end)
    }

    /// The pair with the greatest key at or below the key.
    pub(crate) fn previous_at(&self, key: Key) -> Option<(Key, u64)>
        requires in_row { is_in_row self.now.stage ≡ true }
        requires sound { HasSoundChain self.now }
        ensures { result ≡ last_upto key (pairs_in self.now) }
    {
        previous_at(self.own_chain(), key)
    }

    /// The page that is routed at the separator.
    pub(crate) fn route_at(&self, separator: Key) -> Option<Pid>
        ensures { result ≡ at separator (routes_in self.now) }
    {
        match self.chain() {
            Some(chain) => route_at(chain, separator),
            None => None,
        }
    }

    /// The route with the greatest separator at or below the key.
    #[inline(always)]
    pub(crate) fn child(&self, key: Key) -> Option<(Key, Pid)>
        requires in_row { is_in_row self.now.stage ≡ true }
        requires sound { HasSoundChain self.now }
        ensures { result ≡ last_upto key (routes_in self.now) }
    {
        child(self.own_chain(), key)
    }

    /// The page of that route alone.
    #[inline(always)]
    pub(crate) fn child_page(&self, key: Key) -> Option<Pid>
        requires in_row { is_in_row self.now.stage ≡ true }
        requires sound { HasSoundChain self.now }
        ensures { result ≡ option_map page_of (last_upto key (routes_in self.now)) }
    {
        child_page(self.own_chain(), key)
    }

    /// The route with the greatest separator strictly below the key.
    pub(crate) fn route_before(&self, key: Key) -> Option<(Key, Pid)>
        requires in_row { is_in_row self.now.stage ≡ true }
        requires sound { HasSoundChain self.now }
        ensures { result ≡ last_below key (routes_in self.now) }
    {
        route_before(self.own_chain(), key)
    }

    /// Whether the page is there as the place says, on a search for the key down to the goal.
    #[inline(always)]
    pub(crate) fn is_there(&self, place: Place, key: Key, goal: u8) -> bool
        ensures { result ≡ is_there self.now place key goal }
    {
        self.stage.is_in_row()
            && self.level == place.level
            && goal <= self.level
            && place.from <= self.low
            && self.low <= key
    }

    /// What the stage of the page, which has the id, asks for.
    #[inline(always)]
    pub(crate) fn todo(&self, pid: Pid) -> Option<Todo>
        ensures { result ≡ own_todo self.now.stage pid }
    {
        match self.stage {
            Stage::Marked => Some(Todo::Merge(pid)),
            Stage::Unposted => Some(Todo::Post(pid)),
            Stage::Free | Stage::Posted | Stage::Merged => None,
        }
    }

    /// Whether the base is of another kind than pages of this level.
    pub(crate) fn is_other_kind(&self, base: &Base<A>) -> bool
        ensures { result ≡ is_other_kind base.now self.now }
    {
        if base.is_leaf() {
            self.level > 0
        } else {
            self.level == 0
        }
    }

    /// Whether the separator is the key of an entry that isn't the first.
    pub(crate) fn is_later_key(&self, separator: Key) -> bool
        requires in_row { is_in_row self.now.stage ≡ true }
        requires sound { HasSoundChain self.now }
        ensures { result ≡ is_later_key self.now separator }
    {
        is_later_key(self.own_chain(), separator)
    }

    /// Whether the base lists just what the chain does.
    pub(crate) fn is_same_as(&self, base: &Base<A>) -> bool
        requires in_row { is_in_row self.now.stage ≡ true }
        requires sound { HasSoundChain self.now }
        ensures { result ≡ is_same_page base.now (page_for (chain_in self.now)) }
    {
        is_consolidated(base, self.own_chain())
    }

    /// Whether the base lists just what the chain does from the separator on.
    pub(crate) fn has_upper_part(&self, base: &Base<A>, separator: Key) -> bool
        requires in_row { is_in_row self.now.stage ≡ true }
        requires sound { HasSoundChain self.now }
        ensures { result
            ≡ is_same_page base.now (upper_part separator (page_for (chain_in self.now))) }
    {
        is_split_off(base, self.own_chain(), separator)
    }
}

fn is_consolidated<A: Allocator + Copy>(base: &Base<A>, chain: &Chain<A>) -> bool
    requires sound { IsSound chain.now }
    ensures { result ≡ is_same_page base.now (page_for chain.now) }
{
    same(base, chain)
}

fn is_split_off<A: Allocator + Copy>(base: &Base<A>, chain: &Chain<A>, separator: Key) -> bool
    requires sound { IsSound chain.now }
    ensures { result ≡ is_same_page base.now (upper_part separator (page_for chain.now)) }
{
    is_upper_part(base, chain, separator)
}
