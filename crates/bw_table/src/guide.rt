//! A guide to the leaves: where each of them ended when it was noted, and its page. It leads a search
//! straight to the leaf of its key. It is a hint and no part of the table's value, so a leaf is asked
//! before it is believed.

ghost use Rattle.std.specs.Prelude.{◌≡◌, ◌≤◌, IfSome};
ghost use Rattle.bw_law.specs.Tables.{slot_at};
ghost use Rattle.bw_table.specs.InPlaces.{IsPostedLeaf};

use crate::link::NO_PAGE;
use crate::slot::Slot;
use crate::table::Table;
use bw_delta::{Base, Chain, Entries, Node};
use bw_keys::{Key, MAX_LEVEL, Pid};
use std::alloc::{AllocError, Allocator, Global};

/// A leaf as it was when the guide was made.
#[derive(Clone, Copy)]
struct Signpost {
    /// The least key past the leaf, or the greatest key for the last leaf.
    end: Key,
    page: u32,
    /// How many leaves end before the bucket that has the signpost's number.
    start: u32,
}

impl Signpost {
    /// 1 if the leaf ends at or below the key, and 0 if not: a number to count by without a branch.
    #[inline(always)]
    fn passed_by(&self, key: Key) -> usize
        ensures { result ≤ 1 }
    {
        if self.end <= key { 1 } else { 0 }
    }
}

/// Signposts to the leaves, with a bucket of keys for each, and what changed since they were set up.
#[derive(Drop)]
pub(crate) struct Guide {
    // The leaves in their order. The last one stands there again for the comparisons past it.
    signposts: Vec<Signpost>,
    // Where the first bucket begins. It takes the lesser keys, too.
    low: Key,
    // Two to the power of this is the width of a bucket.
    shift: u32,
    // How many pages came and went since the guide was made.
    changes: u32,
    // How many pages are in the middle of a split or a removal.
    unfinished: u32,
}

/// How many leaves that end in a bucket a search passes at once. Few buckets have more.
const AT_ONCE: usize = 3;

impl Guide {
    /// Makes a guide that leads nowhere. It takes no memory.
    pub(crate) fn new(machine: Global) -> Guide {
        Guide {
            signposts: Vec::new(machine),
            low: 0,
            shift: 0,
            changes: 0,
            unfinished: 0,
        }
    }

    /// Notes that a page is in the middle of a split or a removal.
    #[inline(always)]
    pub(crate) fn note_unfinished(&mut self) {
        self.unfinished = self.unfinished.saturating_add(1);
    }

    /// Whether no page at all is in the middle of a split or a removal.
    #[inline(always)]
    pub(crate) fn is_at_rest(&self) -> bool {
        self.unfinished == 0
    }

    /// The page that was noted for the key, or the id of no page.
    #[inline(always)]
    fn page_for(&self, key: Key) -> Pid {
        let signposts = self.signposts.as_slice();
        let bucket = self.bucket_of(key);
        let Some(first) = signposts.get(bucket) else {
            return self.last_page();
        };
        let start = first.start as usize;
        let Some(next) = signposts.get(start + AT_ONCE) else {
            return self.search(bucket, key);
        };
        if next.end <= key {
            return self.search(bucket, key);
        }
        let passed = signposts[start].passed_by(key)
            + signposts[start + 1].passed_by(key)
            + signposts[start + 2].passed_by(key);
        Pid(signposts[start + passed].page)
    }

    /// The number of the key's bucket. Past the last bucket there are more numbers.
    #[inline(always)]
    fn bucket_of(&self, key: Key) -> usize {
        key.saturating_sub(self.low).wrapping_shr(self.shift) as usize
    }

    /// The page of the last leaf, or the id of no page.
    fn last_page(&self) -> Pid {
        match self.signposts.last() {
            Some(last) => Pid(last.page),
            None => Pid(NO_PAGE),
        }
    }

    /// Does what [`Guide::page_for`] does, in a bucket where many leaves end.
    #[inline(never)]
    fn search(&self, bucket: usize, key: Key) -> Pid {
        let start = self.start_of(bucket);
        let passed = match self
            .signposts
            .get(start..self.start_of(bucket.wrapping_add(1)))
        {
            Some(inside) => inside.partition_point(|leaf| leaf.end <= key),
            None => 0,
        };
        match self.signposts.get(start.wrapping_add(passed)) {
            Some(leaf) => Pid(leaf.page),
            None => self.last_page(),
        }
    }

    fn start_of(&self, bucket: usize) -> usize {
        match self.signposts.get(bucket) {
            Some(signpost) => signpost.start as usize,
            None => self.signposts.len(),
        }
    }

    /// Gives the memory back, and leads nowhere.
    fn forget(&mut self) {
        self.signposts = Vec::new(*self.signposts.allocator());
        self.changes = 0;
    }

    /// Leads to these leaves from now on. The first leaf and the last may be wide, so the buckets
    /// begin where the first one ends, and end where the last one begins.
    fn lead_to(&mut self, leaves: Vec<Signpost>) {
        let count = leaves.len();
        self.signposts = leaves;
        let (Some(first), Some(before_last), Some(last)) = (
            self.signposts.first(),
            self.signposts.get(count.wrapping_sub(2)),
            self.signposts.last(),
        ) else {
            return;
        };
        let last = *last;
        let span = before_last.end.saturating_sub(first.end);
        self.low = first.end;
        self.shift = width_of(span, count);
        match self.signposts.resize(count.saturating_add(AT_ONCE), last) {
            Ok(()) => self.fill_buckets(),
            Err(_) => self.forget(),
        }
    }

    /// Notes for each bucket how many leaves end before it.
    fn fill_buckets(&mut self) {
        for place in 0..self.signposts.len() {
            self.count_in_bucket(place);
        }
        add_up(&mut self.signposts);
    }

    /// Counts the leaf in the bucket where it ends.
    fn count_in_bucket(&mut self, place: usize) {
        let Some(leaf) = self.signposts.get(place) else {
            return;
        };
        let bucket = self.bucket_of(leaf.end);
        if let Some(first) = self.signposts.get_mut(bucket) {
            first.start = first.start.wrapping_add(1);
        }
    }

    /// Whether so many leaves changed that it often leads astray.
    #[inline(always)]
    fn is_stale(&self) -> bool {
        self.changes as usize > self.signposts.len() / 16
    }
}

/// The width of buckets, as a power of two, by which no more than so many span the keys.
fn width_of(span: u64, count: usize) -> u32 {
    match span.checked_div(count as u64) {
        Some(share) if share > 0 => share.ilog2() + 1,
        _ => 0,
    }
}

/// Puts in place of each count the sum of those before it.
fn add_up(signposts: &mut Vec<Signpost>) {
    let mut sum: u32 = 0;
    for signpost in signposts.iter_mut() {
        let count = signpost.start;
        signpost.start = sum;
        sum = sum.wrapping_add(count);
    }
}

impl<A: Allocator + Copy> Table<A> {
    /// The posted leaf whose range holds the key, if the guide leads to it or to its left neighbour.
    #[inline(always)]
    pub(crate) fn guided(&self, key: Key) -> Option<Pid>
        ensures { IfSome result (λ page. IsPostedLeaf (slot_at self.now page.0) key) }
    {
        let page = self.guide.page_for(key);
        let slot = self.slot(page)?;
        if slot.is_posted_leaf(key) {
            return Some(page);
        }
        self.guided_right(slot, key)
    }

    /// The leaf on the right of the slot, if it is posted and its range holds the key, as after a
    /// split.
    #[inline(never)]
    fn guided_right(&self, slot: &Slot<A>, key: Key) -> Option<Pid>
        ensures { IfSome result (λ page. IsPostedLeaf (slot_at self.now page.0) key) }
    {
        let right = slot.right()?;
        if !self.slot(right)?.is_posted_leaf(key) {
            return None;
        }
        Some(right)
    }

    /// Notes that the split or the removal of a page has ended.
    #[inline(always)]
    pub(crate) fn page_finished(&mut self)
        ensures { self.new ≡ self.old }
    {
        self.guide.unfinished = self.guide.unfinished.saturating_sub(1);
        self.pages_changed();
    }

    /// Notes that a page came or went. After many such changes the guide is made anew.
    #[inline(always)]
    pub(crate) fn pages_changed(&mut self)
        ensures { self.new ≡ self.old }
    {
        self.guide.changes = self.guide.changes.saturating_add(1);
        if self.guide.is_stale() {
            self.make_guide();
        }
    }

    /// Makes the guide anew. Without memory for it, it leads nowhere.
    #[inline(never)]
    fn make_guide(&mut self)
        ensures { self.new ≡ self.old }
    {
        self.guide.forget();
        let Ok(leaves) = self.noted_leaves() else {
            return;
        };
        self.guide.lead_to(leaves);
    }

    /// The leaves to which the pages above them lead, from the left on, with room for all that the
    /// guide takes.
    fn noted_leaves(&self) -> Result<Vec<Signpost>, AllocError> {
        let pages = self.slots.len().saturating_sub(self.free.len());
        let machine = *self.guide.signposts.allocator();
        let mut leaves = Vec::with_capacity(machine, pages.saturating_add(AT_ONCE))?;
        let mut above = self.first_above_leaves();
        for _ in 0..pages {
            let Some(slot) = above else {
                return Ok(leaves);
            };
            note_leaves(&mut leaves, slot)?;
            above = self.right_of(slot);
        }
        Ok(leaves)
    }

    /// The first page above the leaves, unless the root is a leaf.
    fn first_above_leaves(&self) -> Option<&Slot<A>> {
        let mut page = Pid(self.root);
        for _ in 0..MAX_LEVEL {
            let slot = self.slot(page)?;
            if slot.level == 1 {
                return Some(slot);
            }
            page = slot.route_at(0)?;
        }
        None
    }

    fn right_of(&self, slot: &Slot<A>) -> Option<&Slot<A>> {
        self.slot(slot.right()?)
    }
}

/// Notes the leaves to which the routes of the page's base page lead. The records above it may say
/// otherwise.
fn note_leaves<A: Allocator + Copy>(
    leaves: &mut Vec<Signpost>,
    slot: &Slot<A>,
) -> Result<(), AllocError> {
    let Some(chain) = slot.chain() else {
        return Ok(());
    };
    let Entries::Routes(routes) = &lowest_base(chain).entries else {
        return Ok(());
    };
    let routes = routes.as_slice();
    for place in 0..routes.len() {
        let (low, page) = routes.entry(place);
        if slot.high().is_above(low) {
            note_leaf(leaves, low, page)?;
        }
    }
    Ok(())
}

/// Notes a leaf, before which the one before it ends.
fn note_leaf(leaves: &mut Vec<Signpost>, low: Key, page: Pid) -> Result<(), AllocError> {
    if let Some(before) = leaves.last_mut() {
        before.end = low;
    }
    let leaf = Signpost {
        end: Key::MAX,
        page: page.0,
        start: 0,
    };
    leaves.push(leaf)?;
    Ok(())
}

/// The base page below all records, on the left where pages were merged.
fn lowest_base<A: Allocator>(chain: &Chain<A>) -> &Base<A> {
    match &chain.node {
        Node::Bare(base) => base,
        Node::Above(_, below) | Node::Merged(_, below, _) => lowest_base(below),
    }
}
