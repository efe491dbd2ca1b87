//! A table in numbers.

ghost use Rattle.std.specs.Prelude.{◌≡◌, IfOk};
ghost use Rattle.bw_law.specs.Slots.{is_free};
ghost use Rattle.bw_law.specs.Tables.{pair_count, slot_at};
ghost use Rattle.bw_draw.specs.Figures.{IsStatsOf, free_below};
ghost use Rattle.bw_draw.specs.Pictures.{IsPictureOf};

mod memory;
mod pages;
mod spread;

use crate::pen::Pen;
use crate::picture::Picture;
use crate::stats::memory::{entry_bytes, link_bytes, stored_entries, stored_links};
use crate::stats::pages::{levels_of, pages_at, spread_in, spread_of_depths};
use bw_delta::NoMemory;
use bw_keys::Pid;
use bw_step::Stage;
use bw_table::{SLOT_BYTES, Table};
pub use spread::Spread;
use std::alloc::Global;

/// A table in numbers.
#[derive(Drop)]
pub struct Stats {
    /// The number of pages in the row of each level, from the leaves up.
    pub levels: Vec<usize>,
    /// The number of pairs in the map.
    pub pairs: u64,
    /// The number of slots in the mapping table.
    pub slots: u32,
    /// The number of slots without a page.
    pub free: u32,
    /// The number of pages that wait for their term.
    pub unposted: usize,
    /// The number of pages that wait for their merge.
    pub marked: usize,
    /// The number of merged pages that wait for the end of their term.
    pub merged: usize,
    /// The numbers of pairs of the leaves.
    pub leaves: Spread,
    /// The numbers of routes of the inner pages.
    pub inner: Spread,
    /// The numbers of records of the pages in rows, along the deepest path.
    pub records: Spread,
    /// The number of entries that the base pages list, with those that records have changed.
    pub stored: u64,
    /// The number of links of chains in boxes: one below each record, and two below a merge.
    pub links: u64,
}

impl Stats {
    /// Returns the numbers of the table.
    pub fn of(alloc: Global, table: &Table<Global>) -> Result<Stats, NoMemory>
        ensures { IfOk result (IsStatsOf table.now) }
    {
        let picture = Picture::of(alloc, table)?;
        Stats::over(alloc, table, &picture)
    }

    fn over(alloc: Global, table: &Table<Global>, picture: &Picture) -> Result<Stats, NoMemory>
        requires { IsPictureOf table.now picture.now }
        ensures { IfOk result (IsStatsOf table.now) }
    {
        let pages = picture.pages.as_slice();
        let leaves = spread_in(alloc, pages, true)?;
        let inner = spread_in(alloc, pages, false)?;
        let records = spread_of_depths(alloc, pages)?;
        Ok(Stats {
            levels: levels_of(alloc, pages, picture.root.level)?,
            pairs: pairs_of(table),
            slots: picture.slots,
            free: free_slots(table, picture.slots),
            unposted: pages_at(pages, Stage::Unposted),
            marked: pages_at(pages, Stage::Marked),
            merged: pages_at(pages, Stage::Merged),
            leaves,
            inner,
            records,
            stored: stored_entries(pages),
            links: stored_links(pages),
        })
    }

    /// Returns a line for each number, or for several numbers that belong together. The last line
    /// has no line feed.
    pub fn text(&self, alloc: Global) -> Result<String, NoMemory> {
        let mut pen = Pen::new(alloc);
        self.write_levels(&mut pen);
        self.write_counts(&mut pen);
        pen.finish()
    }

    fn write_levels(&self, pen: &mut Pen) {
        pen.put("levels ", self.levels.len());
        let mut level = self.levels.len();
        for pages in self.levels.iter().rev() {
            level = level.saturating_sub(1);
            pen.put("\nlevel ", level);
            pen.put(" pages ", *pages);
        }
    }

    fn write_counts(&self, pen: &mut Pen) {
        pen.number("\npairs ", self.pairs);
        pen.put("\nunposted ", self.unposted);
        pen.put(" marked ", self.marked);
        pen.put(" merged ", self.merged);
        pen.number("\nslots ", u64::from(self.slots));
        pen.number(" free ", u64::from(self.free));
        self.leaves.write(pen, "\nleaf entries ");
        self.inner.write(pen, "\ninner entries ");
        self.records.write(pen, "\nchain records ");
        let slots = u64::from(self.slots).saturating_mul(SLOT_BYTES);
        pen.number("\nbytes slots ", slots);
        pen.number(" pages ", self.stored.saturating_mul(entry_bytes()));
        pen.number(" records ", self.links.saturating_mul(link_bytes()));
    }
}

/// Returns the number of pairs in the map, by the book.
fn pairs_of(table: &Table<Global>) -> u64
    ensures { result ≡ pair_count table.now.slots }
{
    let book = table.book();
    book.inserted - book.removed
}

/// Returns the number of slots below the end without a page.
#[tactic(auto, using(crate::proofs::Ids::counted_more))]
fn free_slots(table: &Table<Global>, end: u32) -> u32
    ensures { result ≡ free_below table.now end }
{
    let mut free = 0;
    for id in 0..end {
        free += u32::from(is_free(table, Pid(id)));
    }
    free
}

fn is_free(table: &Table<Global>, pid: Pid) -> bool
    ensures { result ≡ is_free (slot_at table.now pid.0).stage }
{
    table.peek(pid).is_none()
}
