//! Numbers of the pages in rows.

ghost use Rattle.std.specs.Prelude.{◌≡◌, IfOk, count_by};
ghost use Rattle.bw_draw.specs.Figures.{IsSpreadOf, is_at, counts_of, depths_of, levels_of, pages_on};

use crate::page::Page;
use crate::stats::spread::Spread;
use bw_delta::NoMemory;
use bw_step::Stage;
use std::alloc::Global;

/// Returns the sizes of the rows, from the leaves up to the root's level.
#[tactic(auto, using(crate::proofs::Ids::mapped_more))]
pub(crate) fn levels_of(alloc: Global, pages: &[Page], root: u8) -> Result<Vec<usize>, NoMemory>
    ensures { IfOk result (λ levels. levels.items ≡ levels_of pages.now root) }
{
    let mut levels = Vec::new(alloc);
    for level in 0..u32::from(root) + 1 {
        levels.push(pages_on(pages, level))?;
    }
    Ok(levels)
}

/// Returns the number of pages in the row of the level.
fn pages_on(pages: &[Page], level: u32) -> usize
    ensures { result ≡ pages_on pages.now level }
{
    let mut found = 0usize;
    for page in pages {
        found += usize::from(page.view.stage.is_in_row() && u32::from(page.view.level) == level);
    }
    found
}

/// Returns the number of pages at the stage.
pub(crate) fn pages_at(pages: &[Page], stage: Stage) -> usize
    ensures { result ≡ count_by (is_at stage) pages.now }
{
    let mut found = 0usize;
    for page in pages {
        found += usize::from(page.view.stage == stage);
    }
    found
}

/// Returns a summary of the numbers of entries of the leaves in their row, or of the inner pages.
pub(crate) fn spread_in(alloc: Global, pages: &[Page], leaves: bool) -> Result<Spread, NoMemory>
    ensures { IfOk result (IsSpreadOf (counts_of leaves pages.now)) }
{
    let mut counts = Vec::new(alloc);
    for page in pages {
        if page.view.stage.is_in_row() && (page.view.level == 0) == leaves {
            counts.push(page.view.count)?;
        }
    }
    Ok(Spread::of(&counts))
}

/// Returns a summary of the numbers of records of the pages in rows, along the deepest path.
pub(crate) fn spread_of_depths(alloc: Global, pages: &[Page]) -> Result<Spread, NoMemory>
    ensures { IfOk result (IsSpreadOf (depths_of pages.now)) }
{
    let mut depths = Vec::new(alloc);
    for page in pages {
        if page.view.stage.is_in_row() {
            depths.push(u64::from(page.view.depth))?;
        }
    }
    Ok(Spread::of(&depths))
}
