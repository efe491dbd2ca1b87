//! The whole of a table, by its public calls.

ghost use Rattle.std.specs.Prelude.{◌≡◌, ◌++◌, IfOk, OnOk, option_to_list};
ghost use Rattle.bw_draw.specs.Pictures.{IsPictureOf, pages_below};

use crate::page::Page;
use bw_delta::NoMemory;
use bw_keys::Pid;
use bw_step::Place;
use bw_table::Table;
use std::alloc::Global;

/// All pages of a table, with copies of their chains.
#[derive(Drop)]
pub struct Picture {
    /// The root, where every search begins.
    pub root: Place,
    /// The most entries that a page keeps.
    pub fanout: u32,
    /// The number of slots in the mapping table.
    pub slots: u32,
    /// The page of each slot that isn't free, in the order of their ids.
    pub pages: Vec<Page>,
}

impl Picture {
    /// Takes a picture of the table.
    pub fn of(alloc: Global, table: &Table<Global>) -> Result<Picture, NoMemory>
        ensures { IfOk result (IsPictureOf table.now) }
    {
        let config = table.config();
        Ok(Picture {
            root: table.root(),
            fanout: config.fanout,
            slots: config.pages,
            pages: pages_below(alloc, table, config.pages)?,
        })
    }
}

/// Returns the pages whose ids are below the end, in the order of their ids.
fn pages_below(alloc: Global, table: &Table<Global>, end: u32) -> Result<Vec<Page>, NoMemory>
    ensures { IfOk result (λ pages. pages.items ≡ pages_below table.now end) }
{
    let mut pages = Vec::new(alloc);
    for id in 0..end {
        add(&mut pages, Page::of(alloc, table, Pid(id))?)?;
    }
    Ok(pages)
}

/// Appends the page, if there is one.
fn add(pages: &mut Vec<Page>, page: Option<Page>) -> Result<(), NoMemory>
    ensures { OnOk result (pages.new.items ≡ pages.old.items ++ option_to_list page) }
{
    if let Some(page) = page {
        pages.push(page)?;
    }
    Ok(())
}
