//! A page of a picture.

ghost use Rattle.std.specs.Prelude.{◌≡◌, IfOk};
ghost use Rattle.bw_draw.specs.Pictures.{page_at};

use bw_delta::{Chain, NoMemory};
use bw_keys::Pid;
use bw_step::{CopyFault, View};
use bw_table::Table;
use std::alloc::Global;

/// A page of a table, with a copy of its chain.
#[derive(Drop)]
pub struct Page {
    pub view: View,
    /// The records over their base, if the page is in a row.
    pub chain: Option<Chain<Global>>,
}

impl Page {
    /// Returns the page with the id, if its slot isn't free.
    pub fn of(alloc: Global, table: &Table<Global>, pid: Pid) -> Result<Option<Page>, NoMemory>
        ensures { IfOk result (λ page. page ≡ page_at table.now pid.0) }
    {
        let Some(view) = table.peek(pid) else {
            return Ok(None);
        };
        let chain = match table.copy_page(alloc, pid, view.version) {
            Ok(chain) => Some(chain),
            Err(CopyFault::NoMemory) => return Err(NoMemory),
            Err(CopyFault::Absent | CopyFault::Stale) => None,
        };
        Ok(Some(Page { view, chain }))
    }
}
