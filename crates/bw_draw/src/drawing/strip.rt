//! The mapping table: a cell for each slot up to the last one with a page, and one free one more.

use crate::drawing::card::CHARACTER;
use crate::drawing::length::Length;
use crate::drawing::text::{characters, undone};
use crate::pen::Pen;
use crate::picture::Picture;
use bw_keys::Pid;
use bw_step::{Stage, View};

/// The least width of a cell, what is wider than its text, and its height.
const LEAST_CELL: Length = Length(38);

const CELL_SIDES: Length = Length(10);

pub(crate) const CELL_HEIGHT: Length = Length(34);

/// What lies between two cells.
pub(crate) const CELL_GAP: Length = Length(4);

/// The most cells that are drawn.
const MOST: usize = 64;

/// Where the mapping table begins.
pub(crate) const TABLE_TOP: Length = Length(40);

/// A slot as it is drawn.
#[derive(Drop)]
pub(crate) struct Cell {
    pub(crate) stage: Stage,
    /// The version, or `free` where there is no page.
    pub(crate) text: String,
}

/// The mapping table as it is drawn.
#[derive(Drop)]
pub(crate) struct Strip {
    pub(crate) slots: usize,
    pub(crate) pages: usize,
    /// The number of pages whose split or merge is half done.
    pub(crate) undone: usize,
    /// The slots that are drawn, from slot 0 on.
    pub(crate) cells: Vec<Cell>,
    /// The number of pages whose slot isn't drawn.
    pub(crate) hidden: usize,
    /// The width of a cell.
    pub(crate) cell: Length,
    /// The number of cells in a line.
    pub(crate) in_line: usize,
}

impl Strip {
    /// Returns the cells of the pages and of the free slots before them, and one free one more, in as
    /// many lines of this width as they take.
    pub(crate) fn of(pen: &mut Pen, picture: &Picture, width: Length) -> Strip {
        let mut strip = Strip {
            slots: picture.slots as usize,
            pages: picture.pages.len(),
            undone: 0,
            cells: Vec::new(pen.alloc),
            hidden: 0,
            cell: LEAST_CELL,
            in_line: 1,
        };
        for page in picture.pages.iter() {
            strip.add(pen, page.view);
        }
        if strip.cells.len() < strip.slots.min(MOST) {
            strip.add_free(pen);
        }
        strip.widen();
        strip.in_line = (strip.cell + CELL_GAP).fits(width + CELL_GAP);
        strip
    }

    /// Appends the cell of a page, after those of the free slots before it.
    fn add(&mut self, pen: &mut Pen, view: View) {
        if undone(view.stage).is_some() {
            self.undone = self.undone.saturating_add(1);
        }
        let Pid(id) = view.pid;
        for _ in self.cells.len()..(id as usize).min(MOST) {
            self.add_free(pen);
        }
        if self.cells.len() >= MOST {
            self.hidden = self.hidden.saturating_add(1);
            return;
        }
        pen.short("v", view.version.0);
        self.add_cell(pen, view.stage);
    }

    fn add_free(&mut self, pen: &mut Pen) {
        pen.write("free");
        self.add_cell(pen, Stage::Free);
    }

    /// Appends a cell with what the pen has written.
    fn add_cell(&mut self, pen: &mut Pen, stage: Stage) {
        let text = pen.take();
        pen.push(&mut self.cells, Cell { stage, text });
    }

    /// Makes the cells as wide as the longest text.
    fn widen(&mut self) {
        let mut longest = 0;
        for cell in self.cells.iter() {
            longest = longest.max(characters(cell.text.as_str()));
        }
        self.cell = LEAST_CELL.max(CHARACTER * longest + CELL_SIDES);
    }

    /// Returns the number of slots without a page.
    pub(crate) fn free(&self) -> usize {
        self.slots.saturating_sub(self.pages)
    }

    /// Returns where the last line ends.
    pub(crate) fn bottom(&self) -> Length {
        let lines = self.cells.len().div_ceil(self.in_line.max(1));
        TABLE_TOP + (CELL_HEIGHT + CELL_GAP) * lines
    }
}
