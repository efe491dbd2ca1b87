//! A page as it is drawn: a head with its id, range and stage, and its chain.

use crate::drawing::block::{INSET, LINE};
use crate::drawing::length::Length;
use crate::drawing::text::{characters, undone};
use crate::drawing::tower::Tower;
use crate::page::Page;
use crate::pen::Pen;
use crate::picture::Picture;
use bw_keys::{Fence, Key};
use bw_step::{Stage, View};

/// The width of a character.
pub(crate) const CHARACTER: Length = Length(7);

/// What lies between the frame of a card and its boxes, and between two columns.
pub(crate) const FRAME: Length = Length(6);

/// What lies on both sides of a line of text, together.
const SIDES: Length = Length(14);

/// How much lower a merged page is drawn than its row, so that the side link passes above it.
const SINK: Length = Length(30);

/// A page as it is drawn.
#[derive(Drop)]
pub(crate) struct Card {
    pub(crate) view: View,
    pub(crate) is_root: bool,
    pub(crate) title: String,
    pub(crate) range: String,
    /// The number of entries, or empty if the page isn't in a row.
    pub(crate) count: String,
    /// How many of the entries are more than a page keeps.
    pub(crate) over: u64,
    pub(crate) tower: Tower,
    /// The width of a column.
    pub(crate) column: Length,
    pub(crate) left: Length,
    pub(crate) top: Length,
}

impl Card {
    pub(crate) fn of(pen: &mut Pen, picture: &Picture, page: &Page) -> Card {
        let view = page.view;
        let over = view.count.saturating_sub(u64::from(picture.fanout));
        pen.page("page ", view.pid);
        let title = pen.take();
        write_range(pen, view);
        let range = pen.take();
        write_count(pen, view, over);
        Card {
            view,
            is_root: view.pid == picture.root.pid,
            title,
            range,
            count: pen.take(),
            over,
            tower: Tower::of(pen, &page.chain),
            column: Length(0),
            left: Length(0),
            top: Length(0),
        }
    }

    /// Returns the number of characters in a column.
    pub(crate) fn characters(&self) -> usize {
        let head = self.title.len().max(self.count.len());
        let head = head.max(characters(self.range.as_str()));
        let mut longest = head.div_ceil(self.tower.columns.max(1));
        for block in self.tower.blocks.iter() {
            longest = longest.max(block.width());
        }
        longest
    }

    /// Makes the columns as wide as this number of characters.
    pub(crate) fn widen(&mut self, characters: usize) {
        self.column = CHARACTER * characters + SIDES;
    }

    pub(crate) fn width(&self) -> Length {
        (self.column + FRAME) * self.tower.columns + FRAME
    }

    pub(crate) fn right(&self) -> Length {
        self.left + self.width()
    }

    pub(crate) fn middle(&self) -> Length {
        self.left + self.width().half()
    }

    /// Returns the height of the head.
    pub(crate) fn head(&self) -> Length {
        let count = usize::from(!self.count.is_empty());
        let stage = usize::from(undone(self.view.stage).is_some());
        LINE * (count + stage + 2) + INSET
    }

    pub(crate) fn height(&self) -> Length {
        if self.view.stage == Stage::Merged {
            return self.head() + FRAME;
        }
        self.head() + self.tower.height + FRAME + FRAME.half()
    }

    pub(crate) fn bottom(&self) -> Length {
        self.top + self.height()
    }

    /// Returns how much lower than its row the card stands.
    pub(crate) fn sink(&self) -> Length {
        if self.view.stage == Stage::Merged {
            SINK
        } else {
            Length(0)
        }
    }

    /// Returns whether the page is in a row and its range holds the key.
    pub(crate) fn holds(&self, key: Key) -> bool {
        self.view.stage.is_in_row() && self.view.low <= key && self.view.high.is_above(key)
    }
}

fn write_range(pen: &mut Pen, view: View) {
    if view.stage == Stage::Merged {
        return pen.short("from ", view.low);
    }
    pen.short("", view.low);
    match view.high {
        Fence::Key(high) => pen.short(" to ", high),
        Fence::Top => pen.write(" to top"),
    }
}

/// Writes the number of entries, and how many are more than a page keeps, if the page is in a row.
fn write_count(pen: &mut Pen, view: View, over: u64) {
    if view.stage == Stage::Merged {
        return;
    }
    let kind = if view.level == 0 { " key" } else { " term" };
    pen.count(view.count, kind);
    if over > 0 {
        pen.number(", ", over);
        pen.write(" over");
    }
}
