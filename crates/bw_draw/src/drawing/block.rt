//! The boxes of a page.

use crate::drawing::entries::Lines;
use crate::drawing::length::Length;
use crate::drawing::text::characters;

/// The height of a line of text.
pub(crate) const LINE: Length = Length(15);

/// What stands above and below the lines of a box, together.
pub(crate) const INSET: Length = Length(6);

/// What a box is for.
#[derive(Clone, Copy)]
pub(crate) enum Kind {
    /// A base page.
    Base,
    /// A record of an insertion, a modification or a deletion.
    Change,
    /// A record that changes the shape of the tree.
    Shape,
    /// Records that aren't drawn.
    More,
}

/// A box with lines of text.
#[derive(Drop)]
pub(crate) struct Block {
    pub(crate) kind: Kind,
    /// The first column that it stands in, counted from 0.
    pub(crate) column: usize,
    /// The number of columns that it stands in.
    pub(crate) columns: usize,
    /// From the top of the boxes.
    pub(crate) top: Length,
    pub(crate) lines: Lines,
}

impl Block {
    pub(crate) fn height(&self) -> Length {
        LINE * self.lines.all.len() + INSET
    }

    /// Returns the number of characters in a column.
    pub(crate) fn width(&self) -> usize {
        let mut longest = 0;
        for line in self.lines.all.iter() {
            longest = longest.max(characters(line.as_str()));
        }
        longest.div_ceil(self.columns.max(1))
    }
}
