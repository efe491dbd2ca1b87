//! Drawings of a table: its mapping table, and its pages level by level with their chains.

mod block;
mod card;
mod element;
mod entries;
mod legend;
mod length;
mod links;
mod row;
mod strip;
mod style;
mod svg;
mod text;
mod tower;

use crate::drawing::legend::{Marks, write_legend};
use crate::drawing::length::Length;
use crate::drawing::links::write_links;
use crate::drawing::row::{Row, Window};
use crate::drawing::strip::Strip;
use crate::drawing::svg::{write_head, write_row, write_strip};
use crate::drawing::text::undone;
use crate::pen::Pen;
use crate::picture::Picture;
use bw_delta::NoMemory;
use bw_keys::Key;
use std::alloc::Global;

/// What stands left of the rows, and on all sides.
const LEFT: Length = Length(96);

const MARGIN: Length = Length(20);

/// What lies between the mapping table and the rows.
const TABLE_GAP: Length = Length(52);

/// What lies between two rows, and between the last one and the legend.
const ROW_GAP: Length = Length(64);

const LEGEND_GAP: Length = Length(30);

/// The least width of a drawing.
const LEAST_WIDTH: Length = Length(580);

/// The most pages of a picture that is drawn whole.
const FEW: usize = 40;

/// The number of leaves that are drawn of a larger picture.
const SOME: usize = 10;

/// The number of leaves that are drawn about a key.
const NEAR: usize = 3;

/// A drawing, whose text is an SVG image for light and dark grounds.
///
/// If the picture has at most 40 pages, each is drawn. Of a larger one, ten leaves in a row and the
/// pages above them are drawn, among them the first page whose split or merge is half done, if any.
/// A page shows its id, its range, its number of entries, its stage while it is half done, and the
/// newest records of its chain, and below them the base pages with their first entries and the last
/// one. A number of more than nine digits is shown without its middle. The mapping table has the
/// version of each page. For scripts, `data-page`, `data-slot`, `data-link` and `data-part` say
/// what a part is of.
#[derive(Drop)]
pub struct Drawing {
    /// Its last line has no line feed.
    pub text: String,
}

impl Drawing {
    /// Draws a picture.
    pub fn of(alloc: Global, picture: &Picture) -> Result<Drawing, NoMemory> {
        if picture.pages.len() <= FEW {
            return Drawing::within(alloc, picture, Window::Whole);
        }
        Drawing::within(alloc, picture, Window::Around(first_undone(picture), SOME))
    }

    /// Draws the path to the key's leaf in a picture: this leaf with those beside it, and the pages
    /// above them.
    pub fn near(alloc: Global, picture: &Picture, key: Key) -> Result<Drawing, NoMemory> {
        Drawing::within(alloc, picture, Window::Around(key, NEAR))
    }

    /// Draws the leaves of the window, and the pages above them.
    fn within(alloc: Global, picture: &Picture, leaves: Window) -> Result<Drawing, NoMemory> {
        let mut pen = Pen::new(alloc);
        write(&mut pen, picture, leaves);
        let text = pen.finish()?;
        Ok(Drawing { text })
    }
}

/// Writes the image of the leaves of the window, and of the pages above them.
fn write(pen: &mut Pen, picture: &Picture, leaves: Window) {
    let mut rows = rows_of(pen, picture, leaves);
    let marks = Marks::of(&rows, pen.has_cut);
    let width = width_of(&rows);
    let inner = width - MARGIN * 2;
    let strip = Strip::of(pen, picture, inner);
    let end = place_down(&mut rows, strip.bottom() + TABLE_GAP);
    let bottom = write_legend(pen, &marks, inner, end + LEGEND_GAP);
    let legend = pen.take();
    let size = (width, bottom + MARGIN.half());
    write_head(pen, (strip.pages, rows.len()), size);
    write_strip(pen, &strip);
    write_links(pen, &rows);
    for row in rows.iter().rev() {
        write_row(pen, row);
    }
    pen.write(legend.as_str());
    pen.write("</svg>");
}

/// Returns the rows, from the leaves of the window up, each placed over the one below it.
fn rows_of(pen: &mut Pen, picture: &Picture, leaves: Window) -> Vec<Row> {
    let mut window = leaves;
    let mut rows = Vec::new(pen.alloc);
    for level in 0..=picture.root.level {
        let mut row = Row::of(pen, picture, level, window);
        row.place(LEFT, rows.last());
        window = match window {
            Window::Whole => Window::Whole,
            Window::Around(_, _) | Window::Over(_, _) => row.window_above(),
        };
        pen.push(&mut rows, row);
    }
    rows
}

/// Returns the least key of the first page that is half done, or else the least key.
fn first_undone(picture: &Picture) -> Key {
    for page in picture.pages.iter() {
        if undone(page.view.stage).is_some() {
            return page.view.low;
        }
    }
    0
}

/// Returns the width of a drawing of the rows.
fn width_of(rows: &[Row]) -> Length {
    let mut width = LEAST_WIDTH;
    for row in rows {
        width = width.max(row.right() + MARGIN);
    }
    width
}

/// Places the rows from the root's down, and returns where the last one ends.
fn place_down(rows: &mut [Row], top: Length) -> Length {
    let mut next = top;
    for row in rows.iter_mut().rev() {
        row.set_top(next);
        next = row.bottom() + ROW_GAP;
    }
    next - ROW_GAP
}
