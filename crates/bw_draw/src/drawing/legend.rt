//! The meanings of the marks of a drawing: a line of text for each mark in it.

use crate::drawing::MARGIN;
use crate::drawing::block::{Block, Kind};
use crate::drawing::card::{CHARACTER, Card};
use crate::drawing::length::Length;
use crate::drawing::row::Row;
use crate::drawing::text::characters;
use crate::pen::Pen;
use bw_step::Stage;

/// The width of a mark, with what lies between it and its text.
const MARK: Length = Length(28);

/// What lies between two items.
const APART: Length = Length(22);

/// The height of a line of items.
const ITEM_LINE: Length = Length(21);

/// A mark of a drawing.
#[derive(Clone, Copy)]
enum Mark {
    /// A box of the class.
    Box(&'static str),
    /// A line of the class.
    Line(&'static str),
    /// A text of the class.
    Text(&'static str, &'static str),
}

/// Where the next item of a legend goes.
#[derive(Drop)]
struct Legend {
    left: Length,
    top: Length,
    /// Where the lines end.
    right: Length,
}

/// Which marks a drawing has.
#[derive(Drop)]
pub(crate) struct Marks {
    change: bool,
    shape: bool,
    term: bool,
    stub: bool,
    side: bool,
    unposted: bool,
    coming: bool,
    marked: bool,
    merged: bool,
    gone: bool,
    cut: bool,
}

/// Writes the meanings of the marks, in lines of this width, and returns where they end.
pub(crate) fn write_legend(pen: &mut Pen, marks: &Marks, width: Length, top: Length) -> Length {
    let mut legend = Legend {
        left: MARGIN,
        top,
        right: MARGIN + width,
    };
    pen.write("<g data-part=\"legend\">\n");
    legend.add_all(pen, marks);
    pen.write("</g>\n");
    legend.top + ITEM_LINE
}

impl Legend {
    /// Writes an item for each of the marks.
    fn add_all(&mut self, pen: &mut Pen, marks: &Marks) {
        let (half, cut) = (Mark::Box("half"), Mark::Text("text", "1‹5›9"));
        self.add(pen, true, Mark::Box("base"), "base page");
        self.add(pen, marks.change, Mark::Box("change"), "change of a key");
        self.add(pen, marks.shape, Mark::Box("shape"), "change of shape");
        self.add(pen, marks.gone, Mark::Text("gone", "5:50"), "split off");
        self.add(pen, marks.term, Mark::Line("line"), "term");
        self.add(
            pen,
            marks.stub,
            Mark::Line("stub"),
            "terms of pages not drawn",
        );
        self.add(pen, marks.side, Mark::Line("side"), "side link");
        self.add(pen, marks.unposted, half, "unposted: no term yet");
        self.add(pen, marks.coming, Mark::Line("coming"), "term to come");
        self.add(
            pen,
            marks.marked,
            half,
            "marked: takes no change, to be merged",
        );
        self.add(pen, marks.merged, half, "merged: its keys went left");
        self.add(pen, marks.merged, Mark::Line("going"), "term to go");
        self.add(pen, marks.cut, cut, "a number, 5 digits left out");
    }

    /// Writes an item if its mark is there, on a new line if there is no room.
    fn add(&mut self, pen: &mut Pen, is_there: bool, mark: Mark, text: &str) {
        if !is_there {
            return;
        }
        let width = mark.width() + CHARACTER * text.len();
        if (self.left + width).0 > self.right.0 {
            self.left = MARGIN;
            self.top = self.top + ITEM_LINE;
        }
        mark.write(pen, self.left, self.top);
        pen.text("soft", self.left + mark.width(), self.top, text);
        self.left = self.left + width + APART;
    }
}

impl Mark {
    /// Returns its width, with what lies between it and its text.
    fn width(self) -> Length {
        match self {
            Mark::Box(_) | Mark::Line(_) => MARK,
            Mark::Text(_, sample) => CHARACTER * characters(sample) + Length(8),
        }
    }

    fn write(self, pen: &mut Pen, left: Length, top: Length) {
        match self {
            Mark::Box(class) => pen.rect(class, (left, top), (Length(20), Length(14))),
            Mark::Line(class) => {
                pen.open("<path", class);
                pen.put("\" d=\"M", left.0);
                pen.put(" ", (top + Length(7)).0);
                pen.write("h20\"/>\n");
            }
            Mark::Text(class, sample) => pen.text(class, left, top, sample),
        }
    }
}

impl Marks {
    /// Returns the marks of the rows, in which a number may be without its middle.
    pub(crate) fn of(rows: &[Row], cut: bool) -> Marks {
        let mut marks = Marks {
            change: false,
            shape: false,
            term: rows.len() > 1,
            stub: false,
            side: false,
            unposted: false,
            coming: false,
            marked: false,
            merged: false,
            gone: false,
            cut,
        };
        let mut below: Option<&Row> = None;
        for row in rows {
            marks.see_row(row, usize::from(row.level) + 1 < rows.len());
            if let Some(below) = below {
                marks.see_stubs(row, below);
            }
            below = Some(row);
        }
        marks
    }

    /// Notes the marks of a row, and of the terms of its pages if there is a row above it.
    fn see_row(&mut self, row: &Row, is_lower: bool) {
        self.side = self.side || row.in_row > 1;
        for card in row.cards.iter() {
            self.see_card(card, is_lower);
        }
    }

    /// Notes whether a page of the row has terms of pages below it that aren't drawn.
    fn see_stubs(&mut self, row: &Row, below: &Row) {
        for card in row.cards.iter() {
            self.stub = self.stub || below.lacks_terms_of(card);
        }
    }

    fn see_card(&mut self, card: &Card, is_lower: bool) {
        match card.view.stage {
            Stage::Unposted => {
                self.unposted = true;
                self.coming = self.coming || is_lower;
            }
            Stage::Marked => self.marked = true,
            Stage::Merged => self.merged = true,
            Stage::Free | Stage::Posted => {}
        }
        for block in card.tower.blocks.iter() {
            self.see_block(block);
        }
    }

    fn see_block(&mut self, block: &Block) {
        match block.kind {
            Kind::Change => self.change = true,
            Kind::Shape => self.shape = true,
            Kind::Base | Kind::More => {}
        }
        self.gone = self.gone || block.lines.kept < block.lines.all.len();
    }
}
