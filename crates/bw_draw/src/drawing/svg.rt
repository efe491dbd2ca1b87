//! The text of a drawing.

use crate::drawing::MARGIN;
use crate::drawing::block::{Block, INSET, Kind, LINE};
use crate::drawing::card::{Card, FRAME};
use crate::drawing::element::FEET;
use crate::drawing::length::Length;
use crate::drawing::row::{BETWEEN, HIDDEN_WIDTH, Row};
use crate::drawing::strip::{CELL_GAP, CELL_HEIGHT, Cell, Strip, TABLE_TOP};
use crate::drawing::style::STYLE;
use crate::drawing::text::undone;
use crate::pen::Pen;
use bw_step::Stage;

/// Writes the head of a drawing of this many pages and levels.
pub(crate) fn write_head(
    pen: &mut Pen,
    (pages, levels): (usize, usize),
    (width, height): (Length, Length),
) {
    pen.put(
        "<svg xmlns=\"http://www.w3.org/2000/svg\" width=\"",
        width.0,
    );
    pen.put("\" height=\"", height.0);
    pen.put("\" viewBox=\"0 0 ", width.0);
    pen.put(" ", height.0);
    pen.write("\" role=\"img\">\n<title>A Bw-tree of ");
    pen.count(pages as u64, " page");
    pen.write(" on ");
    pen.count(levels as u64, " level");
    pen.write("</title>\n");
    pen.write(STYLE);
    pen.put("<rect class=\"ground\" width=\"", width.0);
    pen.put("\" height=\"", height.0);
    pen.write("\" rx=\"8\"/>\n");
}

pub(crate) fn write_strip(pen: &mut Pen, strip: &Strip) {
    pen.put("<g data-part=\"table\">\n<text x=\"", MARGIN.0);
    pen.put("\" y=\"", (TABLE_TOP - LINE - INSET + FEET).0);
    pen.put(
        "\"><tspan class=\"name\">mapping table</tspan><tspan class=\"soft\" dx=\"10\">",
        strip.slots,
    );
    pen.put(" slots, ", strip.pages);
    pen.put(" with a page, ", strip.free());
    pen.write(" free");
    if strip.hidden > 0 {
        pen.put("; the first ", strip.cells.len());
        pen.write(" are drawn");
    }
    if strip.undone > 0 {
        pen.put("</tspan><tspan class=\"warn\" dx=\"10\">", strip.undone);
        pen.write(" half done");
    }
    pen.write("</tspan></text>\n");
    let mut id = 0usize;
    for cell in strip.cells.iter() {
        write_cell(pen, strip, id, cell);
        id = id.saturating_add(1);
    }
    pen.write("</g>\n");
}

fn write_cell(pen: &mut Pen, strip: &Strip, id: usize, cell: &Cell) {
    let across = id.checked_rem(strip.in_line).unwrap_or(0);
    let down = id.checked_div(strip.in_line).unwrap_or(0);
    let left = MARGIN + (strip.cell + CELL_GAP) * across;
    let top = TABLE_TOP + (CELL_HEIGHT + CELL_GAP) * down;
    let (class, name) = match cell.stage {
        Stage::Free => ("more", "soft middle"),
        Stage::Posted => ("base", "name middle"),
        Stage::Unposted | Stage::Marked | Stage::Merged => ("half", "name middle"),
    };
    pen.put("<g data-slot=\"", id);
    pen.write("\">\n");
    pen.rect(class, (left, top), (strip.cell, CELL_HEIGHT));
    let middle = left + strip.cell.half();
    pen.begin(name, middle, top + INSET.half());
    pen.put("", id);
    pen.write("</text>");
    pen.text("soft middle", middle, top + LINE, cell.text.as_str());
    pen.write("</g>\n");
}

pub(crate) fn write_row(pen: &mut Pen, row: &Row) {
    write_label(pen, row);
    for card in row.cards.iter() {
        write_card(pen, card);
    }
    if let (Some(first), Some(last)) = (row.cards.first(), row.cards.last()) {
        let left = first.left - BETWEEN - HIDDEN_WIDTH;
        write_hidden(pen, row, left, row.hidden_before);
        write_hidden(pen, row, last.right() + BETWEEN, row.hidden_after);
    }
}

/// Writes the level and its number of pages.
fn write_label(pen: &mut Pen, row: &Row) {
    let top = row.top + INSET.half();
    pen.write("<g data-part=\"level\">\n");
    pen.begin("name", MARGIN, top);
    pen.put("level ", usize::from(row.level));
    pen.end();
    pen.begin("soft", MARGIN, top + LINE);
    pen.count(row.in_row as u64, " page");
    pen.end();
    if row.merged > 0 {
        pen.begin("warn", MARGIN, top + LINE * 2);
        pen.put("", row.merged);
        pen.write(" merged");
        pen.end();
    }
    pen.write("</g>\n");
}

/// Writes the number of pages that aren't drawn here, if there are any.
fn write_hidden(pen: &mut Pen, row: &Row, left: Length, pages: usize) {
    if pages > 0 {
        pen.rect("more", (left, row.top), (HIDDEN_WIDTH, LINE + INSET * 2));
        pen.begin("soft middle", left + HIDDEN_WIDTH.half(), row.top + INSET);
        pen.more(pages);
        pen.end();
    }
}

fn write_card(pen: &mut Pen, card: &Card) {
    let undone = undone(card.view.stage);
    let class = if undone.is_some() { "half" } else { "page" };
    pen.page("<g data-page=\"", card.view.pid);
    pen.write("\">\n");
    pen.rect(class, (card.left, card.top), (card.width(), card.height()));
    if card.is_root {
        write_root(pen, card);
    }
    let left = card.left + FRAME + FRAME.half();
    let top = card.top + INSET.half();
    pen.text("name", left, top, card.title.as_str());
    pen.text("text", left, top + LINE, card.range.as_str());
    let mut next = top + LINE * 2;
    if !card.count.is_empty() {
        let class = if card.over > 0 { "warn" } else { "soft" };
        pen.text(class, left, next, card.count.as_str());
        next = next + LINE;
    }
    if let Some(undone) = undone {
        pen.text("warn", left, next, undone);
    }
    for block in card.tower.blocks.iter() {
        write_block(pen, card, block);
    }
    pen.write("</g>\n");
}

/// Writes an arrow down to the root.
fn write_root(pen: &mut Pen, card: &Card) {
    let middle = card.middle();
    let top = card.top - Length(18);
    pen.put("<text class=\"soft middle\" x=\"", middle.0);
    pen.put("\" y=\"", (top - Length(4)).0);
    pen.put(
        "\">root</text><path class=\"line\" marker-end=\"url(#term)\" d=\"M",
        middle.0,
    );
    pen.put(" ", top.0);
    pen.put("V", card.top.0);
    pen.write("\"/>\n");
}

fn write_block(pen: &mut Pen, card: &Card, block: &Block) {
    let class = match block.kind {
        Kind::Base => "base",
        Kind::Change => "change",
        Kind::Shape => "shape",
        Kind::More => "more",
    };
    let left = card.left + FRAME + (card.column + FRAME) * block.column;
    let top = card.top + card.head() + block.top;
    let width = (card.column + FRAME) * block.columns - FRAME;
    pen.rect(class, (left, top), (width, block.height()));
    let (mut next, mut kept) = (top + INSET.half(), block.lines.kept);
    for line in block.lines.all.iter() {
        let class = if kept > 0 { "text" } else { "gone" };
        pen.text(class, left + Length(7), next, line.as_str());
        next = next + LINE;
        kept = kept.saturating_sub(1);
    }
}
