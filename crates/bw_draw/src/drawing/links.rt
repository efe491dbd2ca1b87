//! The lines between pages: terms and side links.

use crate::drawing::block::LINE;
use crate::drawing::card::Card;
use crate::drawing::length::Length;
use crate::drawing::row::{BETWEEN, HIDDEN_WIDTH, Row};
use crate::pen::Pen;
use bw_keys::Pid;
use bw_step::Stage;

/// The length of a line that stands for terms of pages that aren't drawn.
const STUB: Length = Length(14);

/// Writes the terms and the side links of all rows.
pub(crate) fn write_links(pen: &mut Pen, rows: &[Row]) {
    let mut below: Option<&Row> = None;
    for row in rows {
        write_side_links(pen, row);
        if let Some(below) = below {
            for parent in row.cards.iter() {
                write_terms(pen, parent, row.bottom(), below);
            }
        }
        below = Some(row);
    }
}

/// Writes the lines from a page to those below it, drawn or not.
fn write_terms(pen: &mut Pen, parent: &Card, bottom: Length, below: &Row) {
    let children = below.begun_in(parent);
    let mut place = 0usize;
    for child in below.cards.iter() {
        if parent.holds(child.view.low) {
            let port = parent.left + parent.width().port(place, children);
            let from = (parent.view.pid, (port, parent.bottom()));
            write_term(pen, from, (bottom, below.top), child);
            place = place.saturating_add(1);
        }
    }
    write_stubs(pen, parent, below);
}

/// Writes short lines at the sides of a page that has terms of pages which aren't drawn.
fn write_stubs(pen: &mut Pen, parent: &Card, below: &Row) {
    let height = parent.bottom() - STUB;
    if below.begins_after(parent) {
        write_stub(pen, parent.left - STUB, height);
    }
    if below.ends_before(parent) {
        write_stub(pen, parent.right(), height);
    }
}

fn write_stub(pen: &mut Pen, left: Length, height: Length) {
    pen.put("<path class=\"stub\" d=\"M", left.0);
    pen.put(" ", height.0);
    pen.put("h", STUB.0);
    pen.write("\"/>\n");
}

/// Writes a line down to a page: straight beside the boxes of both rows, and bent between the rows.
fn write_term(
    pen: &mut Pen,
    (parent, (left, top)): (Pid, (Length, Length)),
    (bend, end): (Length, Length),
    child: &Card,
) {
    let class = match child.view.stage {
        Stage::Posted | Stage::Marked | Stage::Free => "line",
        Stage::Unposted => "coming",
        Stage::Merged => "going",
    };
    let right = child.middle();
    let middle = (bend + end).half();
    pen.open("<path", class);
    pen.page("\" data-link=\"", parent);
    pen.page(" ", child.view.pid);
    pen.put("\" d=\"M", left.0);
    pen.put(" ", top.0);
    pen.put("V", bend.0);
    pen.put("C", left.0);
    pen.put(" ", middle.0);
    pen.put(" ", right.0);
    pen.put(" ", middle.0);
    pen.put(" ", right.0);
    pen.put(" ", end.0);
    pen.put("V", child.top.0);
    pen.write("\"/>\n");
}

/// Writes an arrow from each page of a row to the page on its right.
fn write_side_links(pen: &mut Pen, row: &Row) {
    let height = row.top + LINE;
    let mut last: Option<&Card> = None;
    for card in row.cards.iter() {
        if card.view.stage.is_in_row() {
            write_link_to(pen, row, last, card, height);
            last = Some(card);
        }
    }
    if let Some(last) = last
        && row.hidden_after > 0
    {
        write_arrow(pen, last.right(), row.right() - HIDDEN_WIDTH, height);
    }
}

/// Writes the arrow to a page from the one before it in its row, or from the box of hidden ones.
fn write_link_to(pen: &mut Pen, row: &Row, last: Option<&Card>, card: &Card, height: Length) {
    match last {
        Some(last) => {
            pen.page("<path class=\"side\" data-link=\"", last.view.pid);
            pen.page(" ", card.view.pid);
            write_across(pen, last.right(), card.left, height);
        }
        None if row.hidden_before > 0 => {
            write_arrow(pen, row.left() - BETWEEN, card.left, height)
        }
        None => {}
    }
}

/// Writes an arrow from or to a box of hidden pages.
fn write_arrow(pen: &mut Pen, left: Length, right: Length, height: Length) {
    pen.write("<path class=\"side");
    write_across(pen, left, right, height);
}

fn write_across(pen: &mut Pen, left: Length, right: Length, height: Length) {
    pen.put("\" marker-end=\"url(#side)\" d=\"M", left.0);
    pen.put(" ", height.0);
    pen.put("H", right.0);
    pen.write("\"/>\n");
}
