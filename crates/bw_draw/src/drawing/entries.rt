//! The entries of a base page, a line each.

use crate::pen::Pen;
use bw_delta::{Base, Entries};
use bw_keys::{Fence, Key};
use std::alloc::Allocator;

/// The most entries of a page that are drawn, and the most of those that a split took away.
const MOST: usize = 6;

const MOST_GONE: usize = 3;

/// The lines of a box.
#[derive(Drop)]
pub(crate) struct Lines {
    pub(crate) all: Vec<String>,
    /// The number of lines of what the page has. The others are of what a split took away.
    pub(crate) kept: usize,
}

/// Returns the lines of the entries: first those below the end, and then the others. If there are
/// many of a kind, all but the first ones and the last are only counted.
pub(crate) fn lines_of<A: Allocator + Copy>(pen: &mut Pen, base: &Base<A>, end: Fence) -> Lines {
    let below = match &base.entries {
        Entries::Pairs(pairs) => keys_below(pairs.as_slice().keys, end),
        Entries::Routes(routes) => keys_below(routes.as_slice().keys, end),
    };
    let mut all = Vec::new(pen.alloc);
    if below == 0 {
        pen.write("empty");
        pen.line(&mut all);
    }
    list(pen, &mut all, &base.entries, (0, below), MOST);
    let kept = all.len();
    let gone = (below, base.len());
    list(pen, &mut all, &base.entries, gone, MOST_GONE);
    Lines { all, kept }
}

/// Lists the entries from a place on, up to another one.
fn list<A: Allocator + Copy>(
    pen: &mut Pen,
    lines: &mut Vec<String>,
    entries: &Entries<A>,
    (first, end): (usize, usize),
    most: usize,
) {
    let is_whole = end.saturating_sub(first) <= most;
    let gap = first.saturating_add(most.saturating_sub(2));
    for place in first..end {
        if is_whole || place < gap || place == end - 1 {
            write_entry(pen, entries, place);
            pen.line(lines);
        } else if place == gap {
            pen.more(end.saturating_sub(gap).saturating_sub(1));
            pen.line(lines);
        }
    }
}

fn keys_below(keys: &[Key], end: Fence) -> usize {
    let mut below = 0usize;
    for key in keys {
        below = below.saturating_add(usize::from(end.is_above(*key)));
    }
    below
}

fn write_entry<A: Allocator + Copy>(pen: &mut Pen, entries: &Entries<A>, place: usize) {
    match entries {
        Entries::Pairs(pairs) => {
            if let Some((key, value)) = pairs.as_slice().get(place) {
                pen.pair("", key, value);
            }
        }
        Entries::Routes(routes) => {
            if let Some((key, page)) = routes.as_slice().get(place) {
                pen.route("", key, page);
            }
        }
    }
}
