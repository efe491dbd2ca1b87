//! A chain as it is drawn: the newest record on top, and below a merge its two chains side by side.

use crate::drawing::block::{Block, INSET, Kind, LINE};
use crate::drawing::entries::{Lines, lines_of};
use crate::drawing::length::Length;
use crate::pen::Pen;
use bw_delta::{Base, Chain, Delta, Node};
use bw_keys::{Fence, Key};
use std::alloc::{Allocator, Global};

/// The most records between two merges that are drawn.
const MOST: usize = 8;

/// The height of a box of one line, and of the gap below it.
const STEP: Length = Length(25);

/// The boxes of a chain.
#[derive(Drop)]
pub(crate) struct Tower {
    pub(crate) blocks: Vec<Block>,
    pub(crate) columns: usize,
    pub(crate) height: Length,
}

/// Where the next box goes, and which records are drawn.
#[derive(Clone, Copy)]
struct Spot {
    column: usize,
    top: Length,
    /// The number of records that may still be drawn.
    room: usize,
    /// The number of records just above that weren't.
    hidden: usize,
    /// Where the range of the page that this is a part of ends at the most.
    end: Fence,
}

/// The columns that a part of a chain takes, and where it ends.
#[derive(Clone, Copy)]
struct Extent {
    columns: usize,
    bottom: Length,
}

impl Tower {
    /// Draws the chain of a page, if it has one.
    pub(crate) fn of(pen: &mut Pen, chain: &Option<Chain<Global>>) -> Tower {
        let mut tower = Tower {
            blocks: Vec::new(pen.alloc),
            columns: 1,
            height: Length(0),
        };
        if let Some(chain) = chain {
            let spot = Spot {
                column: 0,
                top: Length(0),
                room: MOST,
                hidden: 0,
                end: Fence::Top,
            };
            let extent = tower.stack(pen, chain, spot);
            tower.columns = extent.columns;
            tower.height = extent.bottom;
        }
        tower
    }

    /// Draws a chain from the spot on.
    fn stack<A: Allocator + Copy>(
        &mut self,
        pen: &mut Pen,
        chain: &Chain<A>,
        spot: Spot,
    ) -> Extent {
        match &chain.node {
            Node::Bare(base) => {
                let spot = self.tell_hidden(pen, spot);
                self.base(pen, base, spot)
            }
            Node::Above(delta, below) => {
                let spot = spot.ending_by(*delta);
                if spot.room == 0 {
                    return self.stack(pen, below, spot.hiding());
                }
                let extent = self.stack(pen, below, spot.below());
                pen.record(*delta);
                self.one_line(pen, kind_of(*delta), spot, extent.columns);
                extent
            }
            Node::Merged(merging, left, right) => {
                let spot = self.tell_hidden(pen, spot);
                let below = spot.below_a_merge(0).ending_at(merging.separator);
                let left = self.stack(pen, left, below);
                let right = self.stack(pen, right, spot.below_a_merge(left.columns));
                let columns = left.columns.saturating_add(right.columns);
                pen.short("merge at ", merging.separator);
                self.one_line(pen, Kind::Shape, spot, columns);
                Extent {
                    columns,
                    bottom: left.bottom.max(right.bottom),
                }
            }
        }
    }

    fn base<A: Allocator + Copy>(&mut self, pen: &mut Pen, base: &Base<A>, spot: Spot) -> Extent {
        let lines = lines_of(pen, base, spot.end);
        let bottom = spot.top + LINE * lines.all.len() + INSET;
        self.add(pen, Kind::Base, spot, 1, lines);
        Extent { columns: 1, bottom }
    }

    /// Draws the number of hidden records, and returns the spot below.
    fn tell_hidden(&mut self, pen: &mut Pen, spot: Spot) -> Spot {
        if spot.hidden == 0 {
            return spot;
        }
        pen.more(spot.hidden);
        self.one_line(pen, Kind::More, spot, 1);
        spot.below()
    }

    /// Draws a box of what the pen has written.
    fn one_line(&mut self, pen: &mut Pen, kind: Kind, spot: Spot, columns: usize) {
        let mut all = Vec::new(pen.alloc);
        pen.line(&mut all);
        self.add(pen, kind, spot, columns, Lines { all, kept: 1 });
    }

    fn add(&mut self, pen: &mut Pen, kind: Kind, spot: Spot, columns: usize, lines: Lines) {
        let block = Block {
            kind,
            column: spot.column,
            columns,
            top: spot.top,
            lines,
        };
        pen.push(&mut self.blocks, block);
    }
}

fn kind_of(delta: Delta) -> Kind {
    match delta {
        Delta::Insert(_, _) | Delta::Modify(_, _) | Delta::Delete(_) => Kind::Change,
        Delta::Split(_, _) | Delta::Remove | Delta::TermAdd(_, _) | Delta::TermDelete(_) => {
            Kind::Shape
        }
    }
}

impl Spot {
    /// Returns the spot in a range that ends at the key, or before it.
    fn ending_at(self, key: Key) -> Spot {
        let end = if self.end.is_above(key) {
            Fence::Key(key)
        } else {
            self.end
        };
        Spot { end, ..self }
    }

    /// Returns the spot below the record.
    fn ending_by(self, delta: Delta) -> Spot {
        match delta {
            Delta::Split(separator, _) => self.ending_at(separator),
            _ => self,
        }
    }

    /// Returns the spot below a box of one line.
    fn below(self) -> Spot {
        Spot {
            top: self.top + STEP,
            room: self.room.saturating_sub(1),
            hidden: 0,
            ..self
        }
    }

    fn hiding(self) -> Spot {
        Spot {
            room: 0,
            hidden: self.hidden.saturating_add(1),
            ..self
        }
    }

    fn below_a_merge(self, columns: usize) -> Spot {
        Spot {
            column: self.column.saturating_add(columns),
            top: self.top + STEP,
            room: MOST,
            hidden: 0,
            ..self
        }
    }
}
