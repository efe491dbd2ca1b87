ghost use Rattle.std.specs.Prelude.{Some};
ghost use Rattle.bw_step.specs.Texts.{leaf_text};

use crate::view::Stage;
use bw_keys::{Fence, Key, Pid, Range};
use std::fmt;

/// How many changes of the map there were.
#[derive(Clone, Copy, Debug, PartialEq, Eq, Hash)]
pub struct Book {
    pub inserted: u64,
    pub removed: u64,
    pub modified: u64,
}

/// What the table keeps of a page beside its chain, so that no chain is walked for it.
#[derive(Clone, Copy, Debug, PartialEq, Eq, Hash)]
pub struct Summary {
    /// How many pairs a leaf has, or routes an inner page.
    pub count: u64,
    /// The least key of the page's range.
    pub low: Key,
    /// The page to the right, if there is one.
    pub right: Option<Pid>,
    /// Where the range ends.
    pub high: Fence,
    /// How many records stand above a base, along the deepest path.
    pub depth: u8,
    /// 0 for a leaf, and at most `MAX_LEVEL`.
    pub level: u8,
}

/// A leaf of the tree.
#[derive(Clone, Copy, Debug, PartialEq, Eq, Hash)]
pub struct Leaf {
    pub pid: Pid,
    pub range: Range,
    /// How many pairs the leaf has.
    pub count: u64,
    pub stage: Stage,
}

/// The range and the number of pairs: `LOW HIGH COUNT`.
impl fmt::Display for Leaf {
    ghost output = { λ leaf. Some (leaf_text leaf) };

    fn fmt<W: fmt::Write>(&self, f: &mut fmt::Formatter<W>) -> fmt::Result {
        write!(f, "{} {} {}", self.range.low, self.range.high, self.count)
    }
}

/// What the whole tree looks like.
#[derive(Debug, Drop)]
pub struct Survey {
    /// How many levels the tree has, 1 for a tree of leaves alone.
    pub levels: u8,
    /// The leaves, from the least key to the greatest.
    pub leaves: Vec<Leaf>,
    pub book: Book,
}

/// A line for each leaf, and one with the numbers of pairs that were inserted, were removed and are
/// there. No line feed ends the last one.
impl fmt::Display for Survey {
    fn fmt<W: fmt::Write>(&self, f: &mut fmt::Formatter<W>) -> fmt::Result {
        let mut pairs = 0u64;
        for leaf in self.leaves.iter() {
            writeln!(f, "{leaf}")?;
            pairs = pairs.saturating_add(leaf.count);
        }
        let book = self.book;
        write!(
            f,
            "inserted {} removed {} pairs {pairs}",
            book.inserted, book.removed
        )
    }
}
