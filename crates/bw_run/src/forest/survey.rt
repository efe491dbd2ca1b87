//! What a whole forest looks like.

ghost use Rattle.std.specs.Prelude.{◌≡◌, ◌++◌, IfOk, OnOk};
ghost use Rattle.std.specs.List.{filter_map};
ghost use Rattle.bw_forest.specs.Bounds.{ranges_of};
ghost use Rattle.bw_run.specs.ForestSurveys.{IsForestSurvey, cut_to, lower_of, with_book};

use crate::forest::ending::FinishedForest;
use bw_delta::NoMemory;
use bw_keys::{Fence, Range};
use bw_step::{Book, Leaf, Survey};
use std::alloc::Global;

/// A book in which nothing is counted.
const NOTHING: Book = Book {
    inserted: 0,
    removed: 0,
    modified: 0,
};

impl FinishedForest {
    /// Returns the leaves of all trees in the order of their keys, the levels of the highest tree,
    /// and what the books of all trees have together, each number at most 2^64 - 1.
    ///
    /// A tree's first leaf has all keys below the second one's in its own table, and its last leaf
    /// all keys from its low on. Here each leaf's range ends where its tree's does, so that the
    /// leaves partition the keys; a leaf without a key of its tree's range isn't listed.
    pub fn survey(&self, machine: Global) -> Result<Survey, NoMemory>
        ensures { IfOk result (IsForestSurvey (ranges_of self.now.forest.bounds)
            self.now.forest.tables) }
    {
        let mut leaves = Vec::new(machine);
        let mut levels = 0;
        let mut book = NOTHING;
        for tree in self.forest.trees() {
            let own = tree.table().survey(machine)?;
            append_within(&mut leaves, tree.range(), &own.leaves)?;
            levels = levels.max(own.levels);
            book = together(book, own.book);
        }
        Ok(Survey {
            levels,
            leaves,
            book,
        })
    }
}

/// Appends what the leaves have of the range.
fn append_within(leaves: &mut Vec<Leaf>, range: Range, own: &[Leaf]) -> Result<(), NoMemory>
    ensures { OnOk result
        (leaves.new.items ≡ leaves.old.items ++ filter_map (cut_to range) own.now) }
{
    for leaf in own {
        if let Some(part) = cut(*leaf, range) {
            leaves.push(part)?;
        }
    }
    Ok(())
}

/// Returns what the leaf has of the range, if it has a key of it.
fn cut(leaf: Leaf, range: Range) -> Option<Leaf>
    ensures { result ≡ cut_to range leaf }
{
    let low = leaf.range.low.max(range.low);
    let high = lower_of(leaf.range.high, range.high);
    if !high.is_above(low) {
        return None;
    }
    Some(Leaf {
        range: Range { low, high },
        ..leaf
    })
}

/// Returns the fence that comes first.
fn lower_of(one: Fence, other: Fence) -> Fence
    ensures { result ≡ lower_of one other }
{
    match (one, other) {
        (Fence::Top, _) => other,
        (_, Fence::Top) => one,
        (Fence::Key(end), Fence::Key(other_end)) => Fence::Key(end.min(other_end)),
    }
}

/// Returns what both books have.
fn together(one: Book, other: Book) -> Book
    ensures { result ≡ with_book one other }
{
    Book {
        inserted: one.inserted.saturating_add(other.inserted),
        removed: one.removed.saturating_add(other.removed),
        modified: one.modified.saturating_add(other.modified),
    }
}
