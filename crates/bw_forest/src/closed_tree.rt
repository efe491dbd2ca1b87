//! One tree of a forest that was closed.

ghost use Rattle.std.specs.Prelude.{◌≡◌};
ghost use Rattle.bw_tree.specs.Ranges.{LiesIn};
ghost use Rattle.bw_forest.specs.Plots.{PlotValue, plot_code};

use bw_keys::Range;
use bw_table::Table;
use std::alloc::Allocator;
use std::marker::Model;

/// A table and the range that its keys lie in.
#[derive(Drop)]
pub struct ClosedTree<A: Allocator + Copy> {
    range: Range,
    table: Table<A>,
}

impl<A: Allocator + Copy> Model for ClosedTree<A> {
    ghost Value = { PlotValue };

    ghost coded = { plot_code };

    ghost view = { λ t. record { table = t.table; range = t.range } };

    ghost invariant = { λ t. LiesIn t.range t.table.slots };
}

impl<A: Allocator + Copy> ClosedTree<A> {
    pub(crate) fn new(range: Range, table: Table<A>) -> ClosedTree<A>
        requires { LiesIn range table.slots }
        ensures table { result.table ≡ table }
        ensures range { result.range ≡ range }
    {
        ClosedTree { range, table }
    }

    /// Returns the range that the keys lie in.
    pub fn range(&self) -> Range
        ensures same { result ≡ self.now.range }
        ensures within { LiesIn result self.now.table.slots }
    {
        self.range
    }

    /// Returns the table.
    pub fn table(&self) -> &Table<A>
        ensures same { result.now ≡ self.now.table }
        ensures within { LiesIn self.now.range result.now.slots }
    {
        &self.table
    }

    /// Returns the table, and drops its range.
    pub fn into_table(self) -> Table<A>
        ensures same { result ≡ self.table }
        ensures within { LiesIn self.range result.slots }
    {
        let ClosedTree { table, .. } = self;
        table
    }
}
