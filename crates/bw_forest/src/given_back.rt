//! What comes back where no forest is made of it.

use crate::bounds::Bounds;
use crate::closed::ClosedForest;
use crate::closed_tree::ClosedTree;
use crate::fault::{BadTables, ForestFault};
use bw_table::Table;
use bw_tree::NewFault;
use std::alloc::Allocator;

/// Ranges and tables that make no closed forest, and why.
#[derive(Drop)]
pub struct Unclosed<A: Allocator + Copy> {
    pub fault: BadTables,
    pub bounds: Bounds,
    pub tables: Vec<Table<A>>,
}

/// A closed forest that isn't opened again, and why.
#[derive(Drop)]
pub struct Unopened<A: Allocator + Copy> {
    pub fault: NewFault,
    pub forest: ClosedForest<A>,
}

/// A forest that isn't closed, and why: its ranges, and the trees, which are out of their locks.
#[derive(Drop)]
pub struct NotClosed<A: Allocator + Copy> {
    pub fault: ForestFault,
    pub bounds: Bounds,
    pub trees: Vec<ClosedTree<A>>,
}
