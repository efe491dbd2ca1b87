use bw_step::Receipt;
use bw_table::Table;
use std::alloc::Global;

/// What is left of a tree once all its workers have ended.
#[derive(Drop)]
pub struct Outcome<O, L = Vec<Receipt>> {
    /// The tree's table.
    pub table: Table<Global>,
    /// What each worker's job returned, by the workers' numbers.
    pub outputs: Vec<O>,
    /// What became of each worker's receipts, by the workers' numbers: usually a list of them, in
    /// order.
    pub trails: Vec<L>,
}
