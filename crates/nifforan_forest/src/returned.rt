use bw_procedures::GivenUp;

/// What a worker of a forest brought back.
#[derive(Drop)]
pub struct Returned<O, L = GivenUp> {
    /// What its job returned.
    pub output: O,
    /// What became of its receipts, tree by tree.
    pub trails: Vec<L>,
}
