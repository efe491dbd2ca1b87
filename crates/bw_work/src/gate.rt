use bw_step::Kind;

/// Called by a worker after each accepted step that changes the tree's shape, with the lock free. A
/// test holds a worker there, to let others come between two steps of one change.
pub trait Gate {
    /// The worker's step of this kind was accepted.
    fn at(&self, worker: u32, kind: Kind);
}

/// The gate that holds nobody.
#[derive(Clone, Copy, Debug, Default, PartialEq, Eq, Hash)]
pub struct Open;

impl Gate for Open {
    fn at(&self, _worker: u32, _kind: Kind) {}
}
