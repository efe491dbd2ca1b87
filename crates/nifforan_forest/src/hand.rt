//! A worker's hand on one tree of a forest, whose ledger knows the ranges of the trees.

ghost use Rattle.std.specs.Prelude.{◌≡◌, ℕ, List, [], ◌∷◌};
ghost use Rattle.bw_keys.specs.declared.range.Range.{Range};

use bw_crew::{Member, Worker};
use bw_procedures::Trail;
use bw_step::Step;
use bw_tree::{MadeBy, Ordered};
use bw_work::Gate;
use std::alloc::Global;
use std::marker::Brand;

/// A worker's hand on one tree of a forest. Each question about the tree's map is answered in one
/// hold of the tree's lock.
pub trait ForestHand: Worker {
    // where the ranges of the forest's trees begin
    ghost bounds: { List ℕ };

    // the range of the tree that the hand is on
    ghost range: { Self → Range };

    // law: a hand stays on its tree
    ghost stays_there: { (a b : Self) → Self.follows a b → range a ≡ range b };
}

/// A ledger of a forest whose trees have these ranges of the keys.
pub trait Divides: MadeBy {
    // where the trees' ranges begin
    ghost bounds: { List ℕ };
}

impl Divides for Brand {
    ghost bounds = { 0 ∷ [] };
}

impl<'t, I: Divides, S: Ordered<Global, Step<Global>, Insertions = I>, G: Gate, L: Trail> ForestHand
    for Member<'t, S, G, L> {
    ghost bounds = { I.bounds };

    ghost range = { λ m. m.range };

    ghost stays_there = { λ a b followed. followed };
}
