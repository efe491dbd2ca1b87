//! All pairs of a map, from either end, and how many are left.

use crate::pairs::Pairs;
use bw_keys::Key;
use std::alloc::Allocator;
use std::iter::{ExactSizeIterator, FusedIterator};
use std::marker::Model;

/// The pairs of a map, in the order of their keys, from either end. It knows how many are left.
///
/// Takes no memory, and walks as [`Pairs`] does.
#[derive(Drop)]
pub struct Iter<'m, A: Allocator + Copy> {
    pub(crate) pairs: Pairs<'m, A>,
    /// How many pairs are left.
    pub(crate) left: u64,
}

impl<'m, A: Allocator + Copy> Model for Iter<'m, A> {
    ghost use Rattle.std.specs.Coded.{coded_list, coded×, coded_ℕ};
    ghost use Rattle.std.specs.Prelude.{◌≡◌, length};
    ghost use Rattle.nifforan.specs.Maps.{PairList};

    ghost Value = { PairList };

    ghost coded = { coded_list (coded× coded_ℕ coded_ℕ) };

    ghost view = { λ i. i.pairs };

    ghost invariant = { λ i. i.left ≡ length i.pairs };
}

impl<'m, A: Allocator + Copy> Iterator for Iter<'m, A> {
    ghost use Rattle.std.specs.Iterator.{YieldsFirst, item_count};

    type Item = (Key, u64);

    ghost next_gives = { YieldsFirst (λ left. left) };

    ghost remaining = { item_count (λ left. left) };

    #[inline(always)]
    fn next(&mut self) -> Option<(Key, u64)> {
        let pair = self.pairs.next()?;
        self.left -= 1;
        Some(pair)
    }

    fn size_hint(&self) -> (usize, Option<usize>) {
        let left = self.len();
        (left, Some(left))
    }
}

impl<'m, A: Allocator + Copy> DoubleEndedIterator for Iter<'m, A> {
    ghost use Rattle.std.specs.Iterator.{YieldsLast};

    ghost next_back_gives = { YieldsLast (λ left. left) };

    #[inline(always)]
    fn next_back(&mut self) -> Option<(Key, u64)> {
        let pair = self.pairs.next_back()?;
        self.left -= 1;
        Some(pair)
    }
}

impl<'m, A: Allocator + Copy> ExactSizeIterator for Iter<'m, A> {
    fn len(&self) -> usize {
        self.left as usize
    }
}

impl<'m, A: Allocator + Copy> FusedIterator for Iter<'m, A> {}
