//! Maps compared, and printed, by their pairs.

ghost use Rattle.std.specs.Prelude.{◌≡◌};
ghost use Rattle.nifforan.specs.Maps.{are_same};

use crate::iter::Iter;
use crate::map::Map;
use std::alloc::Allocator;
use std::fmt;

/// Maps are equal if they have the same pairs. Their configurations may differ.
impl<A: Allocator + Copy> PartialEq for Map<A> {
    ghost use Rattle.std.specs.Cmp.{nat_eq_equiv, partial_equiv_from_equiv, on_per, and_per};
    ghost use Rattle.std.specs.Cmp.Lexicographic.{lists_per};
    ghost use Rattle.nifforan.specs.Maps.{are_same};

    ghost eq = { λ map other. are_same map.pairs other.pairs };

    ghost laws = { let key_laws = partial_equiv_from_equiv nat_eq_equiv in
        on_per (λ map. map.pairs) (lists_per
        (and_per (on_per (λ pair. pair.0) key_laws) (on_per (λ pair. pair.1) key_laws))) };

    fn eq(&self, other: &Map<A>) -> bool {
        have_same(self.iter(), other.iter())
    }
}

impl<A: Allocator + Copy> Eq for Map<A> {
    ghost use Rattle.std.specs.Cmp.{nat_eq_equiv, on_equiv, and_equiv};
    ghost use Rattle.std.specs.Cmp.Lexicographic.{lists_equiv};

    ghost laws = { on_equiv (λ map. map.pairs) (lists_equiv
        (and_equiv (on_equiv (λ pair. pair.0) nat_eq_equiv)
        (on_equiv (λ pair. pair.1) nat_eq_equiv))) };
}

/// Prints the pairs in the order of their keys, as `{1: 10, 2: 20}`.
impl<A: Allocator + Copy> fmt::Debug for Map<A> {
    fn fmt<W: fmt::Write>(&self, f: &mut fmt::Formatter<W>) -> fmt::Result {
        f.debug_map().entries(self).finish()
    }
}

/// Returns whether both yield the same pairs.
fn have_same<A: Allocator + Copy>(mut left: Iter<'_, A>, mut right: Iter<'_, A>) -> bool
    ensures { result ≡ are_same left.entry right.entry }
{
    if left.len() != right.len() {
        return false;
    }
    while let Some(pair) = left.next() {
        if right.next() != Some(pair) {
            return false;
        }
    }
    true
}
