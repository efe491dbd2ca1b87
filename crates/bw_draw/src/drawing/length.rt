//! Lengths and places in a drawing.

ghost use Rattle.std.specs.Prelude.{◌≡◌, ◌+◌, ◌-◌, ◌*◌};
ghost use Rattle.bw_draw.specs.Figures.{capped};

use std::ops::{Add, Mul, Sub};

/// A length or a place of a drawing, in pixels. Its arithmetic saturates.
#[derive(Clone, Copy)]
pub(crate) struct Length(pub(crate) usize);

impl Length {
    pub(crate) fn half(self) -> Length {
        Length(self.0 / 2)
    }

    pub(crate) fn max(self, other: Length) -> Length {
        Length(self.0.max(other.0))
    }

    /// Returns one of the places that divide the length into this number of parts and one.
    pub(crate) fn port(self, place: usize, places: usize) -> Length {
        (self * place.saturating_add(1)).part_of(places.saturating_add(1))
    }

    fn part_of(self, parts: usize) -> Length {
        Length(self.0.checked_div(parts).unwrap_or(0))
    }

    /// Returns how many of this length fit into the other, at least one.
    pub(crate) fn fits(self, other: Length) -> usize {
        other.0.checked_div(self.0).unwrap_or(1).max(1)
    }
}

impl Add for Length {
    type Output = Length;

    ghost add_gives = { λ length other sum. sum.0 ≡ capped (length.0 + other.0) };

    fn add(self, other: Length) -> Length {
        Length(self.0.saturating_add(other.0))
    }
}

impl Sub for Length {
    type Output = Length;

    ghost sub_gives = { λ length other rest. rest.0 ≡ length.0 - other.0 };

    fn sub(self, other: Length) -> Length {
        Length(self.0.saturating_sub(other.0))
    }
}

impl Mul<usize> for Length {
    type Output = Length;

    ghost mul_gives = { λ length times all. all.0 ≡ capped (length.0 * times) };

    fn mul(self, times: usize) -> Length {
        Length(self.0.saturating_mul(times))
    }
}
