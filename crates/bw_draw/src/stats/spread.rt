ghost use Rattle.std.specs.Prelude.{◌≡◌, sum};
ghost use Rattle.bw_draw.specs.Figures.{IsSpreadOf, capped, least, greatest};

use crate::pen::Pen;

/// A summary of some numbers.
#[derive(Clone, Copy)]
pub struct Spread {
    /// The number of numbers.
    pub count: usize,
    /// The least, or 0 if there is none.
    pub least: u64,
    /// The greatest, or 0 if there is none.
    pub greatest: u64,
    /// The sum, at most 2^64 - 1.
    pub sum: u64,
}

impl Spread {
    /// Returns the summary of the numbers.
    pub fn of(numbers: &[u64]) -> Spread
        ensures { IsSpreadOf numbers.now result }
    {
        let Some((first, rest)) = numbers.split_first() else {
            return Spread {
                count: 0,
                least: 0,
                greatest: 0,
                sum: 0,
            };
        };
        let (mut least, mut greatest, mut sum) = (*first, *first, *first);
        for number in rest {
            least = least.min(*number);
            greatest = greatest.max(*number);
            sum = sum.saturating_add(*number);
        }
        Spread {
            count: numbers.len(),
            least,
            greatest,
            sum,
        }
    }

    /// Writes a text, and after it the least, the mean with two decimals and the greatest, or
    /// `none`.
    pub(crate) fn write(self, pen: &mut Pen, text: &str) {
        let count = self.count as u64;
        pen.write(text);
        if count == 0 {
            return pen.write("none");
        }
        pen.number("least ", self.least);
        pen.number(" mean ", self.sum / count);
        let hundredths = (self.sum % count).saturating_mul(100) / count;
        pen.number(".", hundredths / 10);
        pen.number("", hundredths % 10);
        pen.number(" greatest ", self.greatest);
    }
}
