//! The parts of a row.

ghost use Rattle.std.specs.Prelude.{Some};
ghost use Rattle.bw_texts.specs.Rows.{part_text};

use std::fmt;

/// A part of a row. The parts are read in this order, and the first that can't be is the fault.
#[derive(Clone, Copy, Debug, PartialEq, Eq, Hash)]
pub enum Part {
    /// The number of fields.
    Fields,
    Worker,
    Op,
    Key,
    Value,
    /// The value that a modified key had.
    Old,
}

impl fmt::Display for Part {
    ghost output = { λ part. Some (part_text part) };

    fn fmt<W: fmt::Write>(&self, f: &mut fmt::Formatter<W>) -> fmt::Result {
        f.write_str(match self {
            Part::Fields => "fields",
            Part::Worker => "worker",
            Part::Op => "op",
            Part::Key => "key",
            Part::Value => "value",
            Part::Old => "old",
        })
    }
}
