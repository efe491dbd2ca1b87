//! Why a script isn't played to its end.

ghost use Rattle.std.specs.Prelude.{◌≡◌, ◌↔◌};
ghost use Rattle.std.specs.IoError.{error_kind};
ghost use Rattle.bw_scripts.specs.Faults.{IsLineFault};

use std::io;
use std::io::ErrorKind;
use thiserror::Error;

/// Why a script isn't played to its end, or has no table.
#[derive(Clone, Copy, Debug, PartialEq, Eq, Error)]
pub enum ScriptFault {
    /// The first line that can't be read, counted from 1. Before there is a table, a step or a
    /// question can't be read either.
    #[error("line {0}: the line can't be read")]
    Line(u64),
    /// No line has made a table.
    #[error("no table")]
    NoTable,
    /// There are more than [`MOST_LINES`](crate::MOST_LINES) lines.
    #[error("lines")]
    Lines,
    /// The reader failed.
    #[error("read")]
    Read,
    #[error("memory")]
    Memory,
}

impl ScriptFault {
    /// Returns the fault of a script whose reader failed at the line with this number.
    pub fn of_reader(number: u64, error: &io::Error) -> ScriptFault
        ensures memory { (result ≡ ScriptFault.Memory)
            ↔ (error_kind error.now ≡ ErrorKind.OutOfMemory) }
        ensures no_text { (result ≡ ScriptFault.Line number)
            ↔ (error_kind error.now ≡ ErrorKind.InvalidData) }
        ensures named { IsLineFault number result }
    {
        match error.kind() {
            ErrorKind::OutOfMemory => ScriptFault::Memory,
            ErrorKind::InvalidData => ScriptFault::Line(number),
            _ => ScriptFault::Read,
        }
    }
}
