//! Why a text can't be read or written.

ghost use Rattle.std.specs.Prelude.{◌≡◌};
ghost use Rattle.bw_texts.specs.declared.fault.OutFault.TheVariants as out_fault;
ghost use Rattle.bw_texts.specs.declared.fault.TextFault.TheVariants as text_fault;

use crate::part::Part;
use bw_delta::NoMemory;
use std::alloc::AllocFailed;
use std::io;
use thiserror::Error;

/// Why a trace or a history can't be read.
#[derive(Clone, Copy, Debug, PartialEq, Eq, Hash, Error)]
pub enum TextFault {
    /// The first row that can't be read, counted from 1, and the first part of it that can't.
    #[error("row {0}: {1}")]
    Row(u64, Part),
    /// The reader failed.
    #[error("read")]
    Read,
    /// There are more rows than allowed.
    #[error("rows")]
    Rows,
    #[error("memory")]
    Memory,
}

impl<T: Drop> From<AllocFailed<T>> for TextFault {
    ghost from_gives = { λ _ fault. fault ≡ text_fault.Memory };

    fn from(_: AllocFailed<T>) -> TextFault {
        TextFault::Memory
    }
}

/// Why a trace or a history couldn't be written. Part of it may have been.
#[derive(Clone, Copy, Debug, PartialEq, Eq, Hash, Error)]
pub enum OutFault {
    /// The writer failed.
    #[error("write")]
    Write,
    #[error("memory")]
    Memory,
}

impl<T: Drop> From<AllocFailed<T>> for OutFault {
    ghost from_gives = { λ _ fault. fault ≡ out_fault.Memory };

    fn from(_: AllocFailed<T>) -> OutFault {
        OutFault::Memory
    }
}

impl From<NoMemory> for OutFault {
    ghost from_gives = { λ _ fault. fault ≡ out_fault.Memory };

    fn from(_: NoMemory) -> OutFault {
        OutFault::Memory
    }
}

impl From<io::Error> for OutFault {
    ghost from_gives = { λ _ fault. fault ≡ out_fault.Write };

    fn from(_: io::Error) -> OutFault {
        OutFault::Write
    }
}
