ghost use Rattle.std.specs.Prelude.{Some};
ghost use Rattle.bw_audit.specs.Verdicts.{verdict_text};

use std::alloc::{AllocError, AllocFailed};
use std::fmt;
use thiserror::Error;

/// The verdict of an audit.
#[derive(Clone, Copy, Debug, PartialEq, Eq, Hash)]
pub enum Verdict {
    /// One order of the changes explains every reply, and leaves the pairs.
    Yes,
    /// The first bad receipt, by its worker and its place in the worker's trail, both counted from
    /// 0; the number of trails and 0 where every receipt is good but the pairs are others.
    No(usize, usize),
}

/// `yes`, or `no` with the worker and the place of the first bad receipt.
impl fmt::Display for Verdict {
    ghost output = { λ verdict. Some (verdict_text verdict) };

    fn fmt<W: fmt::Write>(&self, f: &mut fmt::Formatter<W>) -> fmt::Result {
        match *self {
            Verdict::Yes => f.write_str("yes"),
            Verdict::No(worker, place) => write!(f, "no {worker} {place}"),
        }
    }
}

/// Why a history isn't audited.
#[derive(Clone, Copy, Debug, PartialEq, Eq, Error)]
pub enum AuditFault {
    #[error("out of memory")]
    NoMemory,
}

impl From<AllocError> for AuditFault {
    fn from(_: AllocError) -> AuditFault {
        AuditFault::NoMemory
    }
}

impl<T: Drop> From<AllocFailed<T>> for AuditFault {
    fn from(_: AllocFailed<T>) -> AuditFault {
        AuditFault::NoMemory
    }
}
