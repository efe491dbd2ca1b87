//! How a trial ends.

use bw_audit::AuditFault;
use bw_delta::NoMemory;
use bw_snap::Closed;
use std::alloc::{AllocError, AllocFailed};

/// How a trial ended in which everything held.
#[derive(Clone, Copy)]
pub(crate) enum Ending {
    /// Nothing was refused.
    Whole,
    /// A request was refused, and what was asked for was done again.
    Refused,
}

impl Ending {
    /// Returns the ending of two parts.
    pub(crate) fn and(self, other: Ending) -> Ending {
        match self {
            Ending::Whole => other,
            Ending::Refused => Ending::Refused,
        }
    }
}

/// Why a trial came to no end.
#[derive(Clone, Copy)]
pub(crate) enum Stop {
    /// A request was refused while nothing was at stake: the trial may begin again.
    Memory,
    /// What should hold, and didn't.
    Broken(&'static str),
}

/// What a worker does otherwise than the plain map beside it. It is no sentence, as the borrow checker
/// covers no call with a worker of two lifetimes whose result names `'static`, too.
#[derive(Clone, Copy)]
pub(crate) enum Deviation {
    /// A reply isn't the map's.
    Reply,
    /// The pairs aren't the map's.
    Pairs,
    /// A fault isn't want of memory.
    Fault,
    /// Memory is refused a second time.
    Refusal,
}

impl From<Deviation> for Stop {
    fn from(deviation: Deviation) -> Stop {
        Stop::Broken(match deviation {
            Deviation::Reply => "a reply is a plain map's",
            Deviation::Pairs => "the pairs are the script's",
            Deviation::Fault => "memory alone is wanting",
            Deviation::Refusal => "memory is refused once",
        })
    }
}

impl From<NoMemory> for Stop {
    fn from(_: NoMemory) -> Stop {
        Stop::Memory
    }
}

impl From<AllocError> for Stop {
    fn from(_: AllocError) -> Stop {
        Stop::Memory
    }
}

impl<T: Drop> From<AllocFailed<T>> for Stop {
    fn from(_: AllocFailed<T>) -> Stop {
        Stop::Memory
    }
}

impl From<AuditFault> for Stop {
    fn from(_: AuditFault) -> Stop {
        Stop::Memory
    }
}

impl From<Closed> for Stop {
    fn from(_: Closed) -> Stop {
        Stop::Broken("an open tree has an answer for its readers")
    }
}

/// Fails with the sentence unless it holds.
pub(crate) fn hold(holds: bool, sentence: &'static str) -> Result<(), Stop> {
    if holds {
        Ok(())
    } else {
        Err(Stop::Broken(sentence))
    }
}
