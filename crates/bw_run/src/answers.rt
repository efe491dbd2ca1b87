//! What a worker answers to its rows.

ghost use Rattle.std.specs.Prelude.{◌≡◌};
ghost use Rattle.bw_procedures.specs.declared.fault.Fault.TheVariants as faults;
ghost use Rattle.bw_run.specs.declared.answers.Stop.TheVariants as stops;

use bw_delta::NoMemory;
use bw_procedures::{Fault, Reply};

/// Why a worker gave a row up.
#[derive(Clone, Copy)]
pub(crate) enum Stop {
    /// Its call ended with this fault.
    Fault(Fault),
    /// Its reader found nothing to read.
    Closed,
}

impl From<Fault> for Stop {
    ghost from_gives = { λ fault stop. stop ≡ stops.Fault fault };

    fn from(fault: Fault) -> Stop {
        Stop::Fault(fault)
    }
}

impl From<NoMemory> for Stop {
    ghost from_gives = { λ _ stop. stop ≡ stops.Fault faults.NoMemory };

    fn from(_: NoMemory) -> Stop {
        Stop::Fault(Fault::NoMemory)
    }
}

/// A reply to each of a worker's acts, or, if it stopped, to those before the one that it gave up.
#[derive(Drop)]
pub(crate) struct Answers {
    pub replies: Vec<Reply>,
    pub stop: Option<Stop>,
}
