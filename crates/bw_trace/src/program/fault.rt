//! Why the program ends without its result, and the statuses with which it ends.

ghost use Rattle.std.specs.Prelude.{◌≡◌, ◌<◌, ◌⊎◌};
ghost use Rattle.bw_trace.specs.declared.program.fault.Fault.TheVariants as program_fault;
ghost use Rattle.bw_trace.specs.Statuses.{fault_of, film_fault_of, status_of};

use crate::program::options::Field;
use bw_audit::AuditFault;
use bw_delta::NoMemory;
use bw_film::FilmFault;
use bw_run::RunFault;
use bw_scripts::ScriptFault;
use bw_texts::{OutFault, TextFault};
use clap::error::ErrorKind;
use std::alloc::AllocError;
use std::io;
use thiserror::Error;

pub(crate) const DONE: u8 = 0;

const BAD_INPUT: u8 = 1;

pub(crate) const BAD_USAGE: u8 = 2;

const AT_A_LIMIT: u8 = 3;

pub(crate) const AUDIT_NO: u8 = 4;

/// Why the program ends without its result.
#[derive(Debug, Drop, Error)]
pub(crate) enum Fault {
    /// The words ask for help, or the program doesn't know them.
    #[error(transparent)]
    Usage(clap::Error),
    #[error("bad {}", .0.name())]
    Bad(Field),
    #[error(transparent)]
    Text(TextFault),
    #[error(transparent)]
    Run(RunFault),
    #[error(transparent)]
    Script(ScriptFault),
    /// The file that the words name, and why it can't be opened, unless memory is short for that.
    #[error("can't open '{0}'")]
    Open(String, Option<String>),
    #[error("write")]
    Write,
    #[error("memory")]
    Memory,
}

impl Fault {
    pub(crate) fn status(&self) -> u8
        ensures status { result ≡ status_of self.now }
        ensures failed { 0 < result }
    {
        match self {
            Fault::Text(TextFault::Row(_, _) | TextFault::Read)
            | Fault::Script(ScriptFault::Line(_) | ScriptFault::NoTable | ScriptFault::Read)
            | Fault::Open(_, _)
            | Fault::Write => BAD_INPUT,
            Fault::Usage(_)
            | Fault::Bad(_)
            | Fault::Run(
                RunFault::Config(_) | RunFault::Workers | RunFault::Readers | RunFault::Trees,
            ) => BAD_USAGE,
            Fault::Run(RunFault::Audit(_, _) | RunFault::TreeAudit(_, _, _)) => AUDIT_NO,
            Fault::Text(TextFault::Rows | TextFault::Memory)
            | Fault::Script(ScriptFault::Lines | ScriptFault::Memory)
            | Fault::Run(_)
            | Fault::Memory => AT_A_LIMIT,
        }
    }
}

impl From<clap::Error> for Fault {
    ghost from_gives = { λ error fault.
        (fault ≡ program_fault.Memory) ⊎ (fault ≡ program_fault.Usage error) };

    fn from(error: clap::Error) -> Fault {
        match error.kind() {
            ErrorKind::OutOfMemory => Fault::Memory,
            _ => Fault::Usage(error),
        }
    }
}

impl From<Field> for Fault {
    ghost from_gives = { λ field fault. fault ≡ program_fault.Bad field };

    fn from(field: Field) -> Fault {
        Fault::Bad(field)
    }
}

impl From<TextFault> for Fault {
    ghost from_gives = { λ text fault. fault ≡ program_fault.Text text };

    fn from(fault: TextFault) -> Fault {
        Fault::Text(fault)
    }
}

impl From<OutFault> for Fault {
    ghost from_gives = { λ out fault. fault ≡ fault_of out };

    fn from(fault: OutFault) -> Fault {
        match fault {
            OutFault::Write => Fault::Write,
            OutFault::Memory => Fault::Memory,
        }
    }
}

impl From<RunFault> for Fault {
    ghost from_gives = { λ run fault. fault ≡ program_fault.Run run };

    fn from(fault: RunFault) -> Fault {
        Fault::Run(fault)
    }
}

impl From<ScriptFault> for Fault {
    ghost from_gives = { λ script fault. fault ≡ program_fault.Script script };

    fn from(fault: ScriptFault) -> Fault {
        Fault::Script(fault)
    }
}

impl From<FilmFault> for Fault {
    ghost from_gives = { λ film fault. fault ≡ film_fault_of film };

    fn from(fault: FilmFault) -> Fault {
        match fault {
            FilmFault::Config(bad) => Fault::Run(RunFault::Config(bad)),
            FilmFault::Stopped(worker, row, fault) => {
                Fault::Run(RunFault::Stopped(worker, row, fault))
            }
            FilmFault::Script(fault) => Fault::Script(fault),
            FilmFault::Memory => Fault::Memory,
        }
    }
}

impl From<NoMemory> for Fault {
    ghost from_gives = { λ _ fault. fault ≡ program_fault.Memory };

    fn from(_: NoMemory) -> Fault {
        Fault::Memory
    }
}

impl From<AllocError> for Fault {
    ghost from_gives = { λ _ fault. fault ≡ program_fault.Memory };

    fn from(_: AllocError) -> Fault {
        Fault::Memory
    }
}

impl From<AuditFault> for Fault {
    ghost from_gives = { λ _ fault. fault ≡ program_fault.Memory };

    fn from(_: AuditFault) -> Fault {
        Fault::Memory
    }
}

impl From<io::Error> for Fault {
    ghost from_gives = { λ _ fault. fault ≡ program_fault.Write };

    fn from(_: io::Error) -> Fault {
        Fault::Write
    }
}
