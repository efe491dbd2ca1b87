//! Why there is no film.

ghost use Rattle.std.specs.Prelude.{◌≡◌};
ghost use Rattle.bw_film.specs.declared.fault.FilmFault.TheVariants as film_fault;

use bw_delta::NoMemory;
use bw_keys::BadConfig;
use bw_procedures::Fault;
use bw_scripts::ScriptFault;
use thiserror::Error;

/// Why there is no film.
#[derive(Clone, Copy, Debug, PartialEq, Eq, Error)]
pub enum FilmFault {
    /// A field of the configuration is out of its range.
    #[error("{0}")]
    Config(BadConfig),
    /// A worker, by its number, gave up at a row of the trace, counted from 1.
    #[error("worker {0} row {1}: {2}")]
    Stopped(usize, usize, Fault),
    #[error(transparent)]
    Script(ScriptFault),
    #[error("memory")]
    Memory,
}

impl From<NoMemory> for FilmFault {
    ghost from_gives = { λ _ fault. fault ≡ film_fault.Memory };

    fn from(_: NoMemory) -> FilmFault {
        FilmFault::Memory
    }
}

impl From<ScriptFault> for FilmFault {
    ghost from_gives = { λ script fault. fault ≡ film_fault.Script script };

    fn from(fault: ScriptFault) -> FilmFault {
        FilmFault::Script(fault)
    }
}
