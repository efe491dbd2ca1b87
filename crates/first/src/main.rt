//! Puts four keys into a table of one leaf, each by a checked step, and prints what it has then.
#![tactic(auto)]

ghost use Rattle.std.specs.Prelude.{◌≡◌, ◌≢◌};

use bw_delta::{NoMemory, Spare};
use bw_keys::{Config, Key, Pid};
use bw_table::{Insert, NewFault, Refused, Step, Table};
use std::alloc::{AllocError, Global};
use std::process::ExitCode;
use thiserror::Error;

/// Why the program stops.
#[derive(Clone, Copy, Debug, PartialEq, Eq, Error)]
enum Stop {
    #[error("memory")]
    Memory,
    #[error("{0}")]
    BadConfig(NewFault),
    #[error("{0}")]
    Refused(Refused),
}

impl From<NoMemory> for Stop {
    fn from(_: NoMemory) -> Stop
        ensures { result ≡ Stop.Memory }
    {
        Stop::Memory
    }
}

impl From<AllocError> for Stop {
    fn from(_: AllocError) -> Stop
        ensures { result ≡ Stop.Memory }
    {
        Stop::Memory
    }
}

impl From<NewFault> for Stop {
    fn from(fault: NewFault) -> Stop
        ensures memory { fault ≡ NewFault.NoMemory → result ≡ Stop.Memory }
        ensures config { fault ≢ NewFault.NoMemory → result ≡ Stop.BadConfig fault }
    {
        match fault {
            NewFault::NoMemory => Stop::Memory,
            NewFault::BadConfig(_) => Stop::BadConfig(fault),
        }
    }
}

impl Stop {
    fn status(self) -> u8
        ensures { self ≡ Stop.Memory → result ≡ 3 }
    {
        match self {
            Stop::Memory => 3,
            Stop::BadConfig(_) | Stop::Refused(_) => 1,
        }
    }
}

/// Puts the key with itself as value, by the version that the leaf has now.
fn put(alloc: Global, table: &mut Table<Global>, key: Key) -> Result<(), Stop> {
    let page = Pid(0);
    let view = table.peek(page).ok_or(Stop::Refused(Refused::Absent))?;
    let step = Step::Insert(Insert {
        page,
        seen: view.version,
        key,
        value: key,
        spare: Spare::new(alloc)?,
    });
    match table.install(step) {
        Ok(_) => Ok(()),
        Err(reason) => Err(Stop::Refused(reason)),
    }
}

/// Returns the lines that the program prints: each leaf, and then the numbers of pairs inserted,
/// removed and there.
fn report(alloc: Global) -> Result<String, Stop> {
    let mut table = Table::new(alloc, alloc, Config::default())?;
    for key in 1..5 {
        put(alloc, &mut table, key)?;
    }
    let survey = table.survey(alloc)?;
    Ok(format!(in alloc; "{survey}\n")?)
}

fn main(rt: HostRuntime) -> ExitCode {
    match report(rt.alloc()) {
        Ok(text) => match print!(rt; "{text}") {
            Ok(()) => ExitCode::SUCCESS,
            Err(_) => ExitCode::FAILURE,
        },
        Err(stop) => {
            let _ = eprintln!(rt; "first: {stop}");
            ExitCode::from(stop.status())
        }
    }
}
