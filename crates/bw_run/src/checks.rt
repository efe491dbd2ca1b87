//! What any run checks before a worker starts.

ghost use Rattle.std.specs.Prelude.{IfErr, OnOk};
ghost use Rattle.bw_tree.specs.Trees.{MayBeMade};
ghost use Rattle.bw_run.specs.Faults.{IsCrewFault};

use crate::fault::RunFault;
use bw_keys::{Config, MAX_WORKERS};

/// Returns the first field of the configuration that is out of its range, or bad workers.
pub(crate) fn check_crew(config: Config, workers: u32) -> Result<(), RunFault>
    ensures fine { OnOk result (MayBeMade config workers) }
    ensures fault { IfErr result (IsCrewFault config workers) }
{
    if let Err(bad) = config.check() {
        return Err(RunFault::Config(bad));
    }
    if !(1..=MAX_WORKERS).contains(&workers) {
        return Err(RunFault::Workers);
    }
    Ok(())
}
