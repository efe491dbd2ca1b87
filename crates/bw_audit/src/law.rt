ghost use Rattle.bw_audit.specs.Replays.{InterleavingLaw};

/// Every interleaving of steps and looks on a new table, whichever are refused, leaves trails and
/// pairs that are a legal history.
pub fn every_interleaving_is_legal()
    ensures { InterleavingLaw }
{}
