//! What readers do, without the runtime value that waiting takes: none of these functions can wait
//! for a lock.

ghost use Rattle.std.specs.Prelude.{IfOk, OnOk};
ghost use Rattle.bw_snap.specs.Answers.{IsFoundIn, IsLookIn, IsLastIn, IsListedIn};
ghost use Rattle.bw_snap.specs.Snapshots.{BeginsWith};

use bw_keys::{Fence, Key};
use bw_snap::{Closed, Naming, Reader, ScanFault, Stamp};
use bw_step::Look;
use nifforan::Fault;

/// Returns the value of the key, once two stamps were learnt in any order.
pub fn get_after<N: Naming>(
    reader: &mut Reader<N>,
    one: Stamp<N>,
    other: Stamp<N>,
    key: Key,
) -> Result<Option<u64>, Closed>
    ensures found { IfOk result (IsFoundIn N.config key reader.new) }
    ensures own { BeginsWith reader.new reader.old }
    ensures one { BeginsWith reader.new one }
    ensures other { BeginsWith reader.new other }
{
    reader.learn(one);
    reader.learn(other);
    reader.get(key)
}

/// Returns what `get_after` does, with the number of changes that were seen.
pub fn look_after<N: Naming>(
    reader: &mut Reader<N>,
    stamp: Stamp<N>,
    key: Key,
) -> Result<Look, Closed>
    ensures look { IfOk result (IsLookIn N.config key reader.new) }
    ensures own { BeginsWith reader.new reader.old }
    ensures stamp { BeginsWith reader.new stamp }
{
    reader.learn(stamp);
    reader.look(key)
}

/// Fills `out` with the first pairs from the key on, once the stamp was learnt.
pub fn scan_after<N: Naming>(
    reader: &mut Reader<N>,
    stamp: Stamp<N>,
    low: Key,
    limit: usize,
    out: &mut Vec<(Key, u64)>,
) -> Result<(), ScanFault>
    ensures pairs { OnOk result (IsListedIn N.config low limit reader.new out.new.items) }
    ensures own { BeginsWith reader.new reader.old }
    ensures stamp { BeginsWith reader.new stamp }
{
    reader.learn(stamp);
    reader.scan(low, limit, out)
}

/// Returns the last pair, once the stamp was learnt.
pub fn last_after<N: Naming>(
    reader: &mut Reader<N>,
    stamp: Stamp<N>,
) -> Result<Option<(Key, u64)>, Closed>
    ensures last { IfOk result (IsLastIn N.config reader.new) }
    ensures own { BeginsWith reader.new reader.old }
    ensures stamp { BeginsWith reader.new stamp }
{
    reader.learn(stamp);
    reader.last()
}

/// Asks the other questions of a reader: the values of several keys, the pairs at one end and next to a key, the
/// pairs of a range, and the numbers of changes and of pairs.
pub fn ask_all<N: Naming>(
    reader: &mut Reader<N>,
    key: Key,
    out: &mut Vec<(Key, u64)>,
) -> Result<[u64; 2], Fault> {
    reader.get_many([key, 0])?;
    reader.first()?;
    reader.next_at(key)?;
    reader.previous_at(key)?;
    reader.scan_range(0, Fence::Key(key), 9, out)?;
    Ok([reader.number()?, reader.len()?])
}
