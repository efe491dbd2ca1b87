//! Where the ranges begin of the forest that a trace runs on.

ghost use Rattle.std.specs.Prelude.{◌≡◌, false, IfOk};
ghost use Rattle.bw_forest.specs.Bounds.{AreOfSample, is_bad_number};
ghost use Rattle.bw_run.specs.Rows.{key_of, keys_of};

use bw_delta::NoMemory;
use bw_forest::Bounds;
use bw_keys::Key;
use bw_procedures::Act;
use bw_texts::Row;
use std::alloc::Global;

/// Returns ranges that each have as many of the rows' keys, as far as possible.
pub(crate) fn bounds_for(machine: Global, rows: &[Row], trees: u32) -> Result<Bounds, NoMemory>
    requires { is_bad_number trees ≡ false }
    ensures { IfOk result (AreOfSample (keys_of rows.now) trees) }
{
    let keys = keys_of(machine, rows)?;
    let Ok(bounds) = Bounds::of_sample(machine, keys, trees) else {
        return Err(NoMemory);
    };
    Ok(bounds)
}

/// Returns the key that each row names, in the order of the rows.
fn keys_of(machine: Global, rows: &[Row]) -> Result<Vec<Key>, NoMemory>
    ensures { IfOk result (λ keys. keys.items ≡ keys_of rows.now) }
{
    let mut keys = Vec::with_capacity(machine, rows.len())?;
    for row in rows {
        keys.push(key_of(row.act))?;
    }
    Ok(keys)
}

/// Returns the key that the act names, or the least key of a range that it clears.
fn key_of(act: Act) -> Key
    ensures { result ≡ key_of act }
{
    match act {
        Act::Put { key, .. } | Act::Set { key, .. } | Act::Get { key } | Act::Delete { key } => key,
        Act::Clear { low, .. } => low,
    }
}
