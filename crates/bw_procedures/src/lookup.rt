//! One look for a key.

ghost use Rattle.std.specs.Prelude.{◌≡◌};
ghost use Rattle.bw_procedures.specs.Facts.{quiet, IsLooked};
ghost use Rattle.bw_procedures.specs.Calls.{Sought};

use crate::steps::{Keep, Steps};
use crate::walk::leaf;
use bw_delta::NoMemory;
use bw_keys::Key;
use bw_step::{Look, Step};
use std::alloc::Allocator;

/// Looks the key up at once, where the worker can; otherwise walks to the key's leaf, and looks
/// there. None where the walk or the look came to nothing.
#[tactic(auto, using(crate::proofs::Spending::sought))]
#[inline(always)]
pub(crate) fn seek<A: Allocator + Copy, S: Steps<A, Step<A>>>(
    steps: &mut S,
    key: Key,
) -> Result<Option<Look>, NoMemory>
    ensures follows { S.follows steps.old steps.new }
    ensures seen { Sought key result (S.seen steps.old) (S.seen steps.new) }
    ensures calm { S.calm steps.old quiet → IsLooked result }
    ensures no_effort { S.calm steps.old quiet
        → (S.seen steps.new).effort ≡ (S.seen steps.old).effort }
{
    if let Some(look) = steps.look_at_once(key, Keep::Always)? {
        return Ok(Some(look));
    }
    match leaf(steps, key) {
        Some(view) => steps.look(view.pid, key, Keep::Always),
        None => Ok(None),
    }
}
