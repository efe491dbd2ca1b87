//! Calls as values.

ghost use Rattle.std.specs.Prelude.{◌≡◌, IfOk, IfErr, OnErr};
ghost use Rattle.bw_procedures.specs.Seen.{Grows};
ghost use Rattle.bw_procedures.specs.Calls.{Earned};
ghost use Rattle.bw_step.specs.Tellings.{reported_in};
ghost use Rattle.bw_procedures.specs.Reported.{AddsReported};

use crate::calls::Calls;
use crate::fault::Fault;
use crate::reply::Reply;
use crate::steps::Steps;
use bw_keys::{Fence, Key};
use bw_step::Step;
use std::alloc::{Allocator, Global};

/// A call of one worker as a value.
#[derive(Clone, Copy, Debug, PartialEq, Eq, Hash)]
pub enum Act {
    /// Insert the pair, unless the key has a value.
    Put { key: Key, value: u64 },
    /// Set the key to the value.
    Set { key: Key, value: u64 },
    /// Return the key's value.
    Get { key: Key },
    /// Delete the key.
    Delete { key: Key },
    /// Delete the keys from the low on and below the high.
    Clear { low: Key, high: Fence },
}

/// Does the act by the worker's calls, and returns its reply. The reply to a removal of a range has
/// its fault, so that act never fails; its copies of leaves lie in the machine's memory.
///
/// # Errors
///
/// Those of the act's call.
#[tactic(auto, using(crate::proofs::Receipts::none_reported))]
pub fn do_act<A: Allocator + Copy, S: Steps<A, Step<A>>>(
    steps: &mut S,
    machine: Global,
    act: Act,
) -> Result<Reply, Fault>
    ensures follows { S.follows steps.old steps.new }
    ensures grows { Grows (S.seen steps.old) (S.seen steps.new) }
    ensures reported { IfOk result
        (λ reply. AddsReported act reply (S.seen steps.old).trail (S.seen steps.new).trail) }
    ensures nothing { OnErr result (reported_in (S.seen steps.new).trail ≡ reported_in
        (S.seen steps.old).trail) }
    ensures fault { IfErr result (Earned (S.seen steps.old) (S.seen steps.new)) }
{
    match act {
        Act::Put { key, value } => match steps.put(key, value) {
            Ok(done) => Ok(Reply::Put(done)),
            Err(fault) => Err(fault),
        },
        Act::Set { key, value } => match steps.set(key, value) {
            Ok(done) => Ok(Reply::Set(done)),
            Err(fault) => Err(fault),
        },
        Act::Delete { key } => match steps.delete(key) {
            Ok(done) => Ok(Reply::Delete(done)),
            Err(fault) => Err(fault),
        },
        Act::Get { key } => match steps.get(key) {
            Ok(found) => Ok(Reply::Get(found)),
            Err(fault) => Err(fault),
        },
        Act::Clear { low, high } => Ok(Reply::Clear(steps.clear(machine, low, high))),
    }
}
