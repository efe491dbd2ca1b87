//! The workers' threads.

ghost use Rattle.std.specs.Prelude.{◌≡◌, ◌≤◌, ◌<◌, [], IfOk, All, length, vec_capacity, ℕ};
ghost use Rattle.bw_crew.specs.Workers.{AreNumbered, ByNumber};

use crate::fault::CrewFault;
use std::alloc::Global;
use std::marker::PhantomData;
use std::snapshot::Snapshot;
use std::sync::Wait;
use std::thread;
use std::thread::{Promise, PromisedHandle, Threads};

/// What a worker brings back: its hand, or its hands, and what it returned.
#[derive(Drop)]
pub struct Worked<W, O> {
    pub hands: W,
    pub output: O,
}

/// What each worker of a crew does, in a thread of its own, with a kit of its own.
pub trait Part<K> {
    /// What a worker brings back.
    type Output: Drop;

    // the kit is one for the worker with this number
    ghost given: { Self → ℕ → K → Type 0 };

    // what is promised of a worker's number and of what that worker brings back
    ghost promised: { Self → ℕ → Self.Output → Type 0 };

    /// Does the part of the worker with this number, from 0 on.
    fn run(&self, worker: u32, kit: K) -> Self::Output
        requires few { worker < 64 }
        requires given { given self.now worker kit }
        ensures promised { promised self.now worker result };
}

/// The promise that a thread brings back what is promised of the worker with this number.
#[derive(Drop)]
struct AsPromised<K, P> {
    worker: u32,
    part: Snapshot<P>,
    kit: PhantomData<K>,
}

impl<O, K, P: Part<K, Output = O>> Promise<O> for AsPromised<K, P> {
    ghost kept_by = { λ promise output. P.promised promise.part.value promise.worker output };
}

/// Does the part with each kit, side by side, each in a thread of its own, and returns what the
/// workers bring back, in the order of the kits.
///
/// Fails if memory runs out before the first thread starts, or if a thread can't be started. The
/// threads that did start do their part to the end.
pub fn run_all<
    K: Drop + Send,
    O: Drop + Send,
    P: Part<K, Output = O> + Sync,
    R: Threads + Wait + Sync,
>(rt: &R, machine: Global, part: &P, kits: Vec<K>) -> Result<Vec<O>, CrewFault>
    requires few { length kits.items ≤ 64 }
    requires given { ByNumber (P.given part.now) 0 kits.items }
    ensures count { IfOk result (λ outputs. length outputs.items ≡ length kits.items) }
    ensures promised { IfOk result (λ outputs. ByNumber (P.promised part.now) 0 outputs.items) }
{
    thread::scope(
        thread::scope_env(),
        rt,
        |scope| -> Result<Vec<O>, CrewFault>
            requires few { length kits.items ≤ 64 }
            requires given { ByNumber (P.given part.now) 0 kits.items }
            ensures count { IfOk result (λ outputs. length outputs.items ≡ length kits.items) }
            ensures promised { IfOk result
                (λ outputs. ByNumber (P.promised part.entry.now) 0 outputs.items) }
        {
            // taken now: if memory ran out after the work, the work would be lost
            let room = Vec::with_capacity(machine, kits.len())?;
            let mut handles = Vec::with_capacity(machine, kits.len())?;
            let mut worker = 0u32;
            for kit in kits {
                let promise = AsPromised::<K, P> {
                    worker,
                    part: Snapshot::of(part),
                    kit: PhantomData,
                };
                let Ok(handle) = scope.spawn_with(
                    promise,
                    move || -> O
                        requires few { worker < 64 }
                        requires given { P.given part.now worker kit }
                        ensures { P.promised part.entry.now worker result }
                    { part.run(worker, kit) },
                ) else {
                    return Err(CrewFault::NoThread);
                };
                handles.push_reserved(handle);
                worker += 1;
            }
            Ok(join_all(rt, room, part, handles))
        },
    )
}

/// Waits for all threads, and returns what they bring back. Takes no memory, so no lack of it can
/// lose their work.
fn join_all<K, O: Drop, P: Part<K, Output = O>, R: Threads>(
    rt: &R,
    room: Vec<O>,
    part: &P,
    handles: Vec<PromisedHandle<O, AsPromised<K, P>>>,
) -> Vec<O>
    requires numbered { AreNumbered (λ handle. handle.promise.worker) 0 handles.items }
    requires part { All (λ handle. handle.promise.part.value ≡ part.now) handles.items }
    requires empty { room.items ≡ [] }
    requires room { length handles.items ≤ vec_capacity room }
    ensures count { length result.items ≡ length handles.items }
    ensures promised { ByNumber (P.promised part.now) 0 result.items }
{
    let mut outputs = room;
    for handle in handles {
        outputs.push_reserved(handle.join(rt));
    }
    outputs
}
