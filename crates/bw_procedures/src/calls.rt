//! The calls of any worker, each with its contract.

use crate::clearing::{end_among_keys, has_room, remove_below};
use crate::cursor::read_page;
use crate::effort::{is_spent, limit};
use crate::fault::Fault;
use crate::helping::help_within;
use crate::lookup::seek;
use crate::reply::{Cleared, Del, Done, Put, Set, Slice};
use crate::steps::Steps;
use crate::tending::tend_within;
use crate::writing::write;
use bw_keys::{Fence, Key, Pid, Wished};
use bw_step::{Step, Todo};
use std::alloc::{Allocator, Global};

/// The calls of a worker, made of its atomic steps. Every worker has them.
///
/// Others may take steps between any two of a call's steps. A call gives up with
/// [`Fault::Contended`] once it has spent the effort that the configuration allows it (`tries`), or
/// where the worker's effort is at its end.
///
/// How a writer helps and how a page is tended is from Levandoski et al., "The Bw-Tree", ICDE 2013,
/// "Structure Modifications".
pub trait Calls<A: Allocator + Copy>: Steps<A, Step<A>> {
    ghost use Rattle.std.specs.Prelude.{◌≡◌, ◌≤◌, ◌<◌, ℕ, None};
    ghost use Rattle.std.specs.Prelude.{IfOk, IfErr, IfSome, OnOk};
    ghost use Rattle.bw_keys.specs.Ranges.{end_of};
    ghost use Rattle.bw_procedures.specs.declared.fault.Fault.TheVariants as faults;
    ghost use Rattle.bw_procedures.specs.Seen.{Grows};
    ghost use Rattle.bw_procedures.specs.Facts.{quiet};
    ghost use Rattle.bw_procedures.specs.Calls.{Earned, OnlySpends, OnlyReshapes, RoseBy, AddsLook};
    ghost use Rattle.bw_procedures.specs.Slices.{end_of_slice, IsSliceFrom};
    ghost use Rattle.bw_procedures.specs.Writes.{Puts, Sets, Deletes};
    ghost use Rattle.bw_procedures.specs.Clearing.{AddsRemovals, IsSwept};

    /// Inserts the pair, unless the key has a value, which it returns. The walk to the key's leaf
    /// helps what it meets unfinished, and after the insertion the leaf is tended.
    ///
    /// Adds one receipt beside those of the tree's shape: of the insertion, or of the look that
    /// found the key's value. A reply stands, and beside it the fault that ended helping or
    /// tending, if one did.
    ///
    /// # Errors
    ///
    /// The map is then as it was. [`Fault::Contended`] where the call's effort is spent,
    /// [`Fault::TableFull`], [`Fault::TooTall`] or [`Fault::Worn`] where a step was refused so, and
    /// [`Fault::NoMemory`].
    #[tactic(auto, using(crate::proofs::Writes::replies_by))]
    #[inline(always)]
    fn put(&mut self, key: Key, value: u64) -> Result<Done<Put>, Fault>
        ensures follows { Self.follows self.old self.new }
        ensures write { Puts key value result (Self.seen self.old) (Self.seen self.new) }
    {
        let Done { reply: had, fault } = write(self, key, Wished::Put(value))?;
        let reply = Put::where_had(had);
        Ok(Done { reply, fault })
    }

    /// Sets the key to the value, and returns the value that it had, if it had one. The walk to the
    /// key's leaf helps what it meets unfinished, and after the change the leaf is tended.
    ///
    /// Adds one receipt beside those of the tree's shape: of the insertion, or of the modification,
    /// which has the value before it. A reply stands as that of [`put`](Calls::put).
    ///
    /// # Errors
    ///
    /// As those of [`put`](Calls::put).
    #[tactic(auto, using(crate::proofs::Writes::replies_by))]
    #[inline(always)]
    fn set(&mut self, key: Key, value: u64) -> Result<Done<Set>, Fault>
        ensures follows { Self.follows self.old self.new }
        ensures write { Sets key value result (Self.seen self.old) (Self.seen self.new) }
    {
        let Done { reply: had, fault } = write(self, key, Wished::Set(value))?;
        let reply = Set::where_had(had);
        Ok(Done { reply, fault })
    }

    /// Deletes the key, and returns its value, if it had one. The walk to the key's leaf helps what
    /// it meets unfinished, and after the deletion the leaf is tended.
    ///
    /// Adds one receipt beside those of the tree's shape: of the deletion, or of the look that
    /// found no value. A reply stands as that of [`put`](Calls::put).
    ///
    /// # Errors
    ///
    /// As those of [`put`](Calls::put).
    #[tactic(auto, using(crate::proofs::Writes::replies_by))]
    #[inline(always)]
    fn delete(&mut self, key: Key) -> Result<Done<Del>, Fault>
        ensures follows { Self.follows self.old self.new }
        ensures write { Deletes key result (Self.seen self.old) (Self.seen self.new) }
    {
        let Done { reply: had, fault } = write(self, key, Wished::Delete)?;
        let reply = Del::where_had(had);
        Ok(Done { reply, fault })
    }

    /// Deletes the keys from the low on and below the high, one after the other, and returns how
    /// many it deleted. It isn't one step, and nothing is said of what others do in between. Copies
    /// of leaves lie in the machine's memory.
    ///
    /// Adds, beside those of the tree's shape, the receipts of single deletes, of strictly rising
    /// keys of the range. Without a fault, each key of the range was missing in a copy of its leaf,
    /// or was deleted since. The first fault, of a read, of a delete or beside a delete's reply,
    /// ends the call; what was deleted by then stays so. A leaf for whose pairs the count has no room
    /// ends it with [`Fault::NoMemory`].
    fn clear(&mut self, machine: Global, low: Key, high: Fence) -> Cleared
        ensures follows { Self.follows self.old self.new }
        ensures grows { Grows (Self.seen self.old) (Self.seen self.new) }
        ensures receipts { AddsRemovals low (end_of high) result.removed
            (Self.seen self.old) (Self.seen self.new) }
        ensures swept { result.fault ≡ None → (key : ℕ) → low ≤ key → key < end_of high
            → IsSwept Self.seen Self.follows Self.shows key self.old self.new }
        ensures fault { IfSome result.fault (Earned (Self.seen self.old) (Self.seen self.new)) }
    {
        let mut removed = 0;
        let mut at = low;
        'leaves: while high.is_above(at) {
            let slice = match self.page_from(machine, at) {
                Ok(slice) => slice,
                Err(fault) => {
                    return Cleared {
                        removed,
                        fault: Some(fault),
                    };
                }
            };
            let pairs = slice.pairs.as_slice();
            if !has_room(removed, pairs) {
                return Cleared {
                    removed,
                    fault: Some(Fault::NoMemory),
                };
            }
            let leaf = remove_below(self, pairs, high);
            removed += leaf.removed;
            if leaf.fault.is_some() {
                return Cleared {
                    removed,
                    fault: leaf.fault,
                };
            }
            let Some(next) = slice.next else {
                end_among_keys(high);
                return Cleared {
                    removed,
                    fault: None,
                };
            };
            at = next;
        }
        Cleared {
            removed,
            fault: None,
        }
    }

    /// Returns the key's value, if it has one. What the walk to the key's leaf meets unfinished is
    /// left as it is.
    ///
    /// Adds the receipt of the look that answered.
    ///
    /// # Errors
    ///
    /// [`Fault::Contended`] where the call's effort is spent before a look is answered, and
    /// [`Fault::NoMemory`] where the trail has no room. No receipt is added then.
    #[inline(always)]
    fn get(&mut self, key: Key) -> Result<Option<u64>, Fault>
        ensures follows { Self.follows self.old self.new }
        ensures grows { Grows (Self.seen self.old) (Self.seen self.new) }
        ensures receipt { AddsLook key result
            (Self.seen self.old).trail (Self.seen self.new).trail }
        ensures fault { IfErr result (Earned (Self.seen self.old) (Self.seen self.new)) }
        ensures calm { Self.calm self.old quiet → IfErr result (λ fault. fault ≡ faults.NoMemory) }
        ensures no_effort { Self.calm self.old quiet
            → (Self.seen self.new).effort ≡ (Self.seen self.old).effort }
    {
        let limit = limit(self);
        'again: loop {
            if let Some(look) = seek(self, key)? {
                return Ok(look.found);
            }
            if is_spent(self, limit) {
                return Err(Fault::Contended);
            }
        }
    }

    /// Returns the pairs of the key's leaf, from the key on, in the machine's memory, and where the
    /// next leaf begins. What the walk to the leaf meets unfinished is left as it is.
    ///
    /// Adds no receipt.
    ///
    /// # Errors
    ///
    /// [`Fault::Contended`] where the call's effort is spent before a leaf is copied, and
    /// [`Fault::NoMemory`].
    fn page_from(&mut self, machine: Global, key: Key) -> Result<Slice, Fault>
        ensures follows { Self.follows self.old self.new }
        ensures seen { OnlySpends (Self.seen self.old) (Self.seen self.new) }
        ensures shows { IfOk result
            (λ s. Self.shows self.new key (end_of_slice s.next) s.pairs.items) }
        ensures slice { IfOk result (IsSliceFrom key) }
        ensures fault { IfErr result (Earned (Self.seen self.old) (Self.seen self.new)) }
        ensures calm { Self.calm self.old quiet → IfErr result (λ fault. fault ≡ faults.NoMemory) }
        ensures no_effort { Self.calm self.old quiet
            → (Self.seen self.new).effort ≡ (Self.seen self.old).effort }
    {
        let limit = limit(self);
        'again: loop {
            if let Some(slice) = read_page(self, machine, key)? {
                return Ok(slice);
            }
            if is_spent(self, limit) {
                return Err(Fault::Contended);
            }
        }
    }

    /// Consolidates, splits or removes the page where its chain is long, its entries many or few,
    /// and then tends the page above that this changed.
    ///
    /// Adds only receipts of the tree's shape.
    ///
    /// # Errors
    ///
    /// [`Fault::Contended`] where the call's effort is spent, [`Fault::TableFull`],
    /// [`Fault::TooTall`] or [`Fault::Worn`] where a step was refused so, and [`Fault::NoMemory`].
    /// What was done by then stands.
    #[tactic(auto, using(crate::proofs::Reshaping::within))]
    fn tend(&mut self, page: Pid) -> Result<(), Fault>
        ensures follows { Self.follows self.old self.new }
        ensures reshapes { OnlyReshapes (Self.seen self.old) (Self.seen self.new) }
        ensures fault { IfErr result (Earned (Self.seen self.old) (Self.seen self.new)) }
    {
        let limit = limit(self);
        tend_within(self, limit, page)
    }

    /// Does one round for what is unfinished: proposes the step that brings it on, or the step that
    /// has to come before that, at the cost of effort.
    ///
    /// Adds only receipts of the tree's shape.
    ///
    /// # Errors
    ///
    /// As those of [`tend`](Calls::tend).
    #[tactic(auto, using(crate::proofs::Reshaping::within))]
    fn help(&mut self, todo: Todo) -> Result<(), Fault>
        ensures follows { Self.follows self.old self.new }
        ensures reshapes { OnlyReshapes (Self.seen self.old) (Self.seen self.new) }
        ensures cost { OnOk result (RoseBy 1
            (Self.seen self.old).effort (Self.seen self.new).effort) }
        ensures fault { IfErr result (Earned (Self.seen self.old) (Self.seen self.new)) }
    {
        let limit = limit(self);
        help_within(self, limit, todo)
    }
}

impl<A: Allocator + Copy, S: Steps<A, Step<A>>> Calls<A> for S {}
