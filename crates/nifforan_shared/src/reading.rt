//! The reader that a job is given.

ghost use Rattle.std.specs.Prelude.{◌≡◌, List, IfOk, OnOk, OnErr, length};
ghost use Rattle.bw_keys.specs.declared.config.Config.{Config};
ghost use Rattle.bw_keys.specs.Ranges.{end_of};
ghost use Rattle.bw_step.specs.Proposals.{Proposal};
ghost use Rattle.bw_snap.specs.Answers.{IsFoundIn, AreFoundIn, IsFirstIn, IsLastIn, IsNextIn, IsPreviousIn, IsNumberIn, IsLenIn, IsListedIn, IsRangeIn};
ghost use Rattle.bw_snap.specs.Snapshots.{BeginsWith};

use bw_delta::NoMemory;
use bw_keys::{Fence, Key};
use bw_snap::{Closed, Naming, ReadTree, ScanFault, Stamp};
use std::alloc::Global;
use std::snapshot::Snapshot;
use std::sync::Wait;
use std::sync::ledger::Ledger;

/// Reads what was published of a tree, without the tree's lock: the map after a list of accepted
/// steps that begins with each list it has read before.
pub trait Reads {
    /// What a publication hands out, and nothing else does.
    type Stamp;

    // the configuration that the tree was made by
    ghost made_by: { Self → Config };

    // the list of steps that it has seen or learnt of
    ghost list: { Self → List Proposal };

    // the list of steps that the stamp covers
    ghost covers: { Self.Stamp → List Proposal };

    /// Publishes what all workers have changed so far, and learns of it, so this reader sees all of
    /// that from then on. Takes the tree's lock. The value that it returns has no bytes; clauses
    /// use it to name the published list.
    fn publish(&mut self) -> Result<Snapshot<Self::Stamp>, NoMemory>
        ensures made_by { made_by self.new ≡ made_by self.old }
        ensures seen { BeginsWith (list self.new) (list self.old) }
        ensures learnt { IfOk result (λ published.
            BeginsWith (list self.new) (covers published.value)) }
        ensures refused { OnErr result (list self.new ≡ list self.old) };

    /// Returns the value at the key, if the map has one.
    fn get(&mut self, key: Key) -> Result<Option<u64>, Closed>
        ensures made_by { made_by self.new ≡ made_by self.old }
        ensures seen { BeginsWith (list self.new) (list self.old) }
        ensures found { IfOk result (IsFoundIn (made_by self.old) key (list self.new)) }
        ensures closed { OnErr result (list self.new ≡ list self.old) };

    /// Returns the values at the keys, each at its key's place, all after one list of steps. It is
    /// `Reader::get_many` for eight keys, since a trait's method can't have a const parameter here.
    fn get_eight(&mut self, keys: [Key; 8]) -> Result<[Option<u64>; 8], Closed>
        ensures made_by { made_by self.new ≡ made_by self.old }
        ensures seen { BeginsWith (list self.new) (list self.old) }
        ensures found { IfOk result (AreFoundIn (made_by self.old) keys (list self.new)) }
        ensures closed { OnErr result (list self.new ≡ list self.old) };

    /// Returns the pair with the least key, if there is any.
    fn first(&mut self) -> Result<Option<(Key, u64)>, Closed>
        ensures made_by { made_by self.new ≡ made_by self.old }
        ensures seen { BeginsWith (list self.new) (list self.old) }
        ensures first { IfOk result (IsFirstIn (made_by self.old) (list self.new)) }
        ensures closed { OnErr result (list self.new ≡ list self.old) };

    /// Returns the pair with the greatest key, if there is any.
    fn last(&mut self) -> Result<Option<(Key, u64)>, Closed>
        ensures made_by { made_by self.new ≡ made_by self.old }
        ensures seen { BeginsWith (list self.new) (list self.old) }
        ensures last { IfOk result (IsLastIn (made_by self.old) (list self.new)) }
        ensures closed { OnErr result (list self.new ≡ list self.old) };

    /// Returns the pair with the least key at or above the key, if there is one.
    fn next_at(&mut self, key: Key) -> Result<Option<(Key, u64)>, Closed>
        ensures made_by { made_by self.new ≡ made_by self.old }
        ensures seen { BeginsWith (list self.new) (list self.old) }
        ensures next { IfOk result (IsNextIn (made_by self.old) key (list self.new)) }
        ensures closed { OnErr result (list self.new ≡ list self.old) };

    /// Returns the pair with the greatest key at or below the key, if there is one.
    fn previous_at(&mut self, key: Key) -> Result<Option<(Key, u64)>, Closed>
        ensures made_by { made_by self.new ≡ made_by self.old }
        ensures seen { BeginsWith (list self.new) (list self.old) }
        ensures previous { IfOk result (IsPreviousIn (made_by self.old) key (list self.new)) }
        ensures closed { OnErr result (list self.new ≡ list self.old) };

    /// Returns the number of the map's changes so far, in constant time.
    fn number(&mut self) -> Result<u64, Closed>
        ensures made_by { made_by self.new ≡ made_by self.old }
        ensures seen { BeginsWith (list self.new) (list self.old) }
        ensures number { IfOk result (IsNumberIn (made_by self.old) (list self.new)) }
        ensures closed { OnErr result (list self.new ≡ list self.old) };

    /// Returns the number of pairs, in constant time.
    fn len(&mut self) -> Result<u64, Closed>
        ensures made_by { made_by self.new ≡ made_by self.old }
        ensures seen { BeginsWith (list self.new) (list self.old) }
        ensures len { IfOk result (IsLenIn (made_by self.old) (list self.new)) }
        ensures closed { OnErr result (list self.new ≡ list self.old) };

    /// Replaces the list by the first pairs of the map from the key on, in the order of their keys,
    /// at most `limit` of them. After a fault the list is as before.
    fn scan(&mut self, low: Key, limit: usize, out: &mut Vec<(Key, u64)>) -> Result<(), ScanFault>
        ensures made_by { made_by self.new ≡ made_by self.old }
        ensures seen { BeginsWith (list self.new) (list self.old) }
        ensures pairs { OnOk result
            (IsListedIn (made_by self.old) low limit (list self.new) out.new.items) }
        ensures fault { OnErr result ((list self.new ≡ list self.old) × (out.new ≡ out.old)) };

    /// Does what `scan` does, with the pairs below the high.
    fn scan_range(
        &mut self,
        low: Key,
        high: Fence,
        limit: usize,
        out: &mut Vec<(Key, u64)>,
    ) -> Result<(), ScanFault>
        ensures made_by { made_by self.new ≡ made_by self.old }
        ensures seen { BeginsWith (list self.new) (list self.old) }
        ensures pairs { OnOk result
            (IsRangeIn (made_by self.old) low (end_of high) limit (list self.new) out.new.items) }
        ensures fault { OnErr result ((list self.new ≡ list self.old) × (out.new ≡ out.old)) };
}

/// A reader with its tree, whose pending steps it may publish.
#[derive(Drop)]
pub struct Reading<'t, R: Wait + Copy, N: Naming, D: Ledger> {
    pub tree: &'t ReadTree<R, N, D>,
    pub reader: bw_snap::Reader<N>,
}

/// Returns each reader with its tree.
pub fn readings_of<'t, R: Wait + Copy, N: Naming, D: Ledger>(
    machine: Global,
    tree: &'t ReadTree<R, N, D>,
    readers: Vec<bw_snap::Reader<N>>,
) -> Result<Vec<Reading<'t, R, N, D>>, NoMemory>
    ensures { IfOk result (λ readings. length readings.items ≡ length readers.items) }
{
    let mut readings = Vec::with_capacity(machine, readers.len())?;
    for reader in readers {
        readings.push(Reading { tree, reader })?;
    }
    Ok(readings)
}

impl<'t, R: Wait + Copy, N: Naming, D: Ledger> Reads for Reading<'t, R, N, D> {
    type Stamp = Stamp<N>;

    ghost made_by = { λ r. N.config };

    ghost list = { λ r. r.reader };

    ghost covers = { λ stamp. stamp };

    fn publish(&mut self) -> Result<Snapshot<Stamp<N>>, NoMemory> {
        let stamp = self.tree.publish()?;
        let published = Snapshot::of(&stamp);
        self.reader.learn(stamp);
        Ok(published)
    }

    fn get(&mut self, key: Key) -> Result<Option<u64>, Closed> {
        self.reader.get(key)
    }

    fn get_eight(&mut self, keys: [Key; 8]) -> Result<[Option<u64>; 8], Closed> {
        self.reader.get_many(keys)
    }

    fn first(&mut self) -> Result<Option<(Key, u64)>, Closed> {
        self.reader.first()
    }

    fn last(&mut self) -> Result<Option<(Key, u64)>, Closed> {
        self.reader.last()
    }

    fn next_at(&mut self, key: Key) -> Result<Option<(Key, u64)>, Closed> {
        self.reader.next_at(key)
    }

    fn previous_at(&mut self, key: Key) -> Result<Option<(Key, u64)>, Closed> {
        self.reader.previous_at(key)
    }

    fn number(&mut self) -> Result<u64, Closed> {
        self.reader.number()
    }

    fn len(&mut self) -> Result<u64, Closed> {
        self.reader.len()
    }

    fn scan(&mut self, low: Key, limit: usize, out: &mut Vec<(Key, u64)>) -> Result<(), ScanFault> {
        self.reader.scan(low, limit, out)
    }

    fn scan_range(
        &mut self,
        low: Key,
        high: Fence,
        limit: usize,
        out: &mut Vec<(Key, u64)>,
    ) -> Result<(), ScanFault> {
        self.reader.scan_range(low, high, limit, out)
    }
}
