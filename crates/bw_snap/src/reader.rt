//! Readers that take no lock.

ghost use Rattle.std.specs.Prelude.{◌≡◌, ◌⊎◌, IfOk, OnOk, OnErr};
ghost use Rattle.left_right.specs.Sides.{view};
ghost use Rattle.bw_keys.specs.Ranges.{end_of};
ghost use Rattle.bw_snap.specs.Snapshots.{BeginsWith};
ghost use Rattle.bw_snap.specs.Answers.{IsAnswerIn, IsFoundIn, AreFoundIn, IsLookIn, IsFirstIn, IsLastIn};
ghost use Rattle.bw_snap.specs.Answers.{IsNextIn, IsPreviousIn, IsNumberIn, IsLenIn, IsListedIn, IsRangeIn};

use crate::ends::{Answered, ReadingEnd, ask, comes_late};
use crate::fault::{Closed, ScanFault};
use crate::front::{Front, Naming};
use crate::question::{GetMany, Len, Listing, LookAt, NextAt, Number, PreviousAt, Question};
use crate::stamp::Stamp;
use bw_delta::NoMemory;
use bw_keys::{Fence, Key};
use bw_step::Look;
use core::mem::{replace, replace_with};
use std::marker::{Model, PhantomData};

/// Reads the published table, without its lock. Contracts see it as the list of steps that it has
/// seen or learnt.
#[derive(Drop)]
pub struct Reader<N: Naming> {
    inner: ReadingEnd<N>,
    front: Front,
    /// Whether the inner reader hasn't seen that list: it was learnt once the tree was closed.
    is_late: bool,
}

impl<N: Naming> Model for Reader<N> {
    ghost use Rattle.std.specs.Prelude.{◌≡◌, List, false};
    ghost use Rattle.bw_step.specs.Proposals.{Proposal};
    ghost use Rattle.bw_snap.specs.Codes.{steps_code};
    ghost use Rattle.bw_snap.specs.Snapshots.{BeginsWith};
    ghost use Rattle.left_right.specs.Sides.{view as seen_by};

    ghost Value = { List Proposal };

    ghost coded = { steps_code };

    ghost view = { λ r. r.front.list };

    ghost invariant = { λ r. (r.front.announcements ≡ N.announcements)
        × (r.is_late ≡ false → BeginsWith (seen_by r.inner.place) r.front.list) };
}

impl<N: Naming> Reader<N> {
    pub(crate) fn over(inner: ReadingEnd<N>, front: Front) -> Reader<N>
        requires announcements { front.announcements ≡ N.announcements }
        requires list { BeginsWith (view inner.place) front.list }
        ensures { result ≡ front.list }
    {
        Reader {
            inner,
            front,
            is_late: false,
        }
    }

    /// Learns the stamp's list. The reader's list becomes the longer of the two, which begins with
    /// both.
    pub fn learn(&mut self, stamp: Stamp<N>)
        ensures one { (self.new ≡ self.old) ⊎ (self.new ≡ stamp) }
        ensures own { BeginsWith self.new self.old }
        ensures stamp { BeginsWith self.new stamp }
    {
        if stamp.front.goes_on(&self.front) {
            let Stamp { inner, front } = stamp;
            self.is_late = match inner {
                Some(inner) => {
                    self.inner = inner;
                    false
                }
                None => replace_with(&mut self.inner, &front, comes_late),
            };
            self.front = front;
        }
    }

    /// Returns what the published table answers, which is the reader's from then on.
    #[inline(always)]
    fn ask<Q: Question>(&mut self, question: Q) -> Result<Q::Answer, Closed>
        ensures seen { BeginsWith self.new self.old }
        ensures answer { IfOk result (IsAnswerIn N.config (Q.answers question) self.new) }
        ensures closed { OnErr result (self.new ≡ self.old) }
    {
        match replace_with(&mut self.inner, (question, self.is_late, PhantomData), ask) {
            Ok(Answered { answer, front }) => {
                self.front = front;
                Ok(answer)
            }
            Err(_question) => Err(Closed),
        }
    }

    /// Returns the value that the key has after a list of accepted steps, which begins with all that
    /// this reader has seen and learnt. The list is the reader's from then on.
    #[inline(always)]
    pub fn get(&mut self, key: Key) -> Result<Option<u64>, Closed>
        ensures seen { BeginsWith self.new self.old }
        ensures found { IfOk result (IsFoundIn N.config key self.new) }
        ensures closed { OnErr result (self.new ≡ self.old) }
    {
        match self.look(key) {
            Ok(look) => Ok(look.found),
            Err(Closed) => Err(Closed),
        }
    }

    /// Returns the values that the keys have after one such list of steps, each in the place of its
    /// key.
    #[inline]
    pub fn get_many<const K: usize>(&mut self, keys: [Key; K]) -> Result<[Option<u64>; K], Closed>
        ensures seen { BeginsWith self.new self.old }
        ensures found { IfOk result (AreFoundIn N.config keys.entry self.new) }
        ensures closed { OnErr result (self.new ≡ self.old) }
    {
        self.ask(GetMany(keys))
    }

    /// Returns what `get` does, with the number of the map's changes in that list.
    #[inline(always)]
    pub fn look(&mut self, key: Key) -> Result<Look, Closed>
        ensures seen { BeginsWith self.new self.old }
        ensures look { IfOk result (IsLookIn N.config key self.new) }
        ensures closed { OnErr result (self.new ≡ self.old) }
    {
        self.ask(LookAt(key))
    }

    /// Returns the pair with the least key, if there is any after such a list of steps.
    pub fn first(&mut self) -> Result<Option<(Key, u64)>, Closed>
        ensures seen { BeginsWith self.new self.old }
        ensures first { IfOk result (IsFirstIn N.config self.new) }
        ensures closed { OnErr result (self.new ≡ self.old) }
    {
        self.next_at(0)
    }

    /// Returns the pair with the greatest key, if there is any after such a list of steps.
    pub fn last(&mut self) -> Result<Option<(Key, u64)>, Closed>
        ensures seen { BeginsWith self.new self.old }
        ensures last { IfOk result (IsLastIn N.config self.new) }
        ensures closed { OnErr result (self.new ≡ self.old) }
    {
        self.previous_at(Key::MAX)
    }

    /// Returns the pair with the least key at or above the key, if there is one after such a list of
    /// steps.
    pub fn next_at(&mut self, key: Key) -> Result<Option<(Key, u64)>, Closed>
        ensures seen { BeginsWith self.new self.old }
        ensures next { IfOk result (IsNextIn N.config key self.new) }
        ensures closed { OnErr result (self.new ≡ self.old) }
    {
        self.ask(NextAt(key))
    }

    /// Returns the pair with the greatest key at or below the key, if there is one after such a list
    /// of steps.
    pub fn previous_at(&mut self, key: Key) -> Result<Option<(Key, u64)>, Closed>
        ensures seen { BeginsWith self.new self.old }
        ensures previous { IfOk result (IsPreviousIn N.config key self.new) }
        ensures closed { OnErr result (self.new ≡ self.old) }
    {
        self.ask(PreviousAt(key))
    }

    /// Returns the number of the map's changes in such a list of steps, in constant time.
    pub fn number(&mut self) -> Result<u64, Closed>
        ensures seen { BeginsWith self.new self.old }
        ensures number { IfOk result (IsNumberIn N.config self.new) }
        ensures closed { OnErr result (self.new ≡ self.old) }
    {
        self.ask(Number)
    }

    /// Returns the number of pairs after such a list of steps, in constant time.
    pub fn len(&mut self) -> Result<u64, Closed>
        ensures seen { BeginsWith self.new self.old }
        ensures len { IfOk result (IsLenIn N.config self.new) }
        ensures closed { OnErr result (self.new ≡ self.old) }
    {
        self.ask(Len)
    }

    /// Fills `out` with the first pairs of the map from the key on, in the order of their keys and
    /// at most `limit`, after such a list of steps. After a fault `out` and the reader are as before.
    pub fn scan(
        &mut self,
        low: Key,
        limit: usize,
        out: &mut Vec<(Key, u64)>,
    ) -> Result<(), ScanFault>
        ensures seen { BeginsWith self.new self.old }
        ensures pairs { OnOk result (IsListedIn N.config low limit self.new out.new.items) }
        ensures fault { OnErr result ((self.new ≡ self.old) × (out.new ≡ out.old)) }
    {
        self.scan_range(low, Fence::Top, limit, out)
    }

    /// Does what `scan` does, with the pairs below the high. Uses the memory of `out`, unless it has
    /// no room for as many pairs as the map has or the limit allows.
    pub fn scan_range(
        &mut self,
        low: Key,
        high: Fence,
        limit: usize,
        out: &mut Vec<(Key, u64)>,
    ) -> Result<(), ScanFault>
        ensures seen { BeginsWith self.new self.old }
        ensures pairs { OnOk result
            (IsRangeIn N.config low (end_of high) limit self.new out.new.items) }
        ensures fault { OnErr result ((self.new ≡ self.old) × (out.new ≡ out.old)) }
    {
        let empty = Vec::new(*out.allocator());
        let listing = Listing {
            low,
            high,
            limit,
            list: replace(out, empty),
        };
        match replace_with(&mut self.inner, (listing, self.is_late, PhantomData), ask) {
            Ok(Answered { answer, front }) => {
                *out = answer.list;
                match answer.done {
                    Ok(()) => self.front = front,
                    Err(NoMemory) => return Err(ScanFault::NoMemory),
                }
                Ok(())
            }
            Err(Listing { list, .. }) => {
                *out = list;
                Err(ScanFault::Closed)
            }
        }
    }
}
