//! The ids of free slots. The last of them is taken next, and no memory is ever asked for one.

ghost use Rattle.std.specs.Prelude.{◌≡◌, ◌+◌, ◌<◌, ◌≤◌, ◌^◌, ◌++◌, Some, IsSome, IfOk, length};
ghost use Rattle.bw_law.specs.Effects.{freed};
ghost use Rattle.bw_law.specs.MorePages.{ids_from};
ghost use Rattle.bw_law.specs.Refusals.{last_id, all_but_last};
ghost use Rattle.bw_law.specs.Tables.{ids_down};

use bw_keys::Pid;
use std::alloc::{AllocError, Global};
use std::marker::Model;

/// The ids of free slots, and the room that was made for them once.
#[derive(Drop)]
pub(crate) struct FreeList {
    ids: Vec<u32>,
}

impl Model for FreeList {
    ghost use Rattle.std.specs.Prelude.{vec_capacity};
    ghost use Rattle.bw_table.specs.FreeLists.{FreeIds};

    ghost Value = { FreeIds };

    ghost view = { λ list. record { ids = list.ids.items; room = vec_capacity list.ids } };
}

impl FreeList {
    /// The ids of a new table's free slots, the greatest first, with room for every id.
    #[tactic(auto, using(crate::proofs::FreeIds::next_ids))]
    pub(crate) fn new(machine: Global, pages: u32) -> Result<FreeList, AllocError>
        ensures ids { IfOk result (λ list. list.ids ≡ ids_down pages) }
        ensures room { IfOk result (λ list. pages ≤ list.room) }
    {
        let mut ids = Vec::with_capacity(machine, pages as usize)?;
        for id in (1..pages).rev() {
            ids.push(id)?;
        }
        Ok(FreeList { ids })
    }

    /// These ids after that many others from the first on, the greatest first, with room for every
    /// id.
    #[tactic(auto, using(crate::proofs::FreeIds::more_ids))]
    pub(crate) fn behind(&self, first: u32, more: u32) -> Result<FreeList, AllocError>
        requires { first + more < 2 ^ 32 }
        ensures ids { IfOk result (λ list. list.ids ≡ ids_from first more ++ self.now.ids) }
        ensures room { IfOk result (λ list. first + more ≤ list.room) }
    {
        let pages = first + more;
        let mut ids = Vec::with_capacity(*self.ids.allocator(), pages as usize)?;
        for id in (first..pages).rev() {
            ids.push(id)?;
        }
        ids.extend_from_slice(&self.ids)?;
        Ok(FreeList { ids })
    }

    /// The number of free ids.
    pub(crate) fn len(&self) -> usize
        ensures { result ≡ length self.now.ids }
    {
        self.ids.len()
    }

    /// The id that a new page takes.
    #[tactic(auto, using(crate::proofs::FreeIds::last_ids))]
    pub(crate) fn last(&self) -> Option<u32>
        ensures { result ≡ last_id self.now.ids }
    {
        self.ids.last().copied()
    }

    /// Takes the last id, which there is.
    #[tactic(auto, using(crate::proofs::FreeIds::taken_ids))]
    pub(crate) fn take_last(&mut self) -> u32
        requires { IsSome (last_id self.old.ids) }
        ensures id { last_id self.old.ids ≡ Some result }
        ensures rest { self.new.ids ≡ all_but_last self.old.ids }
        ensures room { self.new.room ≡ self.old.room }
    {
        self.ids.pop().unwrap_or(0)
    }

    /// Puts the id of a freed slot at the end, unless the slot's version is used up.
    pub(crate) fn give_back(&mut self, id: Pid, version: u64)
        requires { length self.old.ids < self.old.room }
        ensures ids { self.new.ids ≡ freed self.old.ids id.0 version }
        ensures room { self.new.room ≡ self.old.room }
    {
        if version != u64::MAX {
            self.ids.push_reserved(id.0);
        }
    }
}
