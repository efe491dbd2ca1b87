//! The leaves and the pairs of the tree, read along the leaf row.

ghost use Rattle.std.specs.Prelude.{◌≡◌, ◌+◌, ◌++◌, true, IfOk, IfSome, IfNone, OnOk};
ghost use Rattle.bw_step.specs.Stages.{is_in_row};
ghost use Rattle.bw_law.specs.Laws.{IsTheMap};
ghost use Rattle.bw_law.specs.Slots.{pairs_in};
ghost use Rattle.bw_law.specs.Tables.{Lawful, slot_at};
ghost use Rattle.bw_table.specs.LeafRows.{IsRowStart};
ghost use Rattle.bw_table.specs.SlotFacts.{HasSoundChain};
ghost use Rattle.bw_table.specs.Views.{IsSurveyOf, ArePairsOf, leaf_of};

use crate::slot::Slot;
use crate::table::Table;
use bw_chain::append_pairs;
use bw_delta::NoMemory;
use bw_keys::{Key, Pid, Range};
use bw_step::{Leaf, Survey};
use std::alloc::{Allocator, Global};

impl<A: Allocator + Copy> Table<A> {
    /// Returns the levels, the leaves in the order of their keys, and the book. The list of leaves
    /// lies in the machine's memory.
    pub fn survey(&self, machine: Global) -> Result<Survey, NoMemory>
        ensures { IfOk result (IsSurveyOf self.now) }
    {
        let mut leaves = Vec::new(machine);
        let mut next = Some(self.leftmost_leaf());
        'leaves: while let Some(pid) = next {
            let slot = self.page(pid);
            leaves.push(slot.leaf(pid))?;
            next = slot.right();
        }
        Ok(Survey {
            levels: self.root_slot().level + 1,
            leaves,
            book: self.book,
        })
    }

    /// Returns the pairs of the map in the order of their keys, in the machine's memory.
    pub fn pairs(&self, machine: Global) -> Result<Vec<(Key, u64)>, NoMemory>
        ensures joined { IfOk result (λ pairs. ArePairsOf self.now pairs.items) }
        ensures map { IfOk result (λ pairs. IsTheMap self.now pairs.items) }
    {
        let mut pairs = Vec::new(machine);
        let mut next = Some(self.leftmost_leaf());
        'leaves: while let Some(pid) = next {
            let slot = self.page(pid);
            slot.append_pairs(&mut pairs)?;
            next = slot.right();
        }
        Ok(pairs)
    }

    /// The leaf that begins at the least key: the root, or the leftmost page below it.
    fn leftmost_leaf(&self) -> Pid
        ensures lawful { Lawful self.now }
        ensures first { IsRowStart self.now result.0 }
        ensures leaf { (slot_at self.now result.0).level ≡ 0 }
    {
        let mut page = Pid(self.root);
        'levels: while let Some(child) = self.first_child(page) {
            page = child;
        }
        page
    }

    /// The page one level down that begins at the least key too; none below a leaf.
    fn first_child(&self, page: Pid) -> Option<Pid>
        requires { IsRowStart self.now page.0 }
        ensures first { IfSome result (λ child. IsRowStart self.now child.0) }
        ensures down { IfSome result (λ child.
            (slot_at self.now page.0).level ≡ (slot_at self.now child.0).level + 1) }
        ensures leaf { IfNone result ((slot_at self.now page.0).level ≡ 0) }
    {
        self.page(page).route_at(0)
    }

    /// The slot of a page in a row.
    fn page(&self, pid: Pid) -> &Slot<A>
        requires { is_in_row (slot_at self.now pid.0).stage ≡ true }
        ensures lawful { Lawful self.now }
        ensures there { result.now ≡ slot_at self.now pid.0 }
        ensures sound { HasSoundChain result.now }
    {
        &self.slots[pid.0 as usize]
    }
}

impl<A: Allocator + Copy> Slot<A> {
    /// The leaf as a survey lists it.
    fn leaf(&self, pid: Pid) -> Leaf
        ensures { result ≡ leaf_of pid self.now }
    {
        Leaf {
            pid,
            range: Range {
                low: self.low,
                high: self.high(),
            },
            count: self.count,
            stage: self.stage,
        }
    }

    /// Appends the pairs of a page in a row to the list.
    fn append_pairs(&self, list: &mut Vec<(Key, u64)>) -> Result<(), NoMemory>
        requires in_row { is_in_row self.now.stage ≡ true }
        requires sound { HasSoundChain self.now }
        ensures { OnOk result (list.new.items ≡ list.old.items ++ pairs_in self.now) }
    {
        if let Some(chain) = self.chain() {
            append_pairs(chain, list)?;
        }
        Ok(())
    }
}
