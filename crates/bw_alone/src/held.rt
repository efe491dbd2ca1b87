//! The steps of a table that is held.

ghost use Rattle.bw_law.specs.Tables.{Lawful, Booked};

use crate::holding::{Does, Holds};
use bw_keys::Pid;
use bw_step::{Action, Performed, Receipt, Refused, Step, Unperformed};
use bw_table::Table;
use std::alloc::Allocator;

/// Tells the law of the table, which it keeps through all steps. It does nothing.
#[inline(always)]
pub(crate) fn law<A: Allocator + Copy, H: Holds<Table<A>>>(held: &H)
    ensures lawful { Lawful (H.value held.now) }
    ensures booked { Booked (H.value held.now) }
{
    held.get().law();
}

/// That the table takes a step: see [`Table::install`].
#[derive(Drop)]
pub(crate) struct Installing<A: Allocator + Copy> {
    pub step: Step<A>,
}

impl<A: Allocator + Copy> Does<Table<A>> for Installing<A> {
    ghost use Rattle.bw_step.specs.ProposalView.{proposal_of};
    ghost use Rattle.bw_alone.specs.Doing.{Installs};

    type Answer = Result<Receipt, Refused>;

    ghost does = { λ it old answer new. Installs (proposal_of it.step) old answer new };

    #[inline(always)]
    fn run(self, table: &mut Table<A>) -> Result<Receipt, Refused> {
        table.install(self.step)
    }
}

/// That an action is performed, without spare memory: see [`Table::perform`].
#[derive(Clone, Copy)]
pub(crate) struct Performing<A: Allocator + Copy> {
    pub alloc: A,
    pub action: Action,
}

impl<A: Allocator + Copy> Does<Table<A>> for Performing<A> {
    ghost use Rattle.bw_alone.specs.Doing.{Performs};

    type Answer = Result<Performed, Unperformed>;

    ghost does = { λ it old answer new. Performs it.action old answer new };

    #[inline(always)]
    fn run(self, table: &mut Table<A>) -> Result<Performed, Unperformed> {
        table.perform(self.alloc, self.action, None)
    }
}

/// That a page is split, and the new one named in the parent: see [`Table::split_under`].
#[derive(Clone, Copy)]
pub(crate) struct Splitting {
    pub parent: Pid,
    pub page: Pid,
    pub number: usize,
}

impl<A: Allocator + Copy> Does<Table<A>> for Splitting {
    ghost use Rattle.bw_alone.specs.Doing.{Splits};

    type Answer = Option<(Pid, bool)>;

    ghost does = { λ it old answer new. Splits it.parent.0 it.page.0 it.number old answer new };

    #[inline(always)]
    fn run(self, table: &mut Table<A>) -> Option<(Pid, bool)> {
        let (new, posted) = table.split_under(self.parent, self.page, self.number).ok()?;
        Some((new, posted.is_ok()))
    }
}

/// That a page is merged into its left neighbour under the parent: see [`Table::merge_under`].
#[derive(Clone, Copy)]
pub(crate) struct Merging {
    pub parent: Pid,
    pub page: Pid,
}

impl<A: Allocator + Copy> Does<Table<A>> for Merging {
    ghost use Rattle.bw_alone.specs.Doing.{Merges};

    type Answer = Option<Pid>;

    ghost does = { λ it old answer new. Merges it.parent.0 it.page.0 old answer new };

    fn run(self, table: &mut Table<A>) -> Option<Pid> {
        table.merge_under(self.parent, self.page).ok()
    }
}
