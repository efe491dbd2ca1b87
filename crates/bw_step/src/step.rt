ghost use Rattle.std.specs.Prelude.{◌≡◌, IfOk};
ghost use Rattle.bw_step.specs.ProposalView.{proposal_of, step_of_wish};

use crate::steps::{
    Consolidate, Delete, Grow, Insert, Mark, Merge, Modify, Split, TermAdd, TermDelete,
};
use bw_delta::{NoMemory, Spare};
use bw_keys::{Key, Pid, Version, Wished};
use std::alloc::Allocator;

/// A proposed change of the table, with the versions of the pages as they were seen, and with the
/// memory that the change takes.
#[derive(Drop)]
pub enum Step<A: Allocator> {
    Insert(Insert<A>),
    Delete(Delete<A>),
    Modify(Modify<A>),
    Consolidate(Consolidate<A>),
    Split(Split<A>),
    TermAdd(TermAdd<A>),
    Grow(Grow<A>),
    Mark(Mark<A>),
    Merge(Merge<A>),
    TermDelete(TermDelete<A>),
}

impl<A: Allocator + Copy> Step<A> {
    /// Returns the step by which a wish comes true for a key of the page: where it is set, a
    /// modification of a key that is there, and otherwise an insertion or a deletion.
    #[inline(always)]
    pub fn of_wish(
        page: Pid,
        seen: Version,
        key: Key,
        wished: Wished,
        is_there: bool,
        spare: Spare<A>,
    ) -> Step<A>
        ensures { proposal_of result ≡ step_of_wish page.0 seen.0 key wished is_there }
    {
        match wished {
            Wished::Set(value) if is_there => Step::Modify(Modify {
                page,
                seen,
                key,
                value,
                spare,
            }),
            Wished::Put(value) | Wished::Set(value) => Step::Insert(Insert {
                page,
                seen,
                key,
                value,
                spare,
            }),
            Wished::Delete => Step::Delete(Delete {
                page,
                seen,
                key,
                spare,
            }),
        }
    }

    /// Returns an equal step with memory of its own.
    pub fn twin(&self, alloc: A) -> Result<Step<A>, NoMemory>
        ensures { IfOk result (λ twin. twin ≡ self.now) }
    {
        match self {
            Step::Insert(step) => Ok(Step::Insert(step.twin(alloc)?)),
            Step::Delete(step) => Ok(Step::Delete(step.twin(alloc)?)),
            Step::Modify(step) => Ok(Step::Modify(step.twin(alloc)?)),
            Step::Consolidate(step) => Ok(Step::Consolidate(step.twin(alloc)?)),
            Step::Split(step) => Ok(Step::Split(step.twin(alloc)?)),
            Step::TermAdd(step) => Ok(Step::TermAdd(step.twin(alloc)?)),
            Step::Grow(step) => Ok(Step::Grow(step.twin(alloc)?)),
            Step::Mark(step) => Ok(Step::Mark(step.twin(alloc)?)),
            Step::Merge(step) => Ok(Step::Merge(step.twin(alloc)?)),
            Step::TermDelete(step) => Ok(Step::TermDelete(step.twin(alloc)?)),
        }
    }
}
