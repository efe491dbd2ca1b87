//! One round of help: it proposes the step that brings an unfinished change on, or leads to the
//! round that has to come first.

ghost use Rattle.std.specs.Prelude.{◌≡◌, ◌+◌, ◌<◌, true, false, Ok, IsTrue, IfOk};
ghost use Rattle.bw_procedures.specs.Calls.{ReshapesWithin};
ghost use Rattle.bw_procedures.specs.Rounds.{IsRound, IsFree, NextBelow, rank, kind_rank};

use crate::consolidation::consolidation;
use crate::effort::is_spent;
use crate::fault::Fault;
use crate::offer::{Answer, reshape};
use crate::steps::Steps;
use crate::walk::walk;
use bw_delta::{Base, BaseFault, Spare};
use bw_keys::{Fence, Key, Pid};
use bw_step::{Action, Grow, Merge, Place, Refused, Stage, Step, TermAdd, TermDelete, Todo, View};
use std::alloc::Allocator;

/// The page that the last change of rounds led to. The next one leads up from it, or to a smaller
/// key on its level.
#[derive(Clone, Copy)]
pub(crate) struct Rung {
    pub level: u8,
    pub low: Key,
}

/// A round that is to be done.
#[derive(Clone, Copy)]
pub(crate) struct Task {
    pub todo: Todo,
    pub rung: Rung,
}

/// What a round came to.
#[derive(Clone, Copy)]
pub(crate) enum Turn {
    /// A step was proposed, or effort spent instead.
    Over,
    /// There was nothing to propose.
    Idle,
    /// Another round comes first.
    Next(Task),
}

/// Does one round.
pub(crate) fn round<A: Allocator + Copy, S: Steps<A, Step<A>>>(
    steps: &mut S,
    limit: u64,
    task: Task,
) -> Result<Turn, Fault>
    ensures follows { S.follows steps.old steps.new }
    ensures round { IsRound task.rung (kind_rank task.todo) limit result
        (S.seen steps.old) (S.seen steps.new) }
{
    match task.todo {
        Todo::Post(page) => post(steps, limit, task.rung, page),
        Todo::Merge(page) => merge(steps, limit, task.rung, page),
        Todo::DropTerm(page) => drop_term(steps, limit, task.rung, page),
    }
}

/// The page one level higher whose range holds the page's low. None where the tree isn't so high.
pub(crate) fn parent_of<A: Allocator + Copy, S: Steps<A, Step<A>>>(
    steps: &mut S,
    limit: u64,
    view: View,
) -> Result<Option<View>, Fault>
    ensures follows { S.follows steps.old steps.new }
    ensures reshapes { ReshapesWithin 0 limit result (S.seen steps.old) (S.seen steps.new) }
{
    match view.level.checked_add(1) {
        Some(goal) => walk(steps, limit, view.low, goal),
        None => Ok(None),
    }
}

/// Whether a page is further up than another, or has a smaller low on its level.
fn is_further(level: u8, low: Key, from_level: u8, from_low: Key) -> bool
    ensures { IsTrue result → rank level low + 2 < rank from_level from_low }
{
    level > from_level || (level == from_level && low < from_low)
}

/// The round for a marked page, which comes before the present one.
fn merge_first(rung: Rung, view: View) -> Turn
    ensures free { IsFree result }
    ensures next { NextBelow rung (kind_rank (Todo.DropTerm view.pid)) result }
{
    if is_further(view.level, view.low, rung.level, rung.low) {
        Turn::Next(Task {
            todo: Todo::Merge(view.pid),
            rung: Rung {
                level: view.level,
                low: view.low,
            },
        })
    } else {
        Turn::Idle
    }
}

/// Consolidates a page whose chain is too deep for one more record.
fn make_room<A: Allocator + Copy, S: Steps<A, Step<A>>>(
    steps: &mut S,
    limit: u64,
    view: View,
) -> Result<Turn, Fault>
    ensures follows { S.follows steps.old steps.new }
    ensures reshapes { ReshapesWithin 1 limit result (S.seen steps.old) (S.seen steps.new) }
    ensures over { IfOk result (λ turn. turn ≡ Turn.Over) }
{
    if let Some(step) = consolidation(steps, view)? {
        reshape(steps, limit, step)?;
    }
    Ok(Turn::Over)
}

/// Names an unposted page in its parent in one step, if the worker can and has effort left, and returns
/// whether it did.
fn post_in_place<A: Allocator + Copy, S: Steps<A, Step<A>>>(
    steps: &mut S,
    limit: u64,
    page: Pid,
) -> bool
    ensures follows { S.follows steps.old steps.new }
    ensures posted { result ≡ true
        → ReshapesWithin 1 limit (Ok Turn.Over) (S.seen steps.old) (S.seen steps.new) }
    ensures unposted { result ≡ false → S.seen steps.new ≡ S.seen steps.old }
{
    if is_spent(steps, limit) {
        return false;
    }
    steps.perform(Action::AddTerm { child: page }).is_ok()
}

/// The round that names an unposted page in its parent, or puts a new root over it.
fn post<A: Allocator + Copy, S: Steps<A, Step<A>>>(
    steps: &mut S,
    limit: u64,
    rung: Rung,
    page: Pid,
) -> Result<Turn, Fault>
    ensures follows { S.follows steps.old steps.new }
    ensures round { IsRound rung (kind_rank (Todo.Post page)) limit result
        (S.seen steps.old) (S.seen steps.new) }
{
    if post_in_place(steps, limit, page) {
        return Ok(Turn::Over);
    }
    let Some(view) = steps.peek(page) else {
        return Ok(Turn::Idle);
    };
    if view.stage != Stage::Unposted {
        return Ok(Turn::Idle);
    }
    let root = steps.root();
    if view.level == root.level {
        grow(steps, limit, root, view)?;
        return Ok(Turn::Over);
    }
    match parent_of(steps, limit, view)? {
        Some(parent) => post_under(steps, limit, rung, view, parent),
        None => Ok(Turn::Idle),
    }
}

/// Proposes a new root over the old one and the page.
fn grow<A: Allocator + Copy, S: Steps<A, Step<A>>>(
    steps: &mut S,
    limit: u64,
    root: Place,
    view: View,
) -> Result<(), Fault>
    ensures follows { S.follows steps.old steps.new }
    ensures reshapes { ReshapesWithin 1 limit result (S.seen steps.old) (S.seen steps.new) }
{
    let routes = [(0, root.pid), (view.low, view.pid)];
    let base = match Base::inner(steps.alloc(), 0, Fence::Top, None, &routes) {
        Ok(base) => base,
        Err(BaseFault::NoMemory) => return Err(Fault::NoMemory),
        // No page but the row's first begins at the least key, and that one is posted.
        Err(BaseFault::BadEntries) => {
            steps.idle();
            return Ok(());
        }
    };
    let step = Step::Grow(Grow {
        child: view.pid,
        seen: view.version,
        base,
    });
    reshape(steps, limit, step)?;
    Ok(())
}

/// Proposes the page's term.
#[tactic(auto, using(crate::proofs::Rounds::round_ends))]
fn post_under<A: Allocator + Copy, S: Steps<A, Step<A>>>(
    steps: &mut S,
    limit: u64,
    rung: Rung,
    view: View,
    parent: View,
) -> Result<Turn, Fault>
    ensures follows { S.follows steps.old steps.new }
    ensures round { IsRound rung (kind_rank (Todo.Post view.pid)) limit result
        (S.seen steps.old) (S.seen steps.new) }
{
    if parent.stage == Stage::Marked {
        return Ok(merge_first(rung, parent));
    }
    let spare = Spare::new(steps.alloc())?;
    let step = Step::TermAdd(TermAdd {
        parent: parent.pid,
        parent_seen: parent.version,
        child: view.pid,
        child_seen: view.version,
        spare,
    });
    match reshape(steps, limit, step)? {
        Answer::Refused(Refused::TermStands(merged)) => Ok(Turn::Next(Task {
            todo: Todo::DropTerm(merged),
            rung,
        })),
        Answer::Refused(Refused::Deep) => make_room(steps, limit, parent),
        _ => Ok(Turn::Over),
    }
}

/// The round that merges a marked page into its left neighbour.
fn merge<A: Allocator + Copy, S: Steps<A, Step<A>>>(
    steps: &mut S,
    limit: u64,
    rung: Rung,
    page: Pid,
) -> Result<Turn, Fault>
    ensures follows { S.follows steps.old steps.new }
    ensures round { IsRound rung (kind_rank (Todo.Merge page)) limit result
        (S.seen steps.old) (S.seen steps.new) }
{
    let Some(view) = steps.peek(page) else {
        return Ok(Turn::Idle);
    };
    match view.stage {
        Stage::Merged => {
            return Ok(Turn::Next(Task {
                todo: Todo::DropTerm(page),
                rung,
            }));
        }
        Stage::Marked => {}
        _ => return Ok(Turn::Idle),
    }
    let Some(before) = view.low.checked_sub(1) else {
        return Ok(Turn::Idle);
    };
    match walk(steps, limit, before, view.level)? {
        Some(left) => merge_under(steps, limit, rung, view, left),
        None => Ok(Turn::Idle),
    }
}

/// Proposes that the left neighbour takes the page in.
#[tactic(auto, using(crate::proofs::Rounds::round_ends))]
fn merge_under<A: Allocator + Copy, S: Steps<A, Step<A>>>(
    steps: &mut S,
    limit: u64,
    rung: Rung,
    view: View,
    left: View,
) -> Result<Turn, Fault>
    ensures follows { S.follows steps.old steps.new }
    ensures round { IsRound rung (kind_rank (Todo.Merge view.pid)) limit result
        (S.seen steps.old) (S.seen steps.new) }
{
    if left.stage == Stage::Marked {
        return Ok(merge_first(rung, left));
    }
    let left_spare = Spare::new(steps.alloc())?;
    let page_spare = Spare::new(steps.alloc())?;
    let step = Step::Merge(Merge {
        left: left.pid,
        left_seen: left.version,
        page: view.pid,
        page_seen: view.version,
        left_spare,
        page_spare,
    });
    match reshape(steps, limit, step)? {
        Answer::Refused(Refused::Deep) if left.depth > 0 => make_room(steps, limit, left),
        _ => Ok(Turn::Over),
    }
}

/// The round that takes the term of a merged page out of its parent.
fn drop_term<A: Allocator + Copy, S: Steps<A, Step<A>>>(
    steps: &mut S,
    limit: u64,
    rung: Rung,
    page: Pid,
) -> Result<Turn, Fault>
    ensures follows { S.follows steps.old steps.new }
    ensures round { IsRound rung (kind_rank (Todo.DropTerm page)) limit result
        (S.seen steps.old) (S.seen steps.new) }
{
    let Some(view) = steps.peek(page) else {
        return Ok(Turn::Idle);
    };
    if view.stage != Stage::Merged {
        return Ok(Turn::Idle);
    }
    match parent_of(steps, limit, view)? {
        Some(parent) => drop_under(steps, limit, rung, view, parent),
        None => Ok(Turn::Idle),
    }
}

/// Proposes that the page's term is deleted.
#[tactic(auto, using(crate::proofs::Rounds::round_ends))]
fn drop_under<A: Allocator + Copy, S: Steps<A, Step<A>>>(
    steps: &mut S,
    limit: u64,
    rung: Rung,
    view: View,
    parent: View,
) -> Result<Turn, Fault>
    ensures follows { S.follows steps.old steps.new }
    ensures round { IsRound rung (kind_rank (Todo.DropTerm view.pid)) limit result
        (S.seen steps.old) (S.seen steps.new) }
{
    if parent.stage == Stage::Marked {
        return Ok(merge_first(rung, parent));
    }
    let spare = Spare::new(steps.alloc())?;
    let step = Step::TermDelete(TermDelete {
        parent: parent.pid,
        parent_seen: parent.version,
        child: view.pid,
        child_seen: view.version,
        spare,
    });
    match reshape(steps, limit, step)? {
        Answer::Refused(Refused::Deep) => make_room(steps, limit, parent),
        _ => Ok(Turn::Over),
    }
}
