//! Writing a key, whatever is wished of it: the writer's walk, which helps what it meets
//! unfinished, the look at the leaf, the step, and the end of a call.

ghost use Rattle.std.specs.Prelude.{◌≡◌, ◌⊎◌, true, IfNone, IfSome};
ghost use Rattle.bw_procedures.specs.Actions.{Performs};
ghost use Rattle.bw_procedures.specs.Calls.{OnlySpends, OnlyReshapes};
ghost use Rattle.bw_procedures.specs.Writes.{Writes};
ghost use Rattle.bw_procedures.specs.Writing.{ArrivalCosts, Attempts, AttemptsAtOnce};
ghost use Rattle.bw_procedures.specs.Writing.{Helped, EndsEarned, FoundBy, IsReplyOf};

use crate::consolidation::consolidate;
use crate::effort::{is_spent, limit};
use crate::fault::Fault;
use crate::helping::help_within;
use crate::offer::{Answer, offer};
use crate::reply::Done;
use crate::steps::{Keep, Steps};
use crate::tending::{is_fair, tend_within};
use crate::wish::{had, keep_of, step_for};
use bw_delta::Spare;
use bw_keys::{Key, Pid, Wished};
use bw_step::{Action, Go, Look, Performed, Place, Receipt, Refused, Step, Todo, View};
use std::alloc::Allocator;

/// Where a writer's walk came to.
#[derive(Clone, Copy)]
enum Arrival {
    /// A place was gone.
    Gone,
    /// The leaf whose range holds the key.
    Here(View),
    /// Something unfinished, which is helped first.
    Help(Todo),
}

/// What one attempt of a call came to.
#[derive(Clone, Copy)]
enum Tried {
    /// What the key had, from a look, or from a change after which no page is to be tended.
    Reply(Option<u64>),
    /// What the key had, from an accepted change of the page, which is to be tended.
    Tend(Option<u64>, Pid),
    /// Nothing: the call begins again.
    Again,
    /// Nothing: the call begins again, and passes over pages that aren't posted.
    Kept(Fault),
}

/// Carries out a wish, as a put, a set or a delete, and replies with what the key had.
#[inline(always)]
pub(crate) fn write<A: Allocator + Copy, S: Steps<A, Step<A>>>(
    steps: &mut S,
    key: Key,
    wished: Wished,
) -> Result<Done<Option<u64>>, Fault>
    ensures follows { S.follows steps.old steps.new }
    ensures write { Writes (IsReplyOf key wished) result (S.seen steps.old) (S.seen steps.new) }
{
    let limit = limit(steps);
    match write_at_once(steps, limit, key, wished) {
        Some(Tried::Reply(reply)) => Ok(Done { reply, fault: None }),
        Some(Tried::Tend(reply, page)) => Ok(finish(steps, limit, None, reply, page)),
        Some(Tried::Again | Tried::Kept(_)) | None => write_by_steps(steps, key, wished),
    }
}

/// Carries out a wish by single steps, attempt by attempt.
#[inline(never)]
fn write_by_steps<A: Allocator + Copy, S: Steps<A, Step<A>>>(
    steps: &mut S,
    key: Key,
    wished: Wished,
) -> Result<Done<Option<u64>>, Fault>
    ensures follows { S.follows steps.old steps.new }
    ensures write { Writes (IsReplyOf key wished) result (S.seen steps.old) (S.seen steps.new) }
{
    let limit = limit(steps);
    let mut kept: Option<Fault> = None;
    'again: loop {
        let passes_posts = kept.is_some();
        match try_once(steps, limit, passes_posts, key, wished)? {
            Tried::Reply(reply) => return Ok(Done { reply, fault: kept }),
            Tried::Tend(reply, page) => return Ok(finish(steps, limit, kept, reply, page)),
            Tried::Again => {}
            Tried::Kept(fault) => kept = Some(fault),
        }
        if is_spent(steps, limit) {
            return Err(Fault::Contended);
        }
    }
}

/// Carries out a wish in one step of a worker that can, where the effort that is left covers the
/// consolidation after the change. A leaf whose count stays fair needs no tending.
#[inline(always)]
fn write_at_once<A: Allocator + Copy, S: Steps<A, Step<A>>>(
    steps: &mut S,
    limit: u64,
    key: Key,
    wished: Wished,
) -> Option<Tried>
    ensures follows { S.follows steps.old steps.new }
    ensures attempts { AttemptsAtOnce (IsReplyOf key wished) result
        (S.seen steps.old) (S.seen steps.new) }
{
    if is_spent(steps, limit) {
        return None;
    }
    let done = make_at_once(steps, key, wished)?;
    let reply = had(wished, done.receipt);
    let config = steps.config();
    if matches!(done.receipt, Receipt::Looked { .. })
        || (is_fair(config.fanout, done.count) && u32::from(done.depth) < config.chain)
    {
        Some(Tried::Reply(reply))
    } else {
        Some(Tried::Tend(reply, done.page))
    }
}

/// Carries out a wish in one step of a worker that can: by a record on the leaf, or with the
/// consolidation of the leaf after the change.
#[tactic(auto, using(crate::proofs::Changing::made_at_once))]
#[inline(always)]
fn make_at_once<A: Allocator + Copy, S: Steps<A, Step<A>>>(
    steps: &mut S,
    key: Key,
    wished: Wished,
) -> Option<Performed>
    ensures follows { S.follows steps.old steps.new }
    ensures made { IfSome result (λ done.
        Performs (Action.Record key wished) done (S.seen steps.old) (S.seen steps.new)
        ⊎ Performs (Action.Change key wished) done (S.seen steps.old) (S.seen steps.new)) }
    ensures unmade { IfNone result (S.seen steps.new ≡ S.seen steps.old) }
{
    if steps.records_at_once() {
        steps.perform(Action::Record { key, wished }).ok()
    } else {
        steps.perform(Action::Change { key, wished }).ok()
    }
}

/// Walks to the key's leaf, and carries out the wish there.
#[tactic(auto, using(crate::proofs::Changing::attempts_any))]
#[inline(always)]
fn try_once<A: Allocator + Copy, S: Steps<A, Step<A>>>(
    steps: &mut S,
    limit: u64,
    passes_posts: bool,
    key: Key,
    wished: Wished,
) -> Result<Tried, Fault>
    ensures follows { S.follows steps.old steps.new }
    ensures attempts { Attempts (IsReplyOf key wished) passes_posts limit result
        (S.seen steps.old) (S.seen steps.new) }
{
    match arrive(steps, key, passes_posts) {
        Arrival::Gone => Ok(Tried::Again),
        Arrival::Help(todo) => help_on(steps, limit, passes_posts, todo),
        Arrival::Here(view) => write_at(steps, limit, view, key, wished),
    }
}

/// Finds the key's leaf at once, where the worker can, and otherwise walks as a writer from the
/// root.
#[inline(always)]
fn arrive<A: Allocator + Copy, S: Steps<A, Step<A>>>(
    steps: &mut S,
    key: Key,
    passes_posts: bool,
) -> Arrival
    ensures follows { S.follows steps.old steps.new }
    ensures seen { OnlySpends (S.seen steps.old) (S.seen steps.new) }
    ensures cost { ArrivalCosts result (S.seen steps.old) (S.seen steps.new) }
{
    match steps.leaf_at_once(key) {
        Some(view) => Arrival::Here(view),
        None => {
            let root = steps.root();
            approach(steps, root, key, passes_posts)
        }
    }
}

/// Walks as a writer from a place to the leaf, or to the first thing that is unfinished.
#[inline(always)]
fn approach<A: Allocator + Copy, S: Steps<A, Step<A>>>(
    steps: &mut S,
    start: Place,
    key: Key,
    passes_posts: bool,
) -> Arrival
    ensures follows { S.follows steps.old steps.new }
    ensures seen { OnlySpends (S.seen steps.old) (S.seen steps.new) }
    ensures cost { ArrivalCosts result (S.seen steps.old) (S.seen steps.new) }
{
    let mut place = start;
    'down: loop {
        let next = steps.visit(place, key, 0);
        if let Some(todo) = wanted(next.todo, passes_posts) {
            return Arrival::Help(todo);
        }
        match next.go {
            Go::Gone => return Arrival::Gone,
            Go::Here(view) => return Arrival::Here(view),
            Go::Right(next) => place = next,
            Go::Down(next) => place = next,
        }
    }
}

/// What is to be helped.
#[inline(always)]
fn wanted(todo: Option<Todo>, passes_posts: bool) -> Option<Todo> {
    match todo {
        Some(Todo::Post(_)) if passes_posts => None,
        _ => todo,
    }
}

/// Helps, and keeps the fault where a page can't be posted.
fn help_on<A: Allocator + Copy, S: Steps<A, Step<A>>>(
    steps: &mut S,
    limit: u64,
    passes_posts: bool,
    todo: Todo,
) -> Result<Tried, Fault>
    ensures follows { S.follows steps.old steps.new }
    ensures helped { Helped passes_posts limit result (S.seen steps.old) (S.seen steps.new) }
{
    match help_within(steps, limit, todo) {
        Ok(()) => Ok(Tried::Again),
        Err(fault) => {
            if !passes_posts && is_post(todo) && is_want_of_pages(fault) {
                Ok(Tried::Kept(fault))
            } else {
                Err(fault)
            }
        }
    }
}

fn is_post(todo: Todo) -> bool {
    match todo {
        Todo::Post(_) => true,
        Todo::Merge(_) | Todo::DropTerm(_) => false,
    }
}

fn is_want_of_pages(fault: Fault) -> bool {
    match fault {
        Fault::TableFull | Fault::TooTall => true,
        Fault::Contended | Fault::NoMemory | Fault::Worn => false,
    }
}

/// Carries out a wish at a page.
#[tactic(auto, using(crate::proofs::Changing::replied, crate::proofs::Changing::wanted))]
#[inline(always)]
fn write_at<A: Allocator + Copy, S: Steps<A, Step<A>>>(
    steps: &mut S,
    limit: u64,
    view: View,
    key: Key,
    wished: Wished,
) -> Result<Tried, Fault>
    ensures follows { S.follows steps.old steps.new }
    ensures attempts { Attempts (IsReplyOf key wished) true limit result
        (S.seen steps.old) (S.seen steps.new) }
{
    let keep = keep_of(wished);
    let Some(Look { found, .. }) = look_at(steps, view.pid, key, keep)? else {
        return Ok(Tried::Again);
    };
    if keep.keeps(found) {
        return Ok(Tried::Reply(found));
    }
    propose(steps, limit, view, found, key, wished)
}

/// Looks the key up at a page. None where the page isn't the key's leaf any more.
#[tactic(auto, using(crate::proofs::Changing::found_by, crate::proofs::Trails::adding))]
#[inline(always)]
fn look_at<A: Allocator + Copy, S: Steps<A, Step<A>>>(
    steps: &mut S,
    page: Pid,
    key: Key,
    keep: Keep,
) -> Result<Option<Look>, Fault>
    ensures follows { S.follows steps.old steps.new }
    ensures found { FoundBy keep key result (S.seen steps.old) (S.seen steps.new) }
{
    Ok(steps.look(page, key, keep)?)
}

/// Proposes the wish's step. A page that is too deep for it is consolidated.
#[inline(always)]
fn propose<A: Allocator + Copy, S: Steps<A, Step<A>>>(
    steps: &mut S,
    limit: u64,
    view: View,
    found: Option<u64>,
    key: Key,
    wished: Wished,
) -> Result<Tried, Fault>
    ensures follows { S.follows steps.old steps.new }
    ensures attempts { Attempts (IsReplyOf key wished) true limit result
        (S.seen steps.old) (S.seen steps.new) }
{
    let spare = Spare::new(steps.alloc())?;
    match offer(steps, limit, step_for(key, wished, view, found, spare))? {
        Answer::Accepted(receipt) => Ok(Tried::Tend(had(wished, receipt), view.pid)),
        Answer::Refused(Refused::Deep) => {
            consolidate(steps, limit, view)?;
            Ok(Tried::Again)
        }
        Answer::Refused(Refused::Worn) => Err(Fault::Worn),
        Answer::Refused(_) => Ok(Tried::Again),
    }
}

/// Tends the page of an accepted change, and returns the reply.
fn finish<A: Allocator + Copy, S: Steps<A, Step<A>>>(
    steps: &mut S,
    limit: u64,
    kept: Option<Fault>,
    reply: Option<u64>,
    page: Pid,
) -> Done<Option<u64>>
    ensures follows { S.follows steps.old steps.new }
    ensures reshapes { OnlyReshapes (S.seen steps.old) (S.seen steps.new) }
    ensures reply { result.reply ≡ reply }
    ensures fault { EndsEarned limit kept result.fault (S.seen steps.old) (S.seen steps.new) }
{
    match tend_within(steps, limit, page) {
        Ok(()) => Done { reply, fault: kept },
        Err(fault) => Done {
            reply,
            fault: Some(fault),
        },
    }
}
