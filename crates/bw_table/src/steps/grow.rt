//! grow: a new page takes the base and is the root, one level higher; the child is Posted.

ghost use Rattle.std.specs.Prelude.{◌≡◌, ◌≢◌, ◌+◌, ◌^◌, ◌<◌, true, None, [], ◌∷◌, length, is_none, unwrap_or, option_copied};
ghost use Rattle.bw_step.specs.ProposalView.{grow_of};
ghost use Rattle.bw_step.specs.Stages.{is_in_row};
ghost use Rattle.bw_law.specs.Effects.{TakesStep, slots_grown};
ghost use Rattle.bw_law.specs.Refusals.{refusal, grow_reasons, root_page};
ghost use Rattle.bw_delta.specs.Slices.{list_of};
ghost use Rattle.bw_law.specs.Same.{is_same_page, are_same_entries, is_same_pid};
ghost use Rattle.bw_law.specs.Slots.{SlotValue, slot_in};
ghost use Rattle.bw_table.specs.Answers.{AnswersFirst, fine_unless};

use crate::link::Link;
use crate::slot::{Kept, Slot};
use crate::steps::shared::check_room;
use crate::table::Table;
use bw_delta::{Base, Entries, EntrySlice};
use bw_keys::{Fence, FenceWord, Key, MAX_LEVEL, Pid};
use bw_step::{Grow, Kind, Receipt, Refused, Stage};
use std::alloc::Allocator;

impl<A: Allocator + Copy> Table<A> {
    /// Why the growth is refused.
    pub(super) fn check_grow(&self, step: &Grow<A>) -> Result<(), Refused>
        ensures { result ≡ fine_unless (refusal self.now (grow_of step.now)) }
    {
        let Some(under) = self.slot(step.child) else {
            return Err(Refused::Absent);
        };
        may_grow(
            under,
            Pid(self.root),
            self.root_slot(),
            self.new_slot(),
            step,
        )
    }

    /// Does a growth that isn't refused.
    pub(super) fn grow(&mut self, step: Grow<A>) -> Receipt
        requires { refusal self.old (grow_of step) ≡ None }
        ensures { TakesStep self.old (grow_of step) result self.new }
    {
        let Grow { child, base, .. } = step;
        let level = self.root().level;
        let new = Pid(self.free.take_last());
        grow_at(&mut self.slots, child, new, level, base);
        self.root = new.0;
        self.page_finished();
        Receipt::Shaped {
            kind: Kind::Grow,
            page: new,
            other: Some(child),
        }
    }
}

/// Why the growth is refused on the slots of the child and the root, where the new root takes a slot if
/// one is free.
fn may_grow<A: Allocator + Copy>(
    under: &Slot<A>,
    root_id: Pid,
    root: &Slot<A>,
    new: Option<&Slot<A>>,
    step: &Grow<A>,
) -> Result<(), Refused>
    // Where there is no slot for the new root, any other may stand in its place.
    ensures { let new = option_copied new.entry in let step = step.now in (other : SlotValue)
        → AnswersFirst (grow_reasons under.now root.now (unwrap_or new other) (is_none new)
        step.seen.0 step.base (root_page root_id.0 under.now.low step.child.0)) result }
{
    if !under.stage.is_in_row() {
        return Err(Refused::Absent);
    }
    if under.version != step.seen.0 {
        return Err(Refused::Stale);
    }
    if step.base.is_leaf() {
        return Err(Refused::WrongKind);
    }
    if !is_root_page(&step.base, root_id, under.low, step.child) {
        return Err(Refused::NotSame);
    }
    if under.stage != Stage::Unposted {
        return Err(Refused::WrongStage);
    }
    if under.level != root.level {
        return Err(Refused::WrongParent);
    }
    if root.level >= MAX_LEVEL {
        return Err(Refused::TooTall);
    }
    check_room(under, new)
}

/// Whether the base is that of a new root over the old one and the child.
fn is_root_page<A: Allocator + Copy>(base: &Base<A>, root: Pid, low: Key, child: Pid) -> bool
    ensures { result ≡ is_same_page base.now (root_page root.0 low child.0) }
{
    base.low == 0
        && base.high.fence() == Fence::Top
        && base.right.is_none()
        && match &base.entries {
            Entries::Routes(routes) => are_root_routes(routes.as_slice(), root, low, child),
            Entries::Pairs(_) => false,
        }
}

/// Whether the routes are those of a new root.
#[tactic(auto, using(crate::proofs::Same::lengths))]
fn are_root_routes(routes: EntrySlice<'_, Pid>, root: Pid, low: Key, child: Pid) -> bool
    ensures { result ≡ are_same_entries is_same_pid (list_of routes.entry)
        ((0, root) ∷ (low, child) ∷ []) }
{
    if routes.len() != 2 {
        return false;
    }
    are_these(routes.entry(0), routes.entry(1), root, low, child)
}

/// Whether the two routes are those of a new root.
fn are_these(first: (Key, Pid), second: (Key, Pid), root: Pid, low: Key, child: Pid) -> bool
    ensures { result ≡ are_same_entries is_same_pid (first ∷ second ∷ [])
        ((0, root) ∷ (low, child) ∷ []) }
{
    first.0 == 0 && first.1 == root && second.0 == low && second.1 == child
}

/// Puts the base into the new root's slot, and posts the child.
fn grow_at<A: Allocator + Copy>(
    slots: &mut Vec<Slot<A>>,
    child: Pid,
    new: Pid,
    level: u8,
    base: Base<A>,
)
    requires child_exists { child.0 < length slots.old.items }
    requires new_exists { new.0 < length slots.old.items }
    requires apart { new.0 ≢ child.0 }
    requires child_here { is_in_row (slot_in slots.old.items child.0).stage ≡ true }
    requires child_version { (slot_in slots.old.items child.0).version + 1 < 2 ^ 64 }
    requires new_version { (slot_in slots.old.items new.0).version + 1 < 2 ^ 64 }
    requires level { level + 1 < 256 }
    ensures { slots.new.items ≡ slots_grown child.0 new.0 level base slots.old.items }
{
    slots[child.0 as usize].post();
    let whole = Kept {
        low: 0,
        high: FenceWord::new(Fence::Top),
        right: Link::none(),
        level: level + 1,
        count: base.len() as u64,
    };
    slots[new.0 as usize].hold(Stage::Posted, whole, base);
}
