//! split: a new page takes the base; the page ends at the separator and links to it.

ghost use Rattle.std.specs.Prelude.{◌≡◌, ◌≢◌, ◌+◌, ◌-◌, ◌^◌, ◌<◌, ◌≤◌, Some, None, length, is_none, unwrap_or, option_copied};
ghost use Rattle.bw_delta.specs.Entries.{at};
ghost use Rattle.bw_delta.specs.Pages.{listed_length};
ghost use Rattle.bw_step.specs.ProposalView.{split_of};
ghost use Rattle.bw_law.specs.Effects.{TakesStep, slots_split, cut_before};
ghost use Rattle.bw_law.specs.Refusals.{refusal, split_reasons, is_leaving_at};
ghost use Rattle.bw_law.specs.Slots.{SlotValue, slot_in, routes_in};
ghost use Rattle.bw_table.specs.Answers.{AnswersFirst, fine_unless};
ghost use Rattle.bw_table.specs.Fields.{no_page};
ghost use Rattle.bw_table.specs.SlotFacts.{HasSoundChain, MayGrowDeeper, kept_from};

use crate::link::{Link, NO_PAGE};
use crate::slot::{Kept, Slot};
use crate::steps::shared::{check_open, check_room};
use crate::table::Table;
use bw_delta::{Base, Delta, Spare};
use bw_keys::{Fence, FenceWord, Key, Pid};
use bw_step::{Kind, Receipt, Refused, Split, Stage};
use std::alloc::Allocator;

impl<A: Allocator + Copy> Table<A> {
    /// Why the split is refused.
    pub(super) fn check_split(&self, step: &Split<A>) -> Result<(), Refused>
        ensures { result ≡ fine_unless (refusal self.now (split_of step.now)) }
    {
        let Some(slot) = self.slot(step.page) else {
            return Err(Refused::Absent);
        };
        let child_leaving = self.is_leaving_at(slot, step.separator);
        may_split(slot, self.new_slot(), child_leaving, step)
    }

    /// Does a split that isn't refused.
    pub(super) fn split(&mut self, step: Split<A>) -> Receipt
        requires { refusal self.old (split_of step) ≡ None }
        ensures { TakesStep self.old (split_of step) result self.new }
    {
        let Split {
            page,
            separator,
            base,
            spare,
            ..
        } = step;
        let new = Pid(self.free.take_last());
        self.last_leaf = NO_PAGE;
        self.guide.note_unfinished();
        split_at(&mut self.slots, page, new, separator, base, spare);
        Receipt::Shaped {
            kind: Kind::Split,
            page,
            other: Some(new),
        }
    }

    /// Whether the page that is routed at the separator is being removed.
    pub(super) fn is_leaving_at(&self, slot: &Slot<A>, separator: Key) -> bool
        ensures { result ≡ is_leaving_at self.now.slots (at separator (routes_in slot.now)) }
    {
        match slot.route_at(separator) {
            Some(child) => match self.slot(child) {
                Some(slot) => slot.stage.is_leaving(),
                None => false,
            },
            None => false,
        }
    }
}

/// Why the split is refused on the slot of its page, where the new page takes a slot if one is free, and
/// the child that is routed at the separator may be leaving.
fn may_split<A: Allocator + Copy>(
    slot: &Slot<A>,
    new: Option<&Slot<A>>,
    child_leaving: bool,
    step: &Split<A>,
) -> Result<(), Refused>
    requires sound { HasSoundChain slot.now }
    // Where there is no slot for the new page, any other may stand in its place.
    ensures { let new = option_copied new.entry in let step = step.now in (other : SlotValue)
        → AnswersFirst (split_reasons slot.now (unwrap_or new other) child_leaving (is_none new)
        step.seen.0 step.separator step.base) result }
{
    check_open(slot, step.seen)?;
    if slot.is_other_kind(&step.base) {
        return Err(Refused::WrongKind);
    }
    if !slot.holds(step.separator) {
        return Err(Refused::OutOfRange);
    }
    if slot.depth > 0 {
        return Err(Refused::NotBare);
    }
    if !slot.is_later_key(step.separator) || child_leaving {
        return Err(Refused::BadSeparator);
    }
    if !slot.has_upper_part(&step.base, step.separator) {
        return Err(Refused::NotSame);
    }
    check_room(slot, new)
}

/// Moves the upper part of a page to a new one.
fn split_at<A: Allocator + Copy>(
    slots: &mut Vec<Slot<A>>,
    page: Pid,
    new: Pid,
    separator: Key,
    base: Base<A>,
    spare: Spare<A>,
)
    requires exists { page.0 < length slots.old.items }
    requires new_exists { new.0 < length slots.old.items }
    requires apart { new.0 ≢ page.0 }
    requires deeper { MayGrowDeeper (slot_in slots.old.items page.0) }
    requires new_version { (slot_in slots.old.items new.0).version + 1 < 2 ^ 64 }
    requires count { listed_length base.listed ≤ (slot_in slots.old.items page.0).count }
    requires later { 0 < separator }
    requires link { new.0 < no_page }
    ensures { slots.new.items ≡ slots_split page.0 new separator base slots.old.items }
{
    let upper = slots[page.0 as usize].split_off(separator, new, base.len() as u64, spare);
    slots[new.0 as usize].hold(Stage::Unposted, upper, base);
}

impl<A: Allocator + Copy> Slot<A> {
    /// Ends the page before the separator, and returns what is kept of the part from it on.
    fn split_off(&mut self, separator: Key, new: Pid, count: u64, spare: Spare<A>) -> Kept
        requires deeper { MayGrowDeeper self.old }
        requires count { count ≤ self.old.count }
        requires later { 0 < separator }
        requires link { new.0 < no_page }
        ensures upper { result ≡ kept_from separator count self.old }
        ensures lower { self.new ≡ cut_before separator new count self.old }
    {
        let upper = self.kept_from(separator, count);
        let left = self.count - count;
        self.record(Delta::Split(separator, new), left, spare);
        self.high = FenceWord::new(Fence::Key(separator));
        self.right = Link::to(new);
        upper
    }
}
