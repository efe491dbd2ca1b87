//! A page split in half where it lies, and the new page named in its parent. Each is one step, or
//! that step and then the consolidation of the page on which it left its record.

ghost use Rattle.std.specs.Prelude.{◌≡◌, None, Some, is_none, unwrap_or, option_copied, ℕ, true, ◌<◌, ◌≤◌, IfOk, IfErr, IfSome, IfNone, OnOk};
ghost use Rattle.bw_delta.specs.Records.{Records, depth};
ghost use Rattle.bw_delta.specs.Sound.{page_for};
ghost use Rattle.bw_keys.specs.Reasons.{first_reason};
ghost use Rattle.bw_chain.specs.Pages.Halves.{listed_middle_key};
ghost use Rattle.bw_step.specs.declared.action.Action.TheVariants as actions;
ghost use Rattle.bw_step.specs.declared.action.Reshaping.TheVariants as reshapings;
ghost use Rattle.bw_step.specs.Stages.{is_in_row};
ghost use Rattle.bw_law.specs.Refusals.{refusal};
ghost use Rattle.bw_law.specs.Slots.{SlotValue, chain_in};
ghost use Rattle.bw_law.specs.Tables.{slot_at};
ghost use Rattle.bw_table.specs.Actions.{IsAbove, LacksSpare, Performs};
ghost use Rattle.bw_table.specs.Answers.{AnswersFirst};
ghost use Rattle.bw_table.specs.InPlaces.{half_reasons, halving, halving_reasons};
ghost use Rattle.bw_table.specs.SlotFacts.{HasSoundChain};
ghost use Rattle.bw_table.specs.Views.{view_of};

use crate::slot::Slot;
use crate::steps::shared::{check_open, check_room};
use crate::table::Table;
use bw_chain::{halve_with_room, middle_key};
use bw_delta::{Base, Node, Spare};
use bw_keys::{Key, Pid, Version};
use bw_step::{
    Denied, Go, Kind, Performed, Receipt, Refused, Split, Stage, Step, TermAdd, Unperformed, View,
};
use std::alloc::Allocator;

impl<A: Allocator + Copy> Table<A> {
    /// Splits the page in half where it lies, if it still has the version that was seen. No memory
    /// is taken for a split that is refused.
    pub(super) fn perform_halving(
        &mut self,
        alloc: A,
        page: Pid,
        seen: Version,
    ) -> Result<Performed, Unperformed>
        ensures { Performs (actions.Reshape page seen reshapings.Halve) self.old result self.new }
    {
        let base = match self.page_to_halve(page, seen) {
            Ok(base) => base,
            Err(reason) => return Err(Unperformed::Denied(Denied::Refused(reason))),
        };
        let room = self.config.fanout as usize + 1;
        let (Ok((separator, base)), Ok(spare)) = (
            halve_with_room(alloc, base, room),
            Spare::new(alloc),
        ) else {
            return Err(Unperformed::Denied(Denied::NoMemory));
        };
        let receipt = self.split(Split {
            page,
            seen,
            separator,
            base,
            spare,
        });
        Ok(self.performed(page, separator, receipt))
    }

    /// Splits the page in half and consolidates it, as the two steps one after the other do, if it
    /// still has the version that was seen. Changes nothing and leaves it to single steps where the
    /// split is refused, and where [`Table::split_at_once`] can't do both.
    pub(super) fn perform_cut(&mut self, page: Pid, seen: Version) -> Result<Performed, Unperformed>
        ensures { Performs (actions.Cut page seen) self.old result self.new }
    {
        let Ok(base) = self.page_to_halve(page, seen) else {
            return Err(Unperformed::StepByStep);
        };
        let number = base.len() / 2;
        let Some(middle) = middle_key(base) else {
            return Err(Unperformed::StepByStep);
        };
        let new = match self.split_at_once(page, number) {
            Ok(new) => new,
            Err(why) => return Err(why),
        };
        let receipt = Receipt::Shaped {
            kind: Kind::Split,
            page,
            other: Some(new),
        };
        Ok(self.performed(page, middle, receipt))
    }

    /// The base of the page, if the page may be split in half, or why it may not.
    fn page_to_halve(&self, page: Pid, seen: Version) -> Result<&Base<A>, Refused>
        ensures page { IfOk result (λ base.
            base.now ≡ page_for (chain_in (slot_at self.now page.0))) }
        ensures accepted { IfOk result (λ base. (separator : ℕ)
            → listed_middle_key base.now.listed ≡ Some separator
            → refusal self.now (halving self.now page.0 seen.0 separator) ≡ None) }
        ensures fine { OnOk result
            (first_reason (half_reasons self.now page.0 seen.0) ≡ None) }
        ensures refused { IfErr result (λ reason.
            first_reason (half_reasons self.now page.0 seen.0) ≡ Some reason) }
    {
        let Some(slot) = self.slot(page) else {
            return Err(Refused::Absent);
        };
        check_open(slot, seen)?;
        let Some(base) = slot.bare_page() else {
            return Err(Refused::NotBare);
        };
        let Some(separator) = middle_key(base) else {
            return Err(Refused::BadSeparator);
        };
        let child_leaving = self.is_leaving_at(slot, separator);
        may_halve(slot, self.new_slot(), child_leaving, separator)?;
        Ok(base)
    }
}

/// Why an open page can't be split at the separator, where the new page takes a slot if one is free, and
/// the child that is routed at the separator may be leaving.
fn may_halve<A: Allocator + Copy>(
    slot: &Slot<A>,
    new: Option<&Slot<A>>,
    child_leaving: bool,
    separator: Key,
) -> Result<(), Refused>
    requires in_row { is_in_row slot.now.stage ≡ true }
    requires sound { HasSoundChain slot.now }
    // Where there is no slot for the new page, any other may stand in its place.
    ensures { let new = option_copied new.entry in (other : SlotValue)
        → AnswersFirst (halving_reasons slot.now (unwrap_or new other) child_leaving (is_none new)
        separator) result }
{
    if !slot.holds(separator) {
        return Err(Refused::OutOfRange);
    }
    if slot.depth > 0 {
        return Err(Refused::NotBare);
    }
    if !slot.is_later_key(separator) || child_leaving {
        return Err(Refused::BadSeparator);
    }
    check_room(slot, new)
}

impl<A: Allocator + Copy> Slot<A> {
    /// The base page, where no record stands over it.
    pub(super) fn bare_page(&self) -> Option<&Base<A>>
        ensures page { IfSome result (λ base. base.now ≡ page_for (chain_in self.now)) }
        ensures bare { IfSome result (λ base. (records : Records)
            → self.now.chain ≡ Some records → depth records ≡ 0) }
        ensures above { IfNone result ((records : Records)
            → self.now.chain ≡ Some records → 0 < depth records) }
    {
        match self.chain() {
            Some(chain) => match &chain.node {
                Node::Bare(base) => Some(base),
                Node::Above(_, _) | Node::Merged(_, _, _) => None,
            },
            None => None,
        }
    }
}

impl<A: Allocator + Copy> Table<A> {
    /// Names an unposted page in the page of the next level whose range holds its low. Changes
    /// nothing without the spare memory, if there is no such page, or if the term is refused.
    pub(super) fn perform_term(
        &mut self,
        child: Pid,
        spare: Option<Spare<A>>,
    ) -> Result<Performed, Unperformed>
        ensures performs { Performs (actions.AddTerm child) self.old result self.new }
        ensures memory { IfErr result (λ why. LacksSpare why (is_none spare)) }
    {
        let Some(spare) = spare else {
            return Err(Unperformed::Denied(Denied::NoMemory));
        };
        let Some(view) = self.peek(child) else {
            return Err(Unperformed::StepByStep);
        };
        if view.stage != Stage::Unposted {
            return Err(Unperformed::StepByStep);
        }
        let Some(parent) = self.page_above(view) else {
            return Err(Unperformed::StepByStep);
        };
        let step = Step::TermAdd(TermAdd {
            parent: parent.pid,
            parent_seen: parent.version,
            child,
            child_seen: view.version,
            spare,
        });
        match self.install(step) {
            Ok(receipt) => Ok(self.performed(parent.pid, view.low, receipt)),
            Err(_) => Err(Unperformed::StepByStep),
        }
    }

    /// Names an unposted page in the page of the next level whose range holds its low, and
    /// consolidates that parent, with the effect of the two steps. Changes nothing and leaves it to
    /// single steps if there is no such parent or if [`Table::post_at_once`] can't do both.
    pub(super) fn perform_post(&mut self, child: Pid) -> Result<Performed, Unperformed>
        ensures { Performs (actions.Post child) self.old result self.new }
    {
        let Some(under) = self.peek(child) else {
            return Err(Unperformed::StepByStep);
        };
        if under.stage != Stage::Unposted {
            return Err(Unperformed::StepByStep);
        }
        let Some(parent) = self.page_above(under) else {
            return Err(Unperformed::StepByStep);
        };
        if let Err(why) = self.post_at_once(parent.pid, child) {
            return Err(why);
        }
        let receipt = Receipt::Shaped {
            kind: Kind::TermAdd,
            page: parent.pid,
            other: Some(child),
        };
        Ok(self.performed(parent.pid, under.low, receipt))
    }

    /// The page of the next level whose range holds the page's low; none above the root's level.
    fn page_above(&self, under: View) -> Option<View>
        ensures view { IfSome result (λ view.
            view ≡ view_of view.pid (slot_at self.now view.pid.0)) }
        ensures above { IfSome result (λ view. IsAbove self.now under.low under.level view.pid.0) }
        ensures on_top { IfNone result ((slot_at self.now self.now.root).level ≤ under.level) }
    {
        let mut place = self.root();
        if place.level <= under.level {
            return None;
        }
        let goal = under.level + 1;
        'up: loop {
            match self.visit(place, under.low, goal).go {
                Go::Right(next) | Go::Down(next) => place = next,
                Go::Here(view) => return Some(view),
                Go::Gone => unreachable!(),
            }
        }
    }
}
