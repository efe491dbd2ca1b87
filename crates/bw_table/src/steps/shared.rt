//! What several steps have in common: reasons to refuse them, and changes of one slot.

ghost use Rattle.std.specs.Prelude.{◌≡◌, ◌+◌, ◌^◌, ◌<◌, true, is_none, unwrap_or, option_copied};
ghost use Rattle.bw_step.specs.declared.view.Stage.TheVariants.{Posted};
ghost use Rattle.bw_step.specs.Stages.{is_in_row};
ghost use Rattle.bw_law.specs.Effects.{with_record, with_stage};
ghost use Rattle.bw_law.specs.Slots.{SlotValue};
ghost use Rattle.bw_law.specs.Refusals.{found_reasons, open_reasons, leaf_reasons, change_reasons, room_reasons};
ghost use Rattle.bw_table.specs.Answers.{AnswersFirst};
ghost use Rattle.bw_table.specs.SlotFacts.{MayGrowDeeper, holding};

use crate::slot::{Kept, Slot};
use bw_delta::{Base, Chain, Delta, Spare};
use bw_keys::{Key, Version};
use bw_step::{Refused, Stage};
use std::alloc::Allocator;

/// Why a page isn't open for a change: it isn't in a row, has another version, or is leaving.
#[inline(always)]
pub(super) fn check_open<A: Allocator + Copy>(slot: &Slot<A>, seen: Version) -> Result<(), Refused>
    ensures { AnswersFirst (open_reasons slot.now seen.0) result }
{
    if !slot.stage.is_in_row() {
        return Err(Refused::Absent);
    }
    if slot.version != seen.0 {
        return Err(Refused::Stale);
    }
    if slot.stage == Stage::Marked {
        return Err(Refused::Frozen);
    }
    Ok(())
}

/// Why the page isn't an open leaf whose range holds the key.
#[inline(always)]
pub(super) fn check_leaf<A: Allocator + Copy>(
    slot: &Slot<A>,
    seen: Version,
    key: Key,
) -> Result<(), Refused>
    ensures { AnswersFirst (leaf_reasons slot.now seen.0 key) result }
{
    check_open(slot, seen)?;
    if slot.level > 0 {
        return Err(Refused::WrongKind);
    }
    if !slot.holds(key) {
        return Err(Refused::OutOfRange);
    }
    Ok(())
}

/// Why there is no room for a change of the map, at the book's number.
#[inline(always)]
pub(super) fn check_change<A: Allocator + Copy>(slot: &Slot<A>, number: u64) -> Result<(), Refused>
    ensures { AnswersFirst (change_reasons slot.now number) result }
{
    if slot.is_full() {
        return Err(Refused::Deep);
    }
    if slot.is_worn() || number == u64::MAX {
        return Err(Refused::Worn);
    }
    Ok(())
}

/// Why a step that raises a page, and makes a new one in a slot if there is one, has no room.
pub(super) fn check_room<A: Allocator + Copy>(
    slot: &Slot<A>,
    new: Option<&Slot<A>>,
) -> Result<(), Refused>
    // Where there is no slot for the new page, any other may stand in its place.
    ensures { let new = option_copied new.entry in (other : SlotValue)
        → AnswersFirst (room_reasons slot.now (unwrap_or new other) (is_none new)) result }
{
    let Some(new) = new else {
        return Err(Refused::TableFull);
    };
    if slot.is_worn() || new.is_worn() {
        return Err(Refused::Worn);
    }
    Ok(())
}

/// Why a key of the leaf, which is to be there, can't be changed, at the book's number.
pub(super) fn check_found<A: Allocator + Copy>(
    slot: &Slot<A>,
    number: u64,
    seen: Version,
    key: Key,
) -> Result<(), Refused>
    ensures { AnswersFirst (found_reasons slot.now number seen.0 key) result }
{
    check_leaf(slot, seen, key)?;
    if slot.find(key).is_none() {
        return Err(Refused::NoKey);
    }
    check_change(slot, number)
}

impl<A: Allocator + Copy> Slot<A> {
    pub(super) fn low(&self) -> Key
        ensures { result ≡ self.now.low }
    {
        self.low
    }

    /// Puts a record on top of the chain, by which the page has `count` entries.
    #[inline(always)]
    pub(super) fn record(&mut self, delta: Delta, count: u64, spare: Spare<A>)
        requires deeper { MayGrowDeeper self.old }
        ensures { self.new ≡ with_record delta count self.old }
    {
        self.version += 1;
        self.count = count;
        self.depth += 1;
        self.chain.prepend(delta, spare);
    }

    /// Takes up a new page.
    pub(super) fn hold(&mut self, stage: Stage, kept: Kept, base: Base<A>)
        requires row { is_in_row stage ≡ true }
        requires version { self.old.version + 1 < 2 ^ 64 }
        ensures { self.new ≡ holding stage kept base self.old }
    {
        self.version += 1;
        self.stage = stage;
        self.low = kept.low;
        self.high = kept.high;
        self.right = kept.right;
        self.level = kept.level;
        self.count = kept.count;
        self.depth = 0;
        self.chain = Chain::bare(base);
    }

    /// Ends the time in which no parent names the page.
    pub(super) fn post(&mut self)
        requires in_row { is_in_row self.old.stage ≡ true }
        requires version { self.old.version + 1 < 2 ^ 64 }
        ensures { self.new ≡ with_stage Posted self.old }
    {
        self.version += 1;
        self.stage = Stage::Posted;
    }
}
