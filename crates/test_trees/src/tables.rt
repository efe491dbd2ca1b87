//! What a table that a script leaves is asked, and a replay.

ghost use Rattle.std.specs.Prelude.{◌≡◌};

use crate::assert_same::assert_same;
use crate::calls::{table_after, tell_receipts};
use bw_audit::{Deed, Event, Verdict, audit, is_ascending, replay};
use bw_delta::Spare;
use bw_keys::{Fence, Key, Pid, Version};
use bw_step::Step;
use bw_table::{Summary, Wished};
use bw_work::{Packed, Trail};
use std::alloc::Global;
use std::test::Fail;
use test_kit::SMALL;

#[test]
fn no_leaf_is_at_rest_where_a_term_leads_to_a_page_that_was_taken_in(
    rt: HostRuntime,
) -> Result<(), Fail> {
    let scripts = "split, three leaves, mark 1 6 2, merge 0 8 1 7";
    let table = table_after(&rt, rt.alloc(), scripts);
    assert_same(&rt, table.leaf_at_rest(4), None, "the leaf of key 4");
    Ok(())
}

/// The second leaf is emptied, merged and freed.
const EMPTIED: &str =
    "split, three leaves, delete 1 6 3, delete 1 7 4, mark 1 8 2, merge 0 8 1 9, term_delete 2 2 1 10";

/// What is kept of the first leaf then.
const KEPT: Summary = Summary {
    low: 0,
    high: Fence::Key(5),
    right: Some(Pid(3)),
    level: 0,
    count: 2,
    depth: 5,
};

#[test]
fn summaries_are_kept_of_pages_alone(rt: HostRuntime) -> Result<(), Fail> {
    let table = table_after(&rt, rt.alloc(), EMPTIED);
    assert_same(&rt, table.summary(Pid(0)), Some(KEPT), "page 0");
    assert_same(&rt, table.summary(Pid(1)), None, "page 1");
    Ok(())
}

#[test]
fn what_may_be_done_at_once_is_where_there_is_memory(rt: HostRuntime) -> Result<(), Fail> {
    let scripts = "split, three leaves, consolidate 2 2 inner 0 top - 0:0 3:1 5:3";
    let mut table = table_after(&rt, rt.alloc(), scripts);
    let (parent, leaf, new) = (Pid(2), Pid(3), Pid(4));
    let is_put = table.change_leaf(leaf, 8, Wished::Put(8)).is_some();
    assert_same(&rt, is_put, true, "a put");
    assert_same(
        &rt,
        table.split_under(parent, leaf, 2),
        Ok((new, Ok(()))),
        "a split",
    );
    assert_same(&rt, table.merge_under(parent, new), Ok(leaf), "a merge");
    Ok(())
}

/// Returns the put of a key on page 0, by a worker that saw the page as it was at first.
fn put(worker: u32, key: Key, value: u64, spare: Spare<Global>) -> Event
    ensures { result.worker ≡ worker }
{
    let step = Step::of_wish(Pid(0), Version(0), key, Wished::Put(value), false, spare);
    Event {
        worker,
        act: Deed::Step(step),
    }
}

/// The second worker's put comes too late.
#[test]
fn a_replay_leaves_the_receipts_of_its_interleaving(rt: HostRuntime) -> Result<(), Fail> {
    let alloc = rt.alloc();
    let mut events = Vec::new(alloc);
    events.push(put(0, 5, 50, Spare::new(alloc)?))?;
    events.push(Event {
        worker: 1,
        act: Deed::Look(5),
    })?;
    events.push(put(1, 6, 60, Spare::new(alloc)?))?;
    let replayed = replay(alloc, SMALL, 2, events)?;
    let mut packed = Packed::empty(alloc);
    for trail in replayed.trails.iter() {
        for receipt in trail.iter() {
            packed.make_room(1)?;
            packed.add(*receipt);
        }
    }
    let mut told = String::new(alloc);
    tell_receipts(&rt, &packed.unpack(alloc)?, &mut told);
    let wanted = "; inserted 1 5 50; looked 1 5 Some(50)";
    assert_same(
        &rt,
        told.as_str(),
        wanted,
        "the trails, packed and unpacked",
    );
    let pairs = replayed.table.pairs(alloc)?;
    assert!(rt; is_ascending(&pairs), "the keys of the pairs rise");
    let verdict = audit(alloc, &replayed.trails, &pairs)?;
    assert_same(&rt, verdict, Verdict::Yes, "verdict");
    Ok(())
}
