//! Chains whose contents were worked out by hand, and the room of a part that becomes a new page.

ghost use Rattle.bw_delta.specs.Sound.{IsSound};

use crate::assert_same::assert_same;
use crate::calls::table_after;
use bw_chain::{HalveFault, consolidate, count, depth, find, halve, next_at, upper_part_of};
use bw_delta::{Base, Chain, Entries};
use bw_keys::{Fence, Key, Pid, Version};
use std::alloc::Global;
use std::process::Abort;
use std::test::Fail;

/// Returns the chain of the one leaf that the script leaves, after this many steps.
fn leaf_after<R: Abort>(rt: &R, machine: Global, script: &str, steps: u64) -> Chain<Global>
    ensures { IsSound result }
{
    let table = table_after(rt, machine, script);
    table
        .copy_page(machine, Pid(0), Version(steps))
        .expect(rt, "a copy of the leaf")
}

/// Returns the first three pairs of a leaf's page.
fn pairs_of(page: &Base<Global>) -> [Option<(Key, u64)>; 3] {
    match &page.entries {
        Entries::Pairs(list) => {
            let pairs = list.as_slice();
            [pairs.get(0), pairs.get(1), pairs.get(2)]
        }
        Entries::Routes(_) => [None; 3],
    }
}

#[test]
fn the_newest_record_of_a_key_decides(rt: HostRuntime) -> Result<(), Fail> {
    let script = "table 4 4 64 100 0, insert 0 0 1 10, insert 0 1 3 30, insert 0 2 5 50, \
        consolidate 0 3 leaf 0 top - 1:10 3:30 5:50, delete 0 4 3, insert 0 5 4 40, delete 0 6 1";
    let chain = leaf_after(&rt, rt.alloc(), script, 7);
    let found = [find(&chain, 3), find(&chain, 4)];
    let next = [next_at(&chain, 0), next_at(&chain, 6)];
    assert_same(&rt, found, [None, Some(40)], "values");
    assert_same(&rt, next, [Some((4, 40)), None], "next pairs");
    assert_same(&rt, (count(&chain), depth(&chain)), (2, 3), "numbers");
    let page = consolidate(rt.alloc(), &chain)?;
    let (separator, upper) = halve(rt.alloc(), &page)?;
    let pairs = pairs_of(&page);
    assert_same(&rt, pairs, [Some((4, 40)), Some((5, 50)), None], "the page");
    let pairs = pairs_of(&upper);
    assert_same(&rt, pairs, [Some((5, 50)), None, None], "its upper half");
    let is_upper = separator == 5 && upper.low == 5 && upper.high.fence() == Fence::Top;
    let is_small = matches!(halve(rt.alloc(), &upper), Err(HalveFault::TooSmall));
    assert_same(
        &rt,
        (is_upper, is_small),
        (true, true),
        "the half, and one of one pair",
    );
    Ok(())
}

#[test]
fn a_modified_pair_counts_once(rt: HostRuntime) -> Result<(), Fail> {
    let script =
        "table 4 4 64 100 0, insert 0 0 5 50, consolidate 0 1 leaf 0 top - 5:50, modify 0 2 5 51";
    let chain = leaf_after(&rt, rt.alloc(), script, 3);
    let page = consolidate(rt.alloc(), &chain)?;
    assert_same(&rt, count(&chain), 1, "count");
    let pairs = pairs_of(&page);
    assert_same(&rt, pairs, [Some((5, 51)), None, None], "the page");
    Ok(())
}

/// The number of the first entry of a part, the room that is asked for, and the room that the part has, if
/// there is a part.
const PARTS: [(usize, usize, Option<usize>); 4] = [
    (3, 9, Some(9)),
    (1, 2, Some(4)),
    (4, 0, Some(1)),
    (5, 9, None),
];

#[test]
fn a_part_has_the_room_that_was_asked_for(rt: HostRuntime) -> Result<(), Fail> {
    let script =
        "table 16 8 64 100 0, insert 0 0 1 10, insert 0 1 2 20, insert 0 2 3 30, insert 0 3 5 50, \
        insert 0 4 6 60, consolidate 0 5 leaf 0 top - 1:10 2:20 3:30 5:50 6:60";
    let chain = leaf_after(&rt, rt.alloc(), script, 6);
    for (number, asked, wanted) in PARTS {
        let has = match upper_part_of(&chain, number, asked) {
            Some((_, page)) => match &page.entries {
                Entries::Pairs(list) => Some(list.capacity()),
                Entries::Routes(_) => None,
            },
            None => None,
        };
        assert_same(&rt, has, wanted, ("room of the part", number));
    }
    Ok(())
}
