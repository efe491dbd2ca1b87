//! Tables whose chains lie in a heap of their own: all memory is freed, and calls are refused only where
//! there is no room.

use crate::assert_same::assert_same;
use bw_chain::{consolidate, same};
use bw_delta::Spare;
use bw_keys::{Config, Key, Pid, Version, Wished};
use bw_step::{Refused, Step};
use bw_table::Table;
use bw_work::{Alone, Calls, Fault, Put};
use linked_list_allocator::LocalHeap;
use std::alloc::Global;
use std::process::Abort;
use std::test::Fail;
use test_kit::SMALL;

/// The most pages of a table that gets full.
const FEW: u32 = 8;

fn table_in<'a, R: Abort>(
    rt: &R,
    machine: Global,
    heap: &'a LocalHeap,
    pages: u32,
) -> Table<&'a LocalHeap> {
    Table::new(machine, heap, Config { pages, ..SMALL }).expect(rt, "a table")
}

/// Puts keys from 1 to the last, and returns the fault beside the last put.
fn put_each<R: Abort>(rt: &R, alone: &mut Alone<'_, &LocalHeap>, last: Key) -> Option<Fault> {
    let mut fault = None;
    for key in 1..=last {
        fault = alone.put(key, key).expect(rt, "a put").fault;
    }
    fault
}

/// Fills a table, and drops it.
fn drop_full<R: Abort>(rt: &R, machine: Global, heap: &LocalHeap) {
    let mut table = table_in(rt, machine, heap, FEW);
    let fault = put_each(rt, &mut Alone::new(machine, heap, &mut table), 13);
    assert_same(rt, fault, Some(Fault::TableFull), "the table is full");
}

/// Drops a table with a leaf that was taken in by another, before a copy of that one.
fn drop_merged<R: Abort>(rt: &R, machine: Global, heap: &LocalHeap) {
    let mut table = table_in(rt, machine, heap, SMALL.pages);
    let mut alone = Alone::new(machine, heap, &mut table);
    put_each(rt, &mut alone, 7);
    for key in 3..=4 {
        alone.delete(key).expect(rt, "a delete");
    }
    drop(alone.finish());
    let version = table.peek(Pid(0)).map_or(Version(0), |view| view.version);
    let copy = table.copy_page(heap, Pid(0), version).expect(rt, "a copy");
    assert_same(rt, table.peek(Pid(1)), None, "the page that was taken in");
    drop(table);
    assert_same(rt, copy.depth() > 0, true, "records of the copy");
}

/// Returns the table whose leaf has a chain of the greatest depth, and refuses one more: keys 0 to 59 are inserted, and
/// 0 to 3 deleted.
fn deepest<'a, R: Abort>(rt: &R, machine: Global, heap: &'a LocalHeap) -> Table<&'a LocalHeap> {
    let mut table = table_in(rt, machine, heap, SMALL.pages);
    for number in 0..=64u64 {
        let (key, wished) = if number < 60 {
            (number, Wished::Put(number))
        } else {
            (number.saturating_sub(60), Wished::Delete)
        };
        let spare = Spare::new(heap).expect(rt, "memory for a record");
        let step = Step::of_wish(Pid(0), Version(number), key, wished, false, spare);
        let refused = table.install(step).err();
        let wanted = if number == 64 {
            Some(Refused::Deep)
        } else {
            None
        };
        assert_same(rt, refused, wanted, number);
    }
    table
}

/// Takes all the memory that the heap still has.
fn fill<'a, R: Abort>(rt: &R, machine: Global, heap: &'a LocalHeap) -> Vec<Vec<u8, &'a LocalHeap>> {
    let mut filling = Vec::new(machine);
    for _ in 0..heap.free() {
        match Vec::with_capacity(heap, 16) {
            Ok(bytes) => filling.push(bytes).expect(rt, "memory for a filling"),
            Err(_) => return filling,
        }
    }
    filling
}

/// Drops the deepest chain before a copy, whose consolidation takes its memory at once: 60 pairs at 16 bytes each. In a
/// heap that is full the copy is compared with that page, and a second consolidation is refused.
fn drop_deepest<R: Abort>(rt: &R, machine: Global, heap: &LocalHeap) {
    let table = deepest(rt, machine, heap);
    let copy = table
        .copy_page(heap, Pid(0), Version(64))
        .expect(rt, "a copy");
    drop(table);
    assert_same(rt, copy.depth(), 64, "records of the copy");
    let used = heap.used();
    let page = consolidate(heap, &copy).expect(rt, "a page");
    let taken = heap.used().saturating_sub(used);
    assert_same(rt, (taken, page.len()), (60 * 16, 56), "the page");
    let filling = fill(rt, machine, heap);
    let used = heap.used();
    let is_same = Spare::new(heap).is_err() && same(&page, &copy);
    assert_same(rt, is_same, true, "comparison in a full heap");
    let is_refused = consolidate(heap, &copy).is_err() && heap.used() == used;
    assert_same(rt, is_refused, true, "consolidation in a full heap");
    drop(filling);
}

#[test]
fn a_dropped_table_leaves_nothing_behind(rt: HostRuntime) -> Result<(), Fail> {
    let machine = rt.alloc();
    let heap = LocalHeap::new(machine, 65536)?;
    drop_full(&rt, machine, &heap);
    assert_same(&rt, heap.used(), 0, "memory of a full table");
    drop_merged(&rt, machine, &heap);
    assert_same(&rt, heap.used(), 0, "memory of a page that was taken in");
    drop_deepest(&rt, machine, &heap);
    assert_same(&rt, heap.used(), 0, "memory of the deepest chain");
    Ok(())
}

/// More pairs than a heap of 4,096 bytes has room for.
const MOST: Key = 300;

/// Puts keys from 1 on, and returns the first for which there was no room.
fn first_refused<R: Abort>(rt: &R, alone: &mut Alone<'_, &LocalHeap>) -> Key {
    for key in 1..=MOST {
        match alone.put(key, key) {
            Ok(done) => assert_same(rt, done.reply, Put::Inserted, key),
            Err(fault) => {
                assert_same(rt, fault, Fault::NoMemory, key);
                return key;
            }
        }
    }
    rt.panic("there was room for all")
}

/// Fills the heap by puts. Each key that had room is found.
fn fill_by_puts<R: Abort>(rt: &R, machine: Global, heap: &LocalHeap) {
    let mut table = table_in(rt, machine, heap, SMALL.pages);
    let mut alone = Alone::new(machine, heap, &mut table);
    let refused = first_refused(rt, &mut alone);
    for key in 1..=refused {
        let wanted = if key < refused { Some(key) } else { None };
        assert_same(rt, alone.get(key), Ok(wanted), key);
    }
    drop(alone.finish());
    let pairs = table.pairs(machine).expect(rt, "memory for pairs").len() as u64;
    assert_same(
        rt,
        (pairs > 1, pairs.saturating_add(1)),
        (true, refused),
        "pairs",
    );
}

#[test]
fn a_full_heap_refuses_and_keeps_what_was_inserted(rt: HostRuntime) -> Result<(), Fail> {
    let heap = LocalHeap::new(rt.alloc(), 4096)?;
    fill_by_puts(&rt, rt.alloc(), &heap);
    assert_same(&rt, heap.used(), 0, "memory that is left");
    Ok(())
}
