//! A map for one thread: how many pages it takes and gives back, that it changes its leaves in place, where a
//! fault stands, and how it is shown.

use crate::assert_same::assert_same;
use bw_keys::Pid;
use nifforan::{Config, Fault, Fence, Map, Table, usual_config};
use std::alloc::Global;
use std::process::Abort;
use std::test::Fail;

/// Why a call may not fail.
const MEMORY: &str = "there is memory";

/// Makes a map by good settings.
fn new_map<R: Abort + AllocGlobal>(rt: &R, config: Config) -> Map<Global> {
    Map::new(rt.alloc(), rt.alloc(), config).expect(rt, MEMORY)
}

/// Returns whether a leaf has a record.
fn has_record(table: &Table<Global>) -> bool {
    for page in 0..table.config().pages {
        if let Some(view) = table.peek(Pid(page)) {
            if view.level == 0 && view.depth > 0 {
                return true;
            }
        }
    }
    false
}

/// Odd keys are put, and the even ones set twice, in a mixed order.
#[test]
fn a_map_leaves_no_record_on_a_leaf(rt: HostRuntime) {
    for (fanout, chain) in [(4, 8), (64, 8), (8, 32)] {
        let config = Config {
            fanout,
            chain,
            pages: 1024,
            ..Config::default()
        };
        let mut map = new_map(&rt, config);
        for key in 0..500 {
            map.put(2 * key + 1, key).expect(&rt, MEMORY);
        }
        let free = map.free_pages();
        let mut has_records = false;
        for round in 0..1000 {
            map.set(2 * (7919 * round % 500), round).expect(&rt, MEMORY);
            has_records |= has_record(map.table());
        }
        let found = (has_records, map.free_pages() < free);
        assert_same(&rt, found, (false, true), ("fanout, chain", fanout, chain));
    }
}

// The table is full after some of the pairs. Or its only leaf has three versions left, of which the first set takes two,
// one for the change and one for the page made anew, and the second one.
#[test]
fn a_fault_of_extend_stands_in_its_replys_place(rt: HostRuntime) {
    let mut pairs = [(0u64, 0u64); 100];
    for key in 0..100u64 {
        pairs[key as usize] = (key, key);
    }
    let config = Config {
        fanout: 4,
        pages: 8,
        ..Config::default()
    };
    let mut map = new_map(&rt, config);
    let fault = map.extend(pairs).expect(&rt, MEMORY).fault;
    let left = (fault, map.len(), map.is_full());
    assert_same(
        &rt,
        left,
        (Some(Fault::TableFull), 100, true),
        "beside its reply",
    );
    let config = Config {
        first_version: u64::MAX - 3,
        ..Config::default()
    };
    let mut map = new_map(&rt, config);
    let fault = map.extend(pairs).err();
    let later = map.update(.., |_, value| value.wrapping_add(1)).err();
    let worn = Some(Fault::Worn);
    assert_same(&rt, (fault, later, map.len()), (worn, worn, 2), "worn out");
}

/// How many keys are put.
const KEYS: u32 = 5000;

/// Returns a key for each place: they rise, fall, or are mixed.
fn key_at(order: u32, place: u32) -> u64 {
    u64::from(match order {
        0 => place,
        1 => KEYS - place.min(KEYS),
        _ => place.wrapping_mul(0x9e37_79b1),
    })
}

#[test]
fn pages_taken_ahead_do_for_their_pairs(rt: HostRuntime) {
    for order in 0..3 {
        let mut map = new_map(&rt, usual_config());
        map.reserve(KEYS.into()).expect(&rt, MEMORY);
        let pages = map.pages();
        for place in 0..KEYS {
            map.put(key_at(order, place), 0).expect(&rt, MEMORY);
        }
        let left = (map.pages(), map.len());
        assert_same(&rt, left, (pages, KEYS.into()), ("order", order));
    }
}

/// For how many pairs pages are taken ahead by a map of at most a thousand pages, and how many it has then. 964 leaves
/// have 31 pages above them and one above these, and four pages are to be free.
const AHEAD: [(u64, usize); 6] = [
    (0, 8),
    (200, 16),
    (201, 16),
    (30_847, 1000),
    (30_848, 8),
    (u64::MAX, 8),
];

#[test]
fn a_map_has_the_pages_that_are_wanted(rt: HostRuntime) {
    let config = Config {
        fanout: 4,
        chain: 1,
        pages: 1000,
        ..Config::default()
    };
    for (pairs, pages) in AHEAD {
        let mut map = new_map(&rt, config);
        let full = (pages < 1000 && pairs > 201).then_some(Fault::TableFull);
        assert_same(&rt, map.reserve(pairs).err(), full, ("reserve", pairs));
        assert_same(&rt, map.pages(), pages, ("pages for", pairs));
    }
    let mut map = new_map(&rt, usual_config());
    map.reserve(1_000_000).expect(&rt, MEMORY);
    let pages = map.pages();
    assert_same(
        &rt,
        32_258 <= pages && pages < 33_000,
        true,
        ("pages", pages),
    );
    for key in 0..10_000 {
        map.put(key, 1).expect(&rt, MEMORY);
    }
    let cleared = map.clear(10, Fence::Top).removed;
    map.shrink_to_fit().expect(&rt, MEMORY);
    assert_same(&rt, (cleared, map.pages()), (9990, 8), "pages of ten pairs");
}

#[test]
fn a_map_is_made_changed_copied_and_shown(rt: HostRuntime) -> Result<(), Fail> {
    let machine = rt.alloc();
    let mut map = Map::from_pairs(machine, machine, usual_config(), [(3, 9), (1, 1)])?;
    let done = map.upsert(3, |old| old.unwrap_or(0).wrapping_add(1))?;
    map.update(.., |_, value| value.wrapping_mul(2))?;
    let removed = map.retain(|key, _| key != 1).removed;
    let copy = map.try_clone()?;
    let count = copy.iter().size_hint();
    let told = format!(in machine; "{:?} {removed} {copy:?} {count:?}", done.reply)?;
    let wanted = "Upsert { old: Some(9), new: 10 } 1 {3: 20} (1, Some(1))";
    assert_same(&rt, told.as_str(), wanted, "map");
    Ok(())
}
