//! Drawn calls of a worker alone, and of hands on a tree and on one with a reader, each by what may be done
//! at once and by atomic steps alone. All have the same replies, receipts, effort and leaves. So a worker
//! tends the same pages at once as by steps, and a tree with a reader takes what it is asked. Where a page
//! is consolidated after each record, a hand at once consolidates split pages, which steps don't.

use crate::assert_same::assert_same;
use crate::calls::ByHand;
use bw_keys::{Config, Fence};
use bw_table::Table;
use rand_core::{Rng, SeedableRng};
use rand_pcg::Pcg32;
use std::alloc::Global;
use std::process::Abort;
use std::sync::Wait;
use std::test::Fail;
use std::thread::Threads;
use test_kit::{LARGE, SMALL};

const CALLS: u32 = 400;

/// The keys of the calls are below it.
const KEYS: u64 = 48;

/// The lengths of a chain at which a page is consolidated, each with a number of calls between two
/// publications.
const CHAINS: [(u32, u32); 4] = [(1, 1), (2, 7), (8, 100), (32, 7)];

/// Room for all keys, a table that gets full, an effort with which tending gives up, versions that are
/// used up, and pages with so many entries that the longest chain is reached.
const CONFIGS: [Config; 5] = [
    ROOMY,
    Config { pages: 8, ..SMALL },
    Config { tries: 3, ..ROOMY },
    Config {
        first_version: u64::MAX - 12,
        ..ROOMY
    },
    Config {
        fanout: 64,
        ..ROOMY
    },
];

const ROOMY: Config = Config {
    pages: 256,
    ..LARGE
};

/// Returns calls, and questions for the effort and for what ended calls. Of 32 calls one removes a range of up to
/// eight keys, 3 get, 6 set, 10 delete and 12 put.
fn drawn_calls<R: Abort>(rt: &R, machine: Global, seed: u32) -> String {
    let mut rng = Pcg32::seed_from_u64(u64::from(seed));
    let mut calls = String::new(machine);
    for _ in 0..CALLS {
        let key = rng.next_u64() % KEYS;
        let value = rng.next_u32();
        let written = match rng.next_u32() % 32 {
            0 => writeln!(calls, "0,clr,{key},{} > ", key.wrapping_add(8)),
            1..=3 => writeln!(calls, "0,get,{key}, > "),
            4..=9 => writeln!(calls, "0,set,{key},{value} > "),
            10..=19 => writeln!(calls, "0,del,{key}, > "),
            _ => writeln!(calls, "0,put,{key},{value} > "),
        };
        written.expect(rt, "memory for a call");
    }
    calls
        .push_str("effort > \nends > ")
        .expect(rt, "memory for questions");
    calls
}

/// Returns what was told, without receipts, effort and counts.
fn replies_in<R: Abort>(rt: &R, machine: Global, told: &str) -> String {
    let mut replies = String::new(machine);
    for line in told.lines() {
        if !line.starts_with('e') {
            let (reply, _) = line.split_once(';').unwrap_or((line, ""));
            writeln!(replies, "{reply}").expect(rt, "memory for a reply");
        }
    }
    replies
}

fn new_table<R: Abort>(rt: &R, machine: Global, config: Config) -> Table<Global> {
    Table::new(machine, machine, config).expect(rt, "a table")
}

/// Makes the calls in each way, and compares them.
fn compare<R: Threads + Wait + Abort + Sync + Send + Copy>(
    rt: R,
    machine: Global,
    config: Config,
    span: u32,
) {
    let calls = drawn_calls(&rt, machine, config.chain);
    let at_once = ByHand {
        machine,
        calls: &calls,
        span,
        is_stepwise: false,
    };
    let by_steps = ByHand {
        is_stepwise: true,
        ..at_once
    };
    let alone = at_once.alone(&rt, new_table(&rt, machine, config));
    let once = at_once.on_tree(rt, new_table(&rt, machine, config));
    let stepwise = by_steps.on_tree(rt, new_table(&rt, machine, config));
    let each = [
        (stepwise, &alone, "by steps"),
        (
            by_steps.on_read_tree(rt, config),
            &alone,
            "by steps beside a reader",
        ),
        (at_once.on_read_tree(rt, config), &once, "beside a reader"),
    ];
    for (found, wanted, way) in each {
        assert_same(&rt, &found, wanted, (way, config));
    }
    if config.chain > 1 {
        assert_same(&rt, &once, &alone, ("at once", config));
    } else if config.fanout == 4 && config.tries == 1000 && config.first_version == 0 {
        let one = replies_in(&rt, machine, &once);
        let other = replies_in(&rt, machine, &alone);
        let found = (one == other, once == alone);
        assert_same(&rt, found, (true, false), "pages are cut");
    }
}

#[test]
fn what_is_done_at_once_is_what_the_steps_do(rt: HostRuntime) -> Result<(), Fail> {
    for (chain, span) in CHAINS {
        for config in CONFIGS {
            compare(rt, rt.alloc(), Config { chain, ..config }, span);
        }
    }
    Ok(())
}
