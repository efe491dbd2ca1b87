//! A tree with a reader, which a program keeps while threads come and go. In each round a worker puts
//! keys and publishes now and then, and the reader looks meanwhile, without the lock.

ghost use Rattle.std.specs.Prelude.{◌≡◌};
ghost use Rattle.bw_tree.specs.Trees.{OpensFor};

use anyhow::{Result, anyhow};
use bw_keys::{Config, Key};
use bw_snap::{Announcements, Naming, ReadTree, Reader};
use bw_table::Table;
use bw_tree::{Blanks, Share};
use bw_work::{Calls, Fault, Hand, Open};
use std::alloc::Global;
use std::marker::Brand;
use std::sync::Wait;
use std::sync::ledger::Ledger;
use std::thread::{Threads, join};

const ROUNDS: u64 = 3;

/// The number of keys that a round puts.
const KEYS: u64 = 1000;

/// Puts the keys of a round. Where it ends early, the share stays with the hand.
fn fill<R: Wait + Copy, N: Naming, D: Ledger>(
    tree: &ReadTree<R, N, D>,
    hand: &mut Hand<'_, Global, ReadTree<R, N, D>, Open>,
    first: Key,
) -> Result<(), Fault> {
    for number in 0..KEYS {
        hand.put(first.saturating_add(number), number)?;
        if number % 100 == 99 {
            drop(tree.publish()?);
        }
    }
    Ok(())
}

/// Runs a worker, and returns its share whatever came of the work.
fn write<R: Wait + Copy, N: Naming, D: Ledger>(
    machine: Global,
    tree: &ReadTree<R, N, D>,
    share: Share<N, D>,
    first: Key,
) -> (Share<N, D>, Result<(), Fault>) {
    let mut hand = Hand::new(machine, machine, tree, share, 0, &Open);
    let done = fill(tree, &mut hand, first);
    let (share, _trail) = hand.finish();
    (share, done)
}

/// Looks how many pairs there are, again and again, and returns whether they never got fewer.
fn watch<N: Naming>(reader: Reader<N>) -> (Reader<N>, bool) {
    let mut reader = reader;
    let (mut seen, mut rose) = (0, true);
    for _look in 0..KEYS {
        let pairs = reader.len().unwrap_or(seen);
        rose = rose && seen <= pairs;
        seen = pairs;
    }
    (reader, rose)
}

/// Runs a worker and a reader side by side.
fn write_beside<
    N: Naming + Send + Sync,
    D: Ledger + Send + Sync,
    R: Threads + Wait + Sync + Send + Copy,
>(
    rt: R,
    machine: Global,
    tree: &ReadTree<R, N, D>,
    share: Share<N, D>,
    reader: Reader<N>,
    first: Key,
) -> ((Share<N, D>, Result<(), Fault>), (Reader<N>, bool)) {
    join(
        &rt,
        move || write(machine, tree, share, first),
        move || watch(reader),
    )
}

/// Keeps a tree over all rounds, and returns what its reader found after each, and the table.
fn keep<N: Naming + Send + Sync, D: Ledger + Send + Sync, R: Threads + Wait + Sync + Send + Copy>(
    rt: R,
    machine: Global,
    config: Config,
    blanks: Blanks,
    announcements: Announcements,
) -> Result<(Vec<(u64, bool)>, Table<Global>)>
    requires ledgers { OpensFor N.Ledger N.config D.Ledger config blanks }
    requires announcements { announcements.seen.book ≡ N.announcements }
{
    let (tree, mut shares, mut readers) = ReadTree::<R, N, D>::with_readers(
        rt,
        machine,
        config,
        blanks,
        announcements,
        1,
    )?;
    let (Some(mut share), Some(mut reader)) = (shares.pop(), readers.pop()) else {
        return Err(anyhow!("there is no share or no reader"));
    };
    let mut found = Vec::new(machine);
    for round in 0..ROUNDS {
        let (written, watched) = write_beside(rt, machine, &tree, share, reader, KEYS * round);
        (share, reader) = (written.0, watched.0);
        written.1?;
        reader.learn(tree.publish()?);
        found.push((reader.len()?, watched.1))?;
    }
    shares.push(share)?;
    Ok((found, tree.close(shares)?))
}

/// Writes what the reader found after each round, and the last pair of all.
pub fn run<R: Threads + Wait + Sync + Send + Copy>(
    rt: R,
    machine: Global,
    told: &mut String,
) -> Result<()> {
    let (config, blanks, announcements) = (Config::default(), Blanks::new(1), Announcements::new());
    let (found, table) = keep::<Brand, Brand, R>(rt, machine, config, blanks, announcements)?;
    for (pairs, rose) in found.iter() {
        writeln!(told, "{pairs} pairs, never fewer than before: {rose}")?;
    }
    writeln!(told, "{:?}", table.last())?;
    Ok(())
}
