//! Publications and scans that are refused memory.

ghost use Rattle.std.specs.Prelude.{◌≡◌};
ghost use Rattle.bw_tree.specs.Trees.{OpensFor};

use crate::acts::{ACTS, act_all};
use crate::ending::{Ending, Stop, hold};
use crate::plain::{KEYS, Plain};
use crate::workers::judge;
use bw_keys::Config;
use bw_snap::{Announcements, Naming, ReadTree, Reader, ScanFault};
use bw_step::{Receipt, Step};
use bw_tree::{Blanks, Share};
use bw_work::{Act, Hand, Open, Steps};
use std::alloc::Global;
use std::marker::Brand;
use std::sync::Wait;
use std::sync::ledger::Ledger;
use test_kit::SMALL;

/// Puts of keys, each with itself as value.
macro_rules! puts {
    ($($key:literal),*) => {
        &[$(Act::Put { key: $key, value: $key }),*]
    };
}

/// Groups of puts, each of which is published. The first two have as many as there is room for in
/// the first piece of memory that what is pending takes, so that a publication requests room for
/// its mark. Behind the third each copy was published before.
const GROUPS: [&[Act]; 3] = [puts!(0, 1, 2, 3), puts!(4, 5, 6, 7), puts!(8)];

/// Chains so long that the puts of the first group are all that is pending.
const LONG_CHAINS: Config = Config {
    fanout: 4,
    chain: 8,
    pages: 64,
    tries: 100,
    first_version: 0,
};

/// Chains so short that each put is made at once.
const SHORT_CHAINS: Config = Config {
    chain: 1,
    ..LONG_CHAINS
};

/// Fails with the sentence unless the reader finds what the map has.
fn see<N: Naming>(
    reader: &mut Reader<N>,
    plain: &Plain,
    sentence: &'static str,
) -> Result<(), Stop> {
    for key in 0..KEYS as u64 {
        hold(reader.get(key)? == plain.get(key), sentence)?;
    }
    Ok(())
}

/// The put between a refused publication and the next one.
const FURTHER: [Act; 1] = [Act::Put { key: 15, value: 15 }];

/// Publishes what the map has, and the put beside it if memory was refused: until then the reader
/// sees what it saw before, and then all.
fn publish<R: Wait + Copy, N: Naming, D: Ledger, S: Steps<Global, Step<Global>>>(
    tree: &ReadTree<R, N, D>,
    steps: &mut S,
    machine: Global,
    reader: &mut Reader<N>,
    before: &Plain,
    plain: &mut Plain,
) -> Result<Ending, Stop> {
    see(reader, before, "readers see what is published")?;
    let (stamp, ending) = match tree.publish() {
        Ok(stamp) => (stamp, Ending::Whole),
        Err(_) => {
            let ending = act_all(steps, machine, &FURTHER, plain)?;
            hold(matches!(ending, Ending::Whole), "memory is refused once")?;
            see(reader, before, "a refused publication shows nothing")?;
            let Ok(stamp) = tree.publish() else {
                return Err(Stop::Broken("memory is refused once"));
            };
            (stamp, Ending::Refused)
        }
    };
    reader.learn(stamp);
    see(reader, plain, "a publication shows all")?;
    Ok(ending)
}

/// Does each group of acts, and publishes it.
fn publish_all<R: Wait + Copy, N: Naming, D: Ledger, S: Steps<Global, Step<Global>>>(
    tree: &ReadTree<R, N, D>,
    steps: &mut S,
    machine: Global,
    reader: &mut Reader<N>,
    groups: &[&[Act]],
    plain: &mut Plain,
) -> Result<Ending, Stop> {
    let mut ending = Ending::Whole;
    for acts in groups {
        let before = *plain;
        ending = ending.and(act_all(steps, machine, *acts, plain)?);
        ending = ending.and(publish(tree, steps, machine, reader, &before, plain)?);
    }
    Ok(ending)
}

/// Does the groups of acts by a worker, with a share that it takes from the list and puts back.
/// Returns its trail, too.
fn work<R: Wait + Copy, N: Naming, D: Ledger>(
    machine: Global,
    tree: &ReadTree<R, N, D>,
    shares: &mut Vec<Share<N, D>>,
    reader: &mut Reader<N>,
    groups: &[&[Act]],
    plain: &mut Plain,
) -> Result<(Ending, Vec<Receipt>), Stop> {
    let Some(share) = shares.pop() else {
        return Err(Stop::Broken("a tree has a share for its worker"));
    };
    let mut hand = Hand::new(machine, machine, tree, share, 0, &Open);
    let ending = publish_all(tree, &mut hand, machine, reader, groups, plain)?;
    let (share, trail) = hand.finish();
    // The list has had room for the share.
    shares.push(share).map_err(|_| Stop::Memory)?;
    Ok((ending, trail))
}

/// Scans all keys into a list that has a pair, which then is as it was, or has all.
fn scan<N: Naming>(machine: Global, reader: &mut Reader<N>, plain: &Plain) -> Result<Ending, Stop> {
    let mut list = Vec::new(machine);
    list.push((7, 77))?;
    match reader.scan(0, usize::MAX, &mut list) {
        Ok(()) => {
            hold(plain.has(&list), "a scan lists all pairs")?;
            Ok(Ending::Whole)
        }
        Err(ScanFault::NoMemory) => {
            hold(
                list.as_slice() == &[(7, 77)][..],
                "a refused scan leaves its list as it was",
            )?;
            let again = reader.scan(0, usize::MAX, &mut list);
            hold(again.is_ok() && plain.has(&list), "a scan lists all pairs")?;
            Ok(Ending::Refused)
        }
        Err(ScanFault::Closed) => Err(Stop::Broken("an open tree has an answer for its readers")),
    }
}

fn published_over<R: Wait + Copy, N: Naming, D: Ledger>(
    rt: R,
    machine: Global,
    config: Config,
    blanks: Blanks,
    announcements: Announcements,
    groups: &[&[Act]],
) -> Result<Ending, Stop>
    requires announcements { announcements.seen.book ≡ N.announcements }
    requires ledgers { OpensFor N.Ledger N.config D.Ledger config blanks }
{
    let Ok((tree, mut shares, mut readers)) = ReadTree::<R, N, D>::with_readers(
        rt,
        machine,
        config,
        blanks,
        announcements,
        1,
    ) else {
        return Err(Stop::Memory);
    };
    let Some(mut reader) = readers.pop() else {
        return Err(Stop::Broken("a tree has its reader"));
    };
    let mut plain = Plain::EMPTY;
    let (ending, trail) = work(machine, &tree, &mut shares, &mut reader, groups, &mut plain)?;
    let scanned = scan(machine, &mut reader, &plain)?;
    let Ok(table) = tree.close(shares) else {
        return Err(Stop::Broken("a tree is closed by all its shares"));
    };
    judge(machine, &table, trail, &plain)?;
    Ok(ending.and(scanned))
}

/// The trial of a worker that does the groups of acts on a tree with a reader, and publishes each.
fn published<R: Wait + Copy>(
    rt: R,
    machine: Global,
    config: Config,
    groups: &[&[Act]],
) -> Result<Ending, Stop> {
    published_over::<R, Brand, Brand>(
        rt,
        machine,
        config,
        Blanks::new(1),
        Announcements::new(),
        groups,
    )
}

/// The trial of a worker on a tree that has a reader.
pub(crate) fn beside_readers<R: Wait + Copy>(rt: R, machine: Global) -> Result<Ending, Stop> {
    published(rt, machine, SMALL, &[&ACTS])
}

/// The trial of puts, publications and scans.
pub(crate) fn publications<R: Wait + Copy>(rt: R, machine: Global) -> Result<Ending, Stop> {
    published(rt, machine, LONG_CHAINS, &GROUPS)
}

/// The same trial where each put is made at once, and noted by its key.
pub(crate) fn changes_at_once<R: Wait + Copy>(rt: R, machine: Global) -> Result<Ending, Stop> {
    published(rt, machine, SHORT_CHAINS, &GROUPS)
}
