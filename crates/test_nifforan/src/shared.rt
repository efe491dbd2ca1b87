//! What the workers of a shared tree are answered, call by call, and a reader beside one of them.

ghost use Rattle.std.specs.Prelude.{◌<◌};

use crate::assert_same::assert_same;
use nifforan_shared::{
    Calls, Config, Del, Fault, Fence, GivenUp, Job, Pages, Put, Queries, ReadingJob, Reads,
    Receipt, Set, Trail, Worker, share, share_with_readers,
};
use std::alloc::Global;
use std::marker::PhantomData;
use std::process::Abort;
use std::sync::Wait;
use std::test::Fail;
use std::thread::Threads;

pub(crate) type Pair = (u64, u64);

/// The first pair, the last one, how many there are, and whether there is none.
type Whole = (Option<Pair>, Option<Pair>, u64, bool);

/// Replies to changes, what a key has, how many keys were removed, the pairs next to four keys, and how many a
/// walk over pages passes.
type Answers = (
    [Put; 2],
    [Set; 2],
    [Del; 2],
    Option<u64>,
    u64,
    [Option<Pair>; 4],
    u64,
);

/// Puts a hundred keys from the first on, and then makes each kind of call, at a key that isn't there and at
/// one that is.
fn call_each<W: Worker>(hand: &mut W, first: u64) -> Result<Answers, Fault>
    requires { first < 64000 }
{
    for key in first..first + 100 {
        hand.put(key, 7 * key)?;
    }
    let put = [hand.put(first + 200, 1)?.reply, hand.put(first, 1)?.reply];
    let set = [hand.set(first + 201, 1)?.reply, hand.set(first, 1)?.reply];
    let deleted = [hand.delete(first + 1)?.reply, hand.delete(first + 1)?.reply];
    let found = hand.get(first)?;
    let machine = hand.alloc();
    let (low, high) = (first + 10, first + 20);
    let removed = hand.clear(machine, low, Fence::Key(high)).removed;
    let around = [
        hand.next_at(low),
        hand.previous_at(first + 19),
        hand.next_at(first + 100),
        hand.previous_at(first + 199),
    ];
    let passed = pass(hand, first + 5, first + 201)?;
    Ok((put, set, deleted, found, removed, around, passed))
}

/// Walks over pages, and returns the number of pairs from one key to another.
fn pass<W: Worker>(hand: &mut W, first: u64, last: u64) -> Result<u64, Fault> {
    let mut passed = 0u64;
    let machine = hand.alloc();
    for page in Pages::of(hand, machine, first) {
        for (key, _) in page?.pairs {
            if key > last {
                return Ok(passed);
            }
            passed = passed.saturating_add(1);
        }
    }
    Ok(passed)
}

fn whole_of<W: Worker>(hand: &W) -> Whole {
    (hand.first(), hand.last(), hand.len(), hand.is_empty())
}

/// What a worker brings back: its number, its answers, and the map before and after.
type Part = (u32, Result<Answers, Fault>, [Whole; 2]);

fn part_of<W: Worker>(worker: u32, hand: &mut W) -> Part
    requires { worker < 64 }
{
    let before = whole_of(hand);
    let answers = call_each(hand, 1000 * u64::from(worker));
    (worker, answers, [before, whole_of(hand)])
}

/// Makes each call, and keeps the receipts or gives them up.
#[derive(Drop)]
struct Calling<L> {
    trail: PhantomData<L>,
}

impl<L: Trail> Job for Calling<L> {
    type Output = Part;

    type Trail = L;

    fn work<W: Worker>(&self, worker: u32, hand: &mut W) -> Part {
        part_of(worker, hand)
    }
}

/// What is told of the workers, by their numbers.
const TOLD: [&str; 3] = [
    "0 Ok(([Inserted, Present(0)], [Inserted, Replaced(0)], [Removed(7), NoKey], Some(1), 10, \
    [Some((20, 140)), Some((9, 63)), Some((200, 1)), Some((99, 693))], 87))",
    "1 Ok(([Inserted, Present(7000)], [Inserted, Replaced(7000)], [Removed(7007), NoKey], Some(1), 10, \
    [Some((1020, 7140)), Some((1009, 7063)), Some((1200, 1)), Some((1099, 7693))], 87))",
    "2 Ok(([Inserted, Present(14000)], [Inserted, Replaced(14000)], [Removed(14007), NoKey], Some(1), 10, \
    [Some((2020, 14140)), Some((2009, 14063)), Some((2200, 1)), Some((2099, 14693))], 87))",
];

/// What one worker finds of the whole map before its calls, and after them.
const WHOLES: [Whole; 2] = [
    (None, None, 0, true),
    (Some((0, 1)), Some((201, 1)), 91, false),
];

/// Pages of few pairs.
fn config(chain: u32) -> Config {
    Config {
        fanout: 4,
        chain,
        ..Config::default()
    }
}

/// Has workers make the calls. Returns how many receipts there were, and how many were kept.
fn call<R: Threads + Wait + Abort + Sync + Send + Copy, L: Trail + Send + Sync>(
    rt: R,
    machine: Global,
    chain: u32,
    workers: u32,
) -> (usize, usize) {
    let job = Calling::<L> { trail: PhantomData };
    let shared = share(rt, machine, config(chain), workers, &job).expect(&rt, "workers");
    for ((worker, answers, wholes), wanted) in shared.outputs.iter().zip(TOLD) {
        let told = format!(in machine; "{worker} {answers:?}").expect(&rt, "memory for a text");
        assert_same(&rt, told.as_str(), wanted, ("chain", chain));
        assert_same(
            &rt,
            workers > 1 || *wholes == WHOLES,
            true,
            ("chain", chain),
        );
    }
    let book = shared.table.book();
    let found = (
        shared.outputs.len() as u32,
        book.inserted,
        book.removed,
        book.modified,
    );
    let each = u64::from(workers);
    assert_same(
        &rt,
        found,
        (workers, 102 * each, 11 * each, each),
        ("chain", chain),
    );
    let (mut receipts, mut kept) = (0usize, 0usize);
    for trail in shared.trails.iter() {
        receipts = receipts.saturating_add(trail.count());
        kept = kept.saturating_add(trail.receipts().len());
    }
    (receipts, kept)
}

#[test]
fn each_call_of_a_worker_is_answered(rt: HostRuntime) -> Result<(), Fail> {
    for (chain, workers) in [(1, 1), (1, 3), (2, 1), (2, 3), (8, 1), (8, 3)] {
        let (receipts, kept) = call::<HostRuntime, Vec<Receipt>>(rt, rt.alloc(), chain, workers);
        let (counted, none) = call::<HostRuntime, GivenUp>(rt, rt.alloc(), chain, workers);
        let are_counted = counted == receipts || workers > 1;
        assert_same(
            &rt,
            (kept, none, are_counted),
            (receipts, 0, true),
            ("chain", chain),
        );
    }
    Ok(())
}

/// Makes each call, and asks its reader everything before it publishes and then.
#[derive(Drop)]
struct Looking {
    machine: Global,
}

/// The pairs at both ends and those next to a key, the numbers of changes and of pairs, what a key and eight
/// keys have, and the pairs of a range and of a scan.
type Looked = (
    [Option<Pair>; 4],
    [u64; 2],
    Option<u64>,
    [Option<u64>; 8],
    Vec<Pair>,
    Vec<Pair>,
);

/// One key twice, and some that aren't there.
const KEYS: [u64; 8] = [201, 20, 19, 20, 0, 1, 9, 10];

/// Asks a reader everything.
fn asked<R: Reads>(machine: Global, reader: &mut R) -> Result<Looked, Fault> {
    let found = [
        reader.first()?,
        reader.last()?,
        reader.next_at(12)?,
        reader.previous_at(13)?,
    ];
    let numbers = [reader.number()?, reader.len()?];
    let (value, eight) = (reader.get(20)?, reader.get_eight(KEYS)?);
    let (mut range, mut scanned) = (Vec::new(machine), Vec::new(machine));
    reader.scan_range(11, Fence::Key(22), 9, &mut range)?;
    reader.scan(99, 1, &mut scanned)?;
    Ok((found, numbers, value, eight, range, scanned))
}

impl ReadingJob for Looking {
    type Output = (Part, [Result<Looked, Fault>; 2]);

    type Trail = GivenUp;

    fn work<W: Worker, R: Reads>(
        &self,
        worker: u32,
        hand: &mut W,
        reader: &mut R,
    ) -> (Part, [Result<Looked, Fault>; 2]) {
        let part = part_of(worker, hand);
        let before = asked(self.machine, reader);
        let _published = reader.publish();
        (part, [before, asked(self.machine, reader)])
    }
}

const LOOKED: &str = "[Ok(([None, None, None, None], [0, 0], None, \
    [None, None, None, None, None, None, None, None], [], [])), \
    Ok(([Some((0, 1)), Some((201, 1)), Some((20, 140)), Some((9, 63))], [114, 91], Some(140), \
    [Some(1), Some(140), None, Some(140), Some(1), None, Some(63), None], \
    [(20, 140), (21, 147)], [(99, 693)]))]";

#[test]
fn a_reader_finds_what_was_published_and_nothing_before(rt: HostRuntime) -> Result<(), Fail> {
    let machine = rt.alloc();
    for chain in [1, 2, 8] {
        let job = Looking { machine };
        let mut shared = share_with_readers(rt, machine, config(chain), 1, &job)?;
        let ((_, answers, wholes), looked) = shared.outputs.pop().ok_or("a worker")?;
        let told = format!(in machine; "0 {answers:?} {looked:?}")?;
        let wanted = format!(in machine; "{} {LOOKED}", TOLD[0])?;
        assert_same(&rt, told.as_str(), wanted.as_str(), ("chain", chain));
        assert_same(&rt, wholes, WHOLES, ("chain", chain));
    }
    Ok(())
}

/// The chain, the workers, and what is reported: a bad field of the configuration comes before a bad number of workers.
const FAULTS: [(u32, u32, &str); 3] = [
    (8, 0, "bad workers"),
    (8, 65, "bad workers"),
    (0, 0, "bad chain"),
];

#[test]
fn a_fault_of_the_numbers_has_its_text(rt: HostRuntime) -> Result<(), Fail> {
    for (chain, workers, reported) in FAULTS {
        let job = Calling::<GivenUp> { trail: PhantomData };
        let text = match share(rt, rt.alloc(), config(chain), workers, &job) {
            Err(fault) => format!(in rt.alloc(); "{fault}")?,
            Ok(_) => String::new(rt.alloc()),
        };
        assert_same(&rt, text.as_str(), reported, ("workers", workers));
    }
    Ok(())
}
