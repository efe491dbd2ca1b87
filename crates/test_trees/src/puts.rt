//! Steps that two threads propose to one tree: four puts, and ten thousand drawn steps.

use crate::assert_same::assert_same;
use crate::calls::table_after;
use crate::crew::{Beside, Crew, work_on_read_tree, work_on_tree};
use crate::dice::drawn_step;
use bw_delta::Spare;
use bw_keys::{Key, Pid, Version, Wished};
use bw_step::{Action, Book, Receipt, Step};
use bw_table::Table;
use bw_tree::{Share, Shared};
use rand_core::SeedableRng;
use rand_pcg::Pcg32;
use std::alloc::Global;
use std::process::Abort;
use std::test::Fail;
use test_kit::partition_the_keys;

/// A table without pairs.
const NEW: &str = "table 4 4 64 100 0";

/// Each worker puts two keys.
#[derive(Drop)]
struct FourPuts {
    machine: Global,
}

impl FourPuts {
    /// Puts the key with itself as value on page 0, and again if the page has changed meanwhile, at most
    /// 4 times. Returns whether it was put.
    fn put<R: Abort, S: Shared<Global, Step<Global>>>(
        &self,
        rt: &R,
        tree: &S,
        share: &mut Share<S::Insertions, S::Removals>,
        key: Key,
    ) -> bool {
        for _attempt in 0..5 {
            let seen = tree.peek(Pid(0)).map_or(Version(0), |view| view.version);
            let spare = Spare::new(self.machine).expect(rt, "memory for a record");
            let step = Step::of_wish(Pid(0), seen, key, Wished::Put(key), false, spare);
            if tree.install(share, step).is_ok() {
                return true;
            }
        }
        false
    }
}

impl Crew<bool> for FourPuts {
    fn work<R: Abort, S: Shared<Global, Step<Global>>, B: Beside>(
        &self,
        rt: &R,
        tree: &S,
        worker: u32,
        share: Share<S::Insertions, S::Removals>,
        _beside: &mut B,
    ) -> (Share<S::Insertions, S::Removals>, bool) {
        let (mut share, first) = (share, if worker == 0 { 1 } else { 3 });
        let are_put = self.put(rt, tree, &mut share, first)
            && self.put(rt, tree, &mut share, first + 1);
        let (key, wished) = (first, Wished::Set(first));
        let is_set = tree
            .perform(self.machine, &mut share, Action::Record { key, wished })
            .is_ok();
        let is_found = tree.leaf_at_once(first).is_some() && tree.look_at_once(first).is_some();
        (share, are_put && is_set && is_found)
    }
}

#[test]
fn two_threads_put(rt: HostRuntime) -> Result<(), Fail> {
    let machine = rt.alloc();
    let crew = FourPuts { machine };
    for run in 0..100 {
        let table = table_after(&rt, machine, NEW);
        let config = table.config();
        are_put(&rt, machine, work_on_tree(rt, machine, table, &crew), run)?;
        are_put(
            &rt,
            machine,
            work_on_read_tree(rt, machine, config, &crew),
            run,
        )?;
    }
    Ok(())
}

/// Both workers have put their pairs, and the table has all four.
fn are_put<R: Abort>(
    rt: &R,
    machine: Global,
    (table, zero, one): (Table<Global>, bool, bool),
    run: u64,
) -> Result<(), Fail> {
    assert_same(rt, (zero, one), (true, true), ("run", run));
    let pairs = table.pairs(machine)?;
    let wanted = [(1, 1), (2, 2), (3, 3), (4, 4)];
    assert_same(rt, pairs.as_slice(), wanted.as_slice(), ("run", run));
    Ok(())
}

/// The number of steps that each thread proposes.
const STEPS: u64 = 5000;

/// A worker's 5,000 steps are refused some 3,100 times, and 4,000 times where their pages aren't looked
/// for.
const MOST_REFUSED: u64 = 3500;

/// Each worker proposes drawn steps, some of them forged. The result are the numbers of its steps, by their answers.
#[derive(Drop)]
struct Drawn {
    machine: Global,
}

/// Returns the place of an answer among the numbers: changes of each sort, those of the shape, and refusals.
fn place_of(answer: Option<Receipt>) -> usize {
    match answer {
        Some(Receipt::Inserted { .. }) => 0,
        Some(Receipt::Deleted { .. }) => 1,
        Some(Receipt::Modified { .. }) => 2,
        Some(_) => 3,
        None => 4,
    }
}

impl Crew<[u64; 5]> for Drawn {
    fn work<R: Abort, S: Shared<Global, Step<Global>>, B: Beside>(
        &self,
        rt: &R,
        tree: &S,
        worker: u32,
        share: Share<S::Insertions, S::Removals>,
        _beside: &mut B,
    ) -> (Share<S::Insertions, S::Removals>, [u64; 5]) {
        let mut rng = Pcg32::seed_from_u64(7 + u64::from(worker));
        let (mut share, mut numbers) = (share, [0u64; 5]);
        for _ in 0..STEPS {
            let step = drawn_step(rt, self.machine, &mut rng, tree);
            if let Some(number) = numbers.get_mut(place_of(tree.install(&mut share, step).ok())) {
                *number = number.saturating_add(1);
            }
        }
        (share, numbers)
    }
}

#[test]
fn drawn_steps_from_two_threads_are_counted(rt: HostRuntime) -> Result<(), Fail> {
    let machine = rt.alloc();
    let table = table_after(&rt, machine, NEW);
    let (table, zero, one) = work_on_tree(rt, machine, table, &Drawn { machine });
    for numbers in [zero, one] {
        let mut is_full = numbers[4] < MOST_REFUSED;
        for number in numbers {
            is_full = is_full && number > 0;
        }
        assert_same(&rt, is_full, true, numbers);
    }
    let (inserted, removed) = (
        zero[0].saturating_add(one[0]),
        zero[1].saturating_add(one[1]),
    );
    let book = Book {
        inserted,
        removed,
        modified: zero[2].saturating_add(one[2]),
    };
    let survey = table.survey(machine)?;
    assert_same(&rt, survey.book, book, "the book");
    let pairs = table.pairs(machine)?.len() as u64;
    assert_same(&rt, pairs, inserted.saturating_sub(removed), "pairs");
    assert_same(&rt, partition_the_keys(&survey.leaves), true, "leaves");
    Ok(())
}
