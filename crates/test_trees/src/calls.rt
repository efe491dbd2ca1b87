//! Calls as text: the table that scripts leave, a worker's calls with their answers, and what is left of a table.

use crate::assert_same::assert_same;
use crate::crew::{Beside, Crew, Nobody, work_on_read_tree, work_on_tree};
use crate::stepwise::{Counter, Stepwise};
use bw_keys::{Config, Pid};
use bw_scripts::{Answer, Player};
use bw_step::{Receipt, Step, Todo};
use bw_table::Table;
use bw_texts::{Row, read_trace};
use bw_tree::{Share, Shared};
use bw_work::{Act, Alone, Calls, Hand, Pages, Steps, do_act};
use std::alloc::Global;
use std::process::Abort;
use std::sync::Wait;
use std::thread::Threads;

/// Five puts split the first leaf at 3 into page 1, which no parent has yet.
const SPLIT: &str = "table 4 4 64 100 0
insert 0 0 1 1
insert 0 1 2 2
insert 0 2 3 3
insert 0 3 4 4
consolidate 0 4 leaf 0 top - 1:1 2:2 3:3 4:4
insert 0 5 5 5
consolidate 0 6 leaf 0 top - 1:1 2:2 3:3 4:4 5:5
split 0 7 3 leaf 3 top - 3:3 4:4 5:5";

/// Behind that, the steps that seven puts take in all: pages 0, 1 and 3 under the root, which is page 2.
const THREE_LEAVES: &str = "grow 1 1 inner 0 top - 0:0 3:1
insert 1 2 6 6
insert 1 3 7 7
consolidate 1 4 leaf 3 top - 3:3 4:4 5:5 6:6 7:7
split 1 5 5 leaf 5 top - 5:5 6:6 7:7
term_add 2 1 3 1";

/// Returns the table that the scripts leave, which are played one after the other.
pub(crate) fn table_after<R: Abort>(rt: &R, machine: Global, scripts: &str) -> Table<Global> {
    let mut player = Player::new(machine);
    for script in scripts.split(", ") {
        let script = match script {
            "split" => SPLIT,
            "three leaves" => THREE_LEAVES,
            _ => script,
        };
        for line in script.lines() {
            let answer = player.play(line).expect(rt, "a line is played");
            let is_taken = matches!(answer, Some(Answer::Made | Answer::Accepted(_)));
            assert!(rt; is_taken, "{line}");
        }
    }
    player.into_table().expect(rt, "a script makes a table")
}

/// Returns the rows of a trace.
pub(crate) fn rows_of<R: Abort>(rt: &R, machine: Global, trace: &str) -> Vec<Row> {
    read_trace(machine, trace.as_bytes(), 2).expect(rt, "a trace is read")
}

/// Writes the receipts, each behind a semicolon.
pub(crate) fn tell_receipts<R: Abort>(rt: &R, receipts: &[Receipt], told: &mut String) {
    for receipt in receipts {
        write!(told, "; {}", Answer::Accepted(*receipt)).expect(rt, "memory for a receipt");
    }
}

/// Makes the call, and writes its reply, or why there is none.
pub(crate) fn tell<R: Abort, S: Steps<Global, Step<Global>>>(
    rt: &R,
    machine: Global,
    steps: &mut S,
    act: Act,
    told: &mut String,
) {
    let written = match do_act(steps, machine, act) {
        Ok(reply) => write!(told, "{reply}"),
        Err(fault) => write!(told, "no reply: {fault}"),
    };
    written.expect(rt, "memory for a reply");
}

/// Writes the leaves, the book and the pairs of a table.
pub(crate) fn tell_left<R: Abort>(
    rt: &R,
    machine: Global,
    table: &Table<Global>,
    told: &mut String,
) {
    let survey = table.survey(machine).expect(rt, "memory for leaves");
    let pairs = table.pairs(machine).expect(rt, "memory for pairs");
    let (survey, pairs) = (Answer::Survey(survey), Answer::Pairs(pairs));
    writeln!(told, "{survey}\n{pairs}").expect(rt, "memory for a text");
}

/// Makes the call that the words ask for, and writes its answer.
fn answer<R: Abort, S: Steps<Global, Step<Global>>>(
    rt: &R,
    machine: Global,
    steps: &mut S,
    line: &str,
    told: &mut String,
) {
    let (word, number) = line.split_once(' ').unwrap_or((line, "0"));
    let number = number.parse::<u32>().expect(rt, "a number");
    let written = match word {
        "effort" => write!(told, "{}", steps.effort()),
        "ends" => write!(told, "{:?}", steps.ends()),
        "slice" => {
            let slice = steps
                .page_from(machine, u64::from(number))
                .expect(rt, "a slice");
            let (pairs, next) = (Answer::Pairs(slice.pairs), slice.next);
            write!(told, "{pairs} up to {next:?}")
        }
        "tend" => write!(told, "{:?}", steps.tend(Pid(number))),
        "help" => write!(told, "{:?}", steps.help(Todo::Post(Pid(number)))),
        _ => {
            for row in rows_of(rt, machine, line) {
                tell(rt, machine, steps, row.act, told);
            }
            Ok(())
        }
    };
    written.expect(rt, "memory for an answer");
}

/// Publishes, and sees that a reader finds the pairs that the worker does.
fn see_pairs<R: Abort, S: Steps<Global, Step<Global>>, B: Beside>(
    rt: &R,
    machine: Global,
    steps: &mut S,
    beside: &mut B,
) {
    if let Some(found) = beside.pairs(rt, machine) {
        let mut own = Vec::new(machine);
        for page in Pages::of(steps, machine, 0) {
            for pair in page.expect(rt, "a slice").pairs {
                own.push(pair).expect(rt, "memory for a pair");
            }
        }
        assert_same(rt, found, own, "the reader's pairs");
    }
}

/// Makes the calls, and returns each with its answer and the receipts that it left. After each `span` of
/// them all is published.
fn answers_to<R: Abort, S: Steps<Global, Step<Global>>, B: Beside>(
    rt: &R,
    steps: &mut S,
    calls: &ByHand<'_>,
    beside: &mut B,
) -> String {
    let mut told = String::new(calls.machine);
    let mut number = 0u32;
    for line in calls.calls.lines() {
        if let Some((call, _)) = line.split_once(" > ") {
            write!(told, "{call} > ").expect(rt, "memory for a call");
            let before = steps.trail().len();
            answer(rt, calls.machine, steps, call, &mut told);
            tell_receipts(rt, steps.trail().get(before..).unwrap_or(&[]), &mut told);
            told.push('\n').expect(rt, "memory for a line");
            number = number.saturating_add(1);
            if number.checked_rem(calls.span) == Some(0) {
                see_pairs(rt, calls.machine, steps, beside);
            }
        }
    }
    told
}

/// Returns the numbers of a trail's changes, and of those that are of the tree's shape.
fn changes_on(trail: &[Receipt]) -> (u64, u64) {
    let (mut changes, mut shapes) = (0u64, 0u64);
    for receipt in trail {
        changes = changes.saturating_add(u64::from(!matches!(receipt, Receipt::Looked { .. })));
        shapes = shapes.saturating_add(u64::from(matches!(receipt, Receipt::Shaped { .. })));
    }
    (changes, shapes)
}

/// The calls that worker 1 makes, each on a line that ends with ` > ` and maybe what is foretold.
#[derive(Clone, Copy, Drop)]
pub(crate) struct ByHand<'c> {
    pub(crate) machine: Global,
    pub(crate) calls: &'c str,
    /// The number of calls between two publications.
    pub(crate) span: u32,
    /// Whether the worker takes atomic steps alone, and does nothing at once.
    pub(crate) is_stepwise: bool,
}

impl<'c> ByHand<'c> {
    /// Makes the calls on the tree, and sees that the gate was called for each change of its shape. Returns
    /// the answers, and the number of changes.
    fn by_hand<R: Abort, S: Shared<Global, Step<Global>>, B: Beside>(
        &self,
        rt: &R,
        tree: &S,
        share: Share<S::Insertions, S::Removals>,
        beside: &mut B,
    ) -> (Share<S::Insertions, S::Removals>, String, u64) {
        let gate = Counter::new();
        let mut hand = Hand::new(self.machine, self.machine, tree, share, 1, &gate);
        let told = answers_to(rt, &mut hand, self, beside);
        let (share, trail) = hand.finish();
        let (changes, shapes) = changes_on(&trail);
        assert_same(rt, gate.get(), shapes, "calls of the gate");
        (share, told, changes)
    }

    /// Returns the answers, and what is left, if the worker has the table for itself.
    pub(crate) fn alone<R: Abort>(&self, rt: &R, table: Table<Global>) -> String {
        let mut table = table;
        let mut alone = Alone::new(self.machine, self.machine, &mut table);
        let mut told = answers_to(rt, &mut alone, self, &mut Nobody);
        drop(alone.finish());
        tell_left(rt, self.machine, &table, &mut told);
        told
    }

    /// Returns the same, if the worker has a hand on a tree.
    pub(crate) fn on_tree<R: Threads + Wait + Abort + Sync + Send + Copy>(
        &self,
        rt: R,
        table: Table<Global>,
    ) -> String {
        let (table, _, mut told) = work_on_tree(rt, self.machine, table, self);
        tell_left(&rt, self.machine, &table, &mut told);
        told
    }

    /// Returns the same, if the worker has a hand on a new tree with a reader.
    pub(crate) fn on_read_tree<R: Threads + Wait + Abort + Sync + Send + Copy>(
        &self,
        rt: R,
        config: Config,
    ) -> String {
        let (table, _, mut told) = work_on_read_tree(rt, self.machine, config, self);
        tell_left(&rt, self.machine, &table, &mut told);
        told
    }
}

impl<'c> Crew<String> for ByHand<'c> {
    fn work<R: Abort, S: Shared<Global, Step<Global>>, B: Beside>(
        &self,
        rt: &R,
        tree: &S,
        worker: u32,
        share: Share<S::Insertions, S::Removals>,
        beside: &mut B,
    ) -> (Share<S::Insertions, S::Removals>, String) {
        if worker == 0 {
            return (share, String::new(self.machine));
        }
        if self.is_stepwise {
            let taken = &Counter::new();
            let (share, told, changes) = self.by_hand(rt, &Stepwise { tree, taken }, share, beside);
            assert_same(rt, taken.get(), changes, "steps that were taken");
            return (share, told);
        }
        let (share, told, _) = self.by_hand(rt, tree, share, beside);
        (share, told)
    }
}
