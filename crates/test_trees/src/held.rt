//! A worker that is held in the middle of a change of shape, while another makes its calls: on a tree, and
//! on one with a reader that sees what the other published.

use crate::assert_same::assert_same;
use crate::calls::{rows_of, table_after, tell, tell_left, tell_receipts};
use crate::crew::{Beside, Crew, work_on_read_tree, work_on_tree};
use bw_audit::{audit, is_ascending};
use bw_keys::Key;
use bw_step::{Kind, Receipt, Step};
use bw_table::Table;
use bw_texts::Row;
use bw_tree::{Share, Shared};
use bw_work::{Gate, Hand};
use std::alloc::Global;
use std::process::Abort;
use std::sync::Wait;
use std::test::Fail;
use std::thread::Threads;
use test_kit::{Meeting, SMALL};

/// Of each case the first line has the kinds of step after which worker 0 is held until worker 1 has done its rows, each
/// with the number of changes by then. The second has a key, and what the reader finds of it at what worker 1 published
/// then. The rows of both follow, and lines that are told among others: first the replies to worker 0 and to worker 1.
const CASES: &str = "Consolidate 9, Split 10, TermAdd 12, Grow 10, Mark 14, Merge 14, TermDelete 14
105 Some(105)
0,put,1,1
0,put,2,2
0,put,3,3
0,put,4,4
0,put,5,5
0,put,6,6
0,put,7,7
0,del,3,
0,del,4,
1,put,101,101
1,put,102,102
1,put,103,103
1,put,104,104
1,put,105,105
> inserted inserted inserted inserted inserted inserted inserted removed 3 removed 4
> inserted inserted inserted inserted inserted
> inserted 12 removed 2
> 1:1 2:2 5:5 6:6 7:7 101:101 102:102 103:103 104:104 105:105
> audit yes

Split 6
6 Some(6)
0,put,1,1
0,put,2,2
0,put,3,3
0,put,4,4
0,put,5,5
1,put,6,6
> inserted inserted inserted inserted inserted
> inserted
> ; inserted 1 1 1; inserted 2 2 2; inserted 3 3 3; inserted 4 4 4; shaped Consolidate 0 -; inserted 5 5 5; \
shaped Consolidate 0 -; shaped Split 0 1
> ; shaped Grow 2 1; inserted 6 6 6
> levels 2 inserted 6 removed 0 | 0 0 3 2 Posted | 1 3 top 4 Posted
> 1:1 2:2 3:3 4:4 5:5 6:6
> audit yes

Consolidate 5
3 None
0,put,1,1
0,put,2,2
0,put,3,3
0,clr,0,
1,del,3,
> inserted inserted inserted cleared 2
> removed 3
> ; inserted 1 1 1; inserted 2 2 2; inserted 3 3 3; deleted 4 1 1; shaped Consolidate 0 -; deleted 6 2 2; looked 6 3 None
> ; deleted 5 3 3
> levels 1 inserted 3 removed 3 | 0 0 top 0 Posted
> -
> audit yes";

/// The replies to a worker, its receipts, and those of its reader's looks.
type Told = (String, Vec<Receipt>, Vec<Receipt>);

/// Each worker does its rows, worker 1 while worker 0 is held.
#[derive(Drop)]
struct Held {
    machine: Global,
    kind: Kind,
    rows: Vec<Row>,
    key: Key,
    meeting: Meeting,
}

impl Gate for Held {
    fn at(&self, worker: u32, kind: Kind) {
        if worker == 0 && kind == self.kind && self.meeting.arrive(0) {
            self.meeting.wait_for(1);
        }
    }
}

impl Crew<Told> for Held {
    /// Worker 1 publishes before worker 0 goes on.
    fn work<R: Abort, S: Shared<Global, Step<Global>>, B: Beside>(
        &self,
        rt: &R,
        tree: &S,
        worker: u32,
        share: Share<S::Insertions, S::Removals>,
        beside: &mut B,
    ) -> (Share<S::Insertions, S::Removals>, Told) {
        if worker == 1 {
            self.meeting.wait_for(0);
        }
        let mut hand = Hand::new(self.machine, self.machine, tree, share, worker, self);
        let mut replies = String::new(self.machine);
        for row in self.rows.iter() {
            if row.worker == worker {
                tell(rt, self.machine, &mut hand, row.act, &mut replies);
                replies.push(' ').expect(rt, "memory for a reply");
            }
        }
        let (share, trail) = hand.finish();
        let mut looks = Vec::new(self.machine);
        if worker == 1 {
            beside.look(rt, self.key, &mut looks);
            self.meeting.arrive(1);
        }
        (share, (replies, trail, looks))
    }
}

/// Returns what both were told, what is left, and the verdict of an audit.
fn told_of<R: Abort>(
    rt: &R,
    machine: Global,
    table: &Table<Global>,
    zero: Told,
    one: Told,
) -> String {
    let mut told = format!(in machine; "\n").expect(rt, "memory for a line");
    for (replies, trail, _) in [&zero, &one] {
        writeln!(told, "{}", replies.trim_end()).expect(rt, "memory for replies");
        tell_receipts(rt, trail, &mut told);
        told.push('\n').expect(rt, "memory for a line");
    }
    let book = table.book();
    let written = writeln!(told, "inserted {} removed {}", book.inserted, book.removed);
    written.expect(rt, "memory for the book");
    tell_left(rt, machine, table, &mut told);
    let pairs = table.pairs(machine).expect(rt, "memory for pairs");
    assert!(rt; is_ascending(&pairs), "the keys of the pairs rise");
    let trails = [zero.1, one.1, one.2];
    let verdict = audit(machine, &trails, &pairs).expect(rt, "memory for an audit");
    writeln!(told, "audit {verdict}").expect(rt, "memory for a verdict");
    told
}

/// What happens to worker 0, what happens then, and what is foretold.
#[derive(Clone, Copy)]
struct Case<'c> {
    kind: &'c str,
    changes: &'c str,
    look: &'c str,
    trace: &'c str,
    wanted: &'c str,
}

fn kind_of<R: Abort>(rt: &R, word: &str) -> Kind {
    match word {
        "Consolidate" => Kind::Consolidate,
        "Split" => Kind::Split,
        "TermAdd" => Kind::TermAdd,
        "Grow" => Kind::Grow,
        "Mark" => Kind::Mark,
        "Merge" => Kind::Merge,
        "TermDelete" => Kind::TermDelete,
        _ => rt.panic("there is no such kind"),
    }
}

/// Holds worker 0 on a tree, with a reader or without. Sees that all that is foretold is told.
fn hold<R: Threads + Wait + Abort + Sync + Send + Copy>(
    rt: R,
    machine: Global,
    case: Case<'_>,
    has_reader: bool,
) {
    let (key, _) = case.look.split_once(' ').expect(&rt, "a key");
    let held = Held {
        machine,
        kind: kind_of(&rt, case.kind),
        rows: rows_of(&rt, machine, case.trace),
        key: key.parse::<Key>().expect(&rt, "a key"),
        meeting: Meeting::new(),
    };
    let (table, zero, one) = if has_reader {
        work_on_read_tree(rt, machine, SMALL, &held)
    } else {
        let table = table_after(&rt, machine, "table 4 4 64 100 0");
        work_on_tree(rt, machine, table, &held)
    };
    assert_same(&rt, held.meeting.came_about(), true, case.kind);
    let mut look = String::new(machine);
    tell_receipts(&rt, &one.2, &mut look);
    if has_reader {
        let wanted = format!(in machine; "; looked {} {}", case.changes, case.look);
        assert_same(
            &rt,
            look,
            wanted.expect(&rt, "memory for a look"),
            case.kind,
        );
    }
    let told = told_of(&rt, machine, &table, zero, one);
    for line in case.wanted.split("\n> ") {
        let line = format!(in machine; "\n{line}\n").expect(&rt, "memory for a line");
        assert!(rt; told.contains(line.as_str()), "{told}, and not {line}");
    }
}

#[test]
fn a_worker_goes_on_where_another_is_held(rt: HostRuntime) -> Result<(), Fail> {
    for text in CASES.split("\n\n") {
        let (kinds, rest) = text.split_once('\n').ok_or("kinds")?;
        let (look, rest) = rest.split_once('\n').ok_or("a look")?;
        let (trace, wanted) = rest.split_once("\n> ").ok_or("what is foretold")?;
        for held in kinds.split(", ") {
            let (kind, changes) = held.split_once(' ').ok_or("a kind")?;
            let case = Case {
                kind,
                changes,
                look,
                trace,
                wanted,
            };
            hold(rt, rt.alloc(), case, false);
            hold(rt, rt.alloc(), case, true);
        }
    }
    Ok(())
}
