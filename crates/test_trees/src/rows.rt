//! Calls of a worker, alone and by hand, with the answers and the receipts that were worked out for them.
//! By hand each row is done twice: by a tree that may do more at once, and by atomic steps alone.

use crate::assert_same::assert_same;
use crate::calls::{ByHand, table_after};
use std::alloc::Global;
use std::process::Abort;
use std::sync::Wait;
use std::test::Fail;
use std::thread::Threads;

/// What a worker is asked. Each row has a title, a line with the scripts that make the table, the calls, each with its
/// reply and, behind that, the receipts that it left, and two lines with what is left of the table.
const ROWS: &str = "five puts are nine steps
table 4 4 64 100 0
0,put,1,1 > inserted; inserted 1 1 1
0,put,2,2 > inserted; inserted 2 2 2
0,put,3,3 > inserted; inserted 3 3 3
0,put,4,4 > inserted; inserted 4 4 4; shaped Consolidate 0 -
0,put,5,5 > inserted; inserted 5 5 5; shaped Consolidate 0 -; shaped Split 0 1; shaped Grow 2 1
levels 2 inserted 5 removed 0 | 0 0 3 2 Posted | 1 3 top 3 Posted
1:1 2:2 3:3 4:4 5:5

the seventh put splits the upper leaf, and a slice is one leaf from a key on
split, grow 1 1 inner 0 top - 0:0 3:1
0,put,6,6 > inserted; inserted 6 6 6
0,put,7,7 > inserted; inserted 7 7 7; shaped Consolidate 1 -; shaped Split 1 3; shaped TermAdd 2 3
slice 4 > 4:4 up to Some(5)
slice 5 > 5:5 6:6 7:7 up to None
levels 2 inserted 7 removed 0 | 0 0 3 2 Posted | 1 3 5 2 Posted | 3 5 top 3 Posted
1:1 2:2 3:3 4:4 5:5 6:6 7:7

an empty leaf is merged
split, three leaves
0,del,3, > removed 3; deleted 8 3 3
0,del,4, > removed 4; deleted 9 4 4; shaped Mark 1 -; shaped Merge 0 1; shaped TermDelete 2 1
levels 2 inserted 7 removed 2 | 0 0 5 2 Posted | 3 5 top 3 Posted
1:1 2:2 5:5 6:6 7:7

a leftmost leaf stays
split, grow 1 1 inner 0 top - 0:0 3:1
0,del,1, > removed 1; deleted 6 1 1
0,del,2, > removed 2; deleted 7 2 2
levels 2 inserted 5 removed 2 | 0 0 3 0 Posted | 1 3 top 3 Posted
3:3 4:4 5:5

the thirteenth put finds the table full
table 4 4 8 100 0
0,put,1,1 > inserted; inserted 1 1 1
0,put,2,2 > inserted; inserted 2 2 2
0,put,3,3 > inserted; inserted 3 3 3
0,put,4,4 > inserted; inserted 4 4 4; shaped Consolidate 0 -
0,put,5,5 > inserted; inserted 5 5 5; shaped Consolidate 0 -; shaped Split 0 1; shaped Grow 2 1
0,put,6,6 > inserted; inserted 6 6 6
0,put,7,7 > inserted; inserted 7 7 7; shaped Consolidate 1 -; shaped Split 1 3; shaped TermAdd 2 3
0,put,8,8 > inserted; inserted 8 8 8
0,put,9,9 > inserted; inserted 9 9 9; shaped Consolidate 3 -; shaped Split 3 4; shaped TermAdd 2 4
0,put,10,10 > inserted; inserted 10 10 10
0,put,11,11 > inserted; inserted 11 11 11; shaped Consolidate 4 -; shaped Split 4 5; \
shaped TermAdd 2 5; shaped Consolidate 2 -; shaped Split 2 6; shaped Grow 7 6
0,put,12,12 > inserted; inserted 12 12 12
0,put,13,13 > inserted (table full); inserted 13 13 13; shaped Consolidate 5 -
levels 3 inserted 13 removed 0 | 0 0 3 2 Posted | 1 3 5 2 Posted | 3 5 7 2 Posted | \
4 7 9 2 Posted | 5 9 top 5 Posted
1:1 2:2 3:3 4:4 5:5 6:6 7:7 8:8 9:9 10:10 11:11 12:12 13:13

one try is spent on a consolidation
table 4 4 64 1 0
0,put,1,1 > inserted; inserted 1 1 1
0,put,2,2 > inserted; inserted 2 2 2
0,put,3,3 > inserted; inserted 3 3 3
0,put,4,4 > inserted; inserted 4 4 4; shaped Consolidate 0 -
0,put,5,5 > inserted (contended); inserted 5 5 5; shaped Consolidate 0 -
levels 1 inserted 5 removed 0 | 0 0 top 5 Posted
1:1 2:2 3:3 4:4 5:5

only help costs effort where nothing is in the way
table 4 4 64 100 0
0,put,1,10 > inserted; inserted 1 1 10
0,put,1,11 > present 10; looked 1 1 Some(10)
0,set,1,12 > replaced 10; modified 2 1 10 12
0,del,1, > removed 12; deleted 3 1 12
effort > 0
tend 0 > Ok(())
effort > 0
help 1 > Ok(())
effort > 1
levels 1 inserted 1 removed 1 | 0 0 top 0 Posted
-

a split is passed by a get and a put below it, and finished by a put
split
0,get,4, > found 4; looked 5 4 Some(4)
0,put,1,9 > present 1; looked 5 1 Some(1)
0,put,6,6 > inserted; shaped Grow 2 1; inserted 6 6 6
levels 2 inserted 6 removed 0 | 0 0 3 2 Posted | 1 3 top 4 Posted
1:1 2:2 3:3 4:4 5:5 6:6

a merge is finished by a put
split, three leaves, mark 1 6 2
0,put,4,9 > present 4; shaped Merge 0 1; shaped TermDelete 2 1; looked 7 4 Some(4)
levels 2 inserted 7 removed 0 | 0 0 5 4 Posted | 3 5 top 3 Posted
1:1 2:2 3:3 4:4 5:5 6:6 7:7

a term that a merge left is deleted by a put
split, three leaves, mark 1 6 2, merge 0 8 1 7
0,put,4,9 > present 4; shaped TermDelete 2 1; looked 7 4 Some(4)
levels 2 inserted 7 removed 0 | 0 0 5 4 Posted | 3 5 top 3 Posted
1:1 2:2 3:3 4:4 5:5 6:6 7:7

two merges are finished by a put: the page freed last is given again, and its parent has four records by then
split, three leaves, mark 1 6 2, mark 3 2 2
0,put,6,9 > present 6; shaped Merge 0 1; shaped Merge 0 3; shaped TermDelete 2 3; \
shaped TermDelete 2 1; looked 7 6 Some(6)
0,put,8,8 > inserted; inserted 8 8 8; shaped Consolidate 0 -; shaped Split 0 1; shaped TermAdd 2 1; \
shaped Consolidate 2 -
levels 2 inserted 8 removed 0 | 0 0 5 4 Posted | 1 5 top 4 Posted
1:1 2:2 3:3 4:4 5:5 6:6 7:7 8:8

a split is finished by a set
split
0,set,1,9 > replaced 1; modified 6 1 1 9
0,set,4,9 > replaced 4; shaped Grow 2 1; modified 7 4 4 9
0,set,6,6 > inserted; inserted 8 6 6
levels 2 inserted 6 removed 0 | 0 0 3 2 Posted | 1 3 top 4 Posted
1:9 2:2 3:3 4:9 5:5 6:6

a merge is finished by a set
split, three leaves, mark 1 6 2
0,set,4,9 > replaced 4; shaped Merge 0 1; shaped TermDelete 2 1; modified 8 4 4 9; \
shaped Consolidate 0 -
levels 2 inserted 7 removed 0 | 0 0 5 4 Posted | 3 5 top 3 Posted
1:1 2:2 3:3 4:9 5:5 6:6 7:7

a delete that is refused ends the call, and what was taken out by then stays so
table 4 4 64 100 18446744073709551612
0,put,1,1 > inserted; inserted 1 1 1
0,put,2,2 > inserted; inserted 2 2 2
0,clr,0, > cleared 1 (worn); deleted 3 1 1
0,get,1, > none; looked 3 1 None
0,get,2, > found 2; looked 3 2 Some(2)
levels 1 inserted 2 removed 1 | 0 0 top 1 Posted
2:2

a split is passed where no key behind it is deleted, and finished by the first delete there
split
0,clr,6, > cleared 0
0,clr,2,3 > cleared 1; deleted 6 2 2
0,clr,0, > cleared 4; deleted 7 1 1; shaped Grow 2 1; deleted 8 3 3; deleted 9 4 4; deleted 10 5 5; \
shaped Mark 1 -; shaped Merge 0 1; shaped TermDelete 2 1
levels 2 inserted 5 removed 5 | 0 0 top 0 Posted
-

a merge is finished by the first delete in the marked page
split, three leaves, mark 1 6 2
0,clr,3,5 > cleared 2; shaped Merge 0 1; shaped TermDelete 2 1; deleted 8 3 3; \
shaped Consolidate 0 -; deleted 9 4 4
levels 2 inserted 7 removed 2 | 0 0 5 2 Posted | 3 5 top 3 Posted
1:1 2:2 5:5 6:6 7:7";

/// Has a worker make the calls of a row, alone, or by hand in both ways.
fn do_row<R: Threads + Wait + Abort + Sync + Send + Copy>(
    rt: R,
    machine: Global,
    row: &str,
    is_alone: bool,
) {
    let (title, rest) = row.split_once('\n').expect(&rt, "a title");
    let (scripts, calls) = rest.split_once('\n').expect(&rt, "scripts and calls");
    for is_stepwise in [true, false] {
        let by_hand = ByHand {
            machine,
            calls,
            span: 0,
            is_stepwise,
        };
        let table = table_after(&rt, machine, scripts);
        let told = if is_alone {
            by_hand.alone(&rt, table)
        } else {
            by_hand.on_tree(rt, table)
        };
        assert_same(&rt, told.trim_end(), calls, title);
    }
}

#[test]
fn a_worker_alone_does_the_rows(rt: HostRuntime) -> Result<(), Fail> {
    for row in ROWS.split("\n\n") {
        do_row(rt, rt.alloc(), row, true);
    }
    Ok(())
}

#[test]
fn workers_do_the_rows_by_hand(rt: HostRuntime) -> Result<(), Fail> {
    for row in ROWS.split("\n\n") {
        do_row(rt, rt.alloc(), row, false);
    }
    Ok(())
}
