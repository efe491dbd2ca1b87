//! What the workers of a forest find in their trees, of which one is emptied.

use crate::assert_same::assert_same;
use crate::shared::Pair;
use nifforan_balance::balanced;
use nifforan_forest::{
    Bounds, ClosedForest, Config, Fault, ForestHand, ForestJob, ForestOutcome, ForestWorker,
    GivenUp, share_closed_forest, share_forest,
};
use std::alloc::Global;
use std::test::Fail;

/// Sets each worker's share of each tenth key from 10 to 400, and deletes it from 100 to 200. Asks at each bound, and
/// for the forest as a whole, and lists three pairs from 85 on, and then all from 390 on.
#[derive(Drop)]
struct Ask {
    machine: Global,
    /// The number of workers that set keys.
    workers: u64,
}

/// The first bound that is answered otherwise, both ends, the number of pairs, whether there is none, and the lists.
type Asked = (
    Option<u64>,
    Option<Pair>,
    Option<Pair>,
    u64,
    bool,
    Vec<Pair>,
);

/// A bound, the pair at or past it, and the pair at or before it.
const ROWS: [(u64, Option<Pair>, Option<Pair>); 10] = [
    (0, Some((10, 10)), None),
    (9, Some((10, 10)), None),
    (10, Some((10, 10)), Some((10, 10))),
    (11, Some((20, 20)), Some((10, 10))),
    (99, Some((210, 210)), Some((90, 90))),
    (100, Some((210, 210)), Some((90, 90))),
    (209, Some((210, 210)), Some((90, 90))),
    (300, Some((300, 300)), Some((300, 300))),
    (401, None, Some((400, 400))),
    (u64::MAX, None, Some((400, 400))),
];

impl Ask {
    fn fill<H: ForestHand>(
        &self,
        worker: u32,
        forest: &mut ForestWorker<'_, H>,
    ) -> Result<(), Fault> {
        for number in 0..51u64 {
            let tenth = if number < 40 {
                number.wrapping_add(1)
            } else {
                number.wrapping_sub(30)
            };
            if tenth.checked_rem(self.workers) == Some(worker.into()) {
                let key = tenth.wrapping_mul(10);
                if number < 40 {
                    forest.set(key, key)?;
                } else {
                    forest.delete(key)?;
                }
            }
        }
        Ok(())
    }
}

impl ForestJob for Ask {
    type Output = Result<Asked, Fault>;

    type Trail = GivenUp;

    fn work<H: ForestHand>(
        &self,
        worker: u32,
        forest: &mut ForestWorker<'_, H>,
    ) -> Result<Asked, Fault> {
        self.fill(worker, forest)?;
        let mut wrong = None;
        for (bound, next, previous) in ROWS {
            if forest.next_at(bound) != next || forest.previous_at(bound) != previous {
                wrong = wrong.or(Some(bound));
            }
        }
        let mut list = Vec::new(self.machine);
        forest.scan(85, 3, &mut list)?;
        forest.scan(390, 9, &mut list)?;
        let (first, last) = (forest.first(), forest.last());
        Ok((wrong, first, last, forest.len(), forest.is_empty(), list))
    }
}

/// Returns what the first worker was answered, as text.
fn told(
    machine: Global,
    shared: &ForestOutcome<Result<Asked, Fault>, GivenUp>,
) -> Result<String, Fail> {
    let worker = shared.workers.first().ok_or("no worker")?;
    Ok(format!(in machine; "{:?}", worker.output)?)
}

const FOUND: &str = "Ok((None, Some((10, 10)), Some((400, 400)), 29, false, \
    [(90, 90), (210, 210), (220, 220), (390, 390), (400, 400)]))";

const EMPTY: &str = "Ok((Some(0), None, None, 0, true, []))";

fn small() -> Config {
    Config {
        fanout: 4,
        chain: 2,
        ..Config::default()
    }
}

#[test]
fn a_forest_is_asked_across_its_trees(rt: HostRuntime) -> Result<(), Fail> {
    let machine = rt.alloc();
    for workers in [0, 1, 4, 64] {
        let bounds = Bounds::even(machine, 4, 400)?;
        let fill = Ask {
            machine,
            workers: workers.into(),
        };
        let filled = share_forest(rt, machine, bounds, small(), workers.max(1), &fill)?;
        let wanted = if workers == 0 { EMPTY } else { FOUND };
        let ask = Ask {
            machine,
            workers: 0,
        };
        match share_closed_forest(rt, machine, filled.forest, 1, &ask) {
            Ok(asked) => assert_same(&rt, told(machine, &asked)?.as_str(), wanted, workers),
            Err(unshared) => return Err(unshared.fault.into()),
        }
    }
    Ok(())
}

/// The workers that fill a forest, the number of trees over which it is made anew, where their ranges begin then, and
/// how many pairs each has.
const BALANCED: [(u64, u32, &str); 5] = [
    (0, 5, "[0] [0]"),
    (1, 1, "[0] [29]"),
    (1, 3, "[0, 210, 310] [9, 10, 10]"),
    (
        1,
        8,
        "[0, 40, 80, 220, 260, 300, 330, 370] [3, 4, 3, 4, 4, 3, 4, 4]",
    ),
    (
        1,
        64,
        "[0, 20, 30, 40, 50, 60, 70, 80, 90, 210, 220, 230, 240, 250, 260, 270, 280, 290, 300, 310, 320, 330, 340, \
        350, 360, 370, 380, 390, 400] \
        [1, 1, 1, 1, 1, 1, 1, 1, 1, 1, 1, 1, 1, 1, 1, 1, 1, 1, 1, 1, 1, 1, 1, 1, 1, 1, 1, 1, 1]",
    ),
];

/// Returns where the ranges begin, and how many pairs each tree has, as text.
fn shape(machine: Global, forest: &ClosedForest<Global>) -> Result<String, Fail> {
    let mut counts = Vec::new(machine);
    for tree in forest.trees() {
        let book = tree.table().book();
        counts.push(book.inserted.wrapping_sub(book.removed))?;
    }
    Ok(format!(in machine; "{:?} {:?}", forest.bounds().lows(), counts)?)
}

#[test]
fn a_forest_is_made_anew_in_balance(rt: HostRuntime) -> Result<(), Fail> {
    let machine = rt.alloc();
    for (workers, trees, wanted) in BALANCED {
        let bounds = Bounds::even(machine, 4, 4000)?;
        let fill = Ask { machine, workers };
        let config = Config {
            pages: 64,
            ..small()
        };
        let filled = share_forest(rt, machine, bounds, config, 1, &fill)?;
        let made = balanced(machine, &filled.forest, trees)?;
        assert_same(&rt, shape(machine, &made)?.as_str(), wanted, trees);
        let ask = Ask {
            machine,
            workers: 0,
        };
        let answers = if workers == 0 { EMPTY } else { FOUND };
        match share_closed_forest(rt, machine, made, 1, &ask) {
            Ok(asked) => assert_same(&rt, told(machine, &asked)?.as_str(), answers, trees),
            Err(unshared) => return Err(unshared.fault.into()),
        }
    }
    Ok(())
}
