//! What the program is asked for.

use crate::task::{CONFIG, Task, number};
use nifforan_forest::MAX_TREES;
use nifforan_shared::MAX_READERS;

/// The text that says which words the program takes.
pub(crate) const USAGE: &str = "\
usage: bench_tree STRUCTURE WORK WORKERS KEYS OPERATIONS
       bench_tree forest keep|give TREES WORK WORKERS KEYS OPERATIONS
       bench_tree beside WORK READERS KEYS OPERATIONS CHANGES
       bench_tree puts KEYS CHANGES
       bench_tree pending WORK KEYS
       bench_tree tallies KEYS OPERATIONS
       bench_tree pages CHAIN FANOUT, and one of the first six behind it
STRUCTURE is alone, map (one worker both), hand, giving-up (hands that keep no receipt), or reader (at most 16, and 15
beside a writer, for what only reads);
WORK is load, rising, set, delete, scan, list, the percent of gets beside puts and deletes (100, 95, 50), the same by
Zipf's distribution (zipf, zipf95, zipf50; near and near50 where keys that are drawn often lie side by side), eights
are gets of eight keys at once, where the structure has such a call, and fill or fill-rising are scans after the one
or other load;
keep and give say what becomes of a forest's receipts, of 1 to 1024 TREES;
a tree with readers is published every CHANGES changes;
CHAIN is the most records of a page (1 to 32), FANOUT the most entries (4 to 64); 2 and 64 without these words.
";

/// How the pairs are held, and by whom. Workers have threads of their own where they share them.
#[derive(Clone, Copy)]
pub(crate) enum Structure {
    /// By a tree of one worker, without a lock.
    Alone,
    /// By a map for one thread.
    Map,
    /// By a tree that workers share.
    Hand,
    /// By a tree that workers share who give their receipts up.
    GivingUp,
    /// By a forest of so many trees, whose workers give their receipts up.
    Forest(u32),
    /// By a forest of so many trees, whose workers keep their receipts.
    KeepingForest(u32),
    /// By a tree that was published, and is read by readers.
    Reader,
    /// By such a tree beside a writer, who publishes once in so many changes.
    Beside(u32),
    /// By a tree whose one worker publishes once in so many puts.
    Puts(u32),
    /// By a tree with a reader of which nothing was published.
    Pending,
}

/// Those whose answers are told, by their words.
pub(crate) const STRUCTURES: [(&'static str, Structure); 6] = [
    ("alone", Structure::Alone),
    ("map", Structure::Map),
    ("hand", Structure::Hand),
    ("giving-up", Structure::GivingUp),
    ("reader", Structure::Reader),
    ("forest", Structure::Forest(4)),
];

impl Structure {
    /// Returns the number of workers, those of the task and a writer beside them.
    pub(crate) fn workers(self, task: &Task) -> u32 {
        match self {
            Structure::Beside(_) => task.workers.saturating_add(1),
            _ => task.workers,
        }
    }

    /// Returns whether the task can be done so.
    pub(crate) fn is_for(self, task: &Task) -> bool {
        match self {
            Structure::Alone | Structure::Map | Structure::Puts(_) => task.workers == 1,
            Structure::Reader | Structure::Beside(_) | Structure::Pending => {
                task.only_reads() && self.workers(task) <= MAX_READERS
            }
            _ => true,
        }
    }
}

#[derive(Clone, Copy)]
pub(crate) enum Request {
    /// The rate of a task on a structure, under this name.
    Rate(&'static str, Structure, Task),
    /// What one worker is answered by each structure, for each kind of work in place of the task's.
    Tallies(Task),
}

impl Request {
    /// Reads a request, or returns None if the words are none.
    pub(crate) fn read(words: &[&str]) -> Option<Request> {
        let (mut config, mut words) = (CONFIG, words);
        if let ["pages", chain, fanout, rest @ ..] = words {
            config.chain = number(chain, 1, 32)?;
            config.fanout = number(fanout, 4, 64)?;
            words = rest;
        }
        if let ["tallies", keys, operations] = words {
            let task = Task::read(config, ["load", "1", keys, operations])?;
            return Some(Request::Tallies(task));
        }
        let (name, structure, asked) = timed(words)?;
        let task = Task::read(config, asked)?;
        let request = Request::Rate(name, structure, task);
        structure.is_for(&task).then_some(request)
    }
}

/// Reads what is timed: the name of its rate, the structure, and the words of the task.
fn timed<'w>(words: &[&'w str]) -> Option<(&'static str, Structure, [&'w str; 4])> {
    match *words {
        ["puts", keys, every] => {
            let puts = Structure::Puts(number(every, 1, u32::MAX)?);
            Some(("puts", puts, ["load", "1", keys, "0"]))
        }
        ["pending", work, keys] => Some(("pending", Structure::Pending, [work, "1", keys, "0"])),
        ["beside", work, readers, keys, operations, every] => {
            let beside = Structure::Beside(number(every, 1, u32::MAX)?);
            Some(("reader", beside, [work, readers, keys, operations]))
        }
        ["forest", receipts, trees, work, workers, keys, operations] => {
            let trees = number(trees, 1, MAX_TREES)?;
            let forest = match receipts {
                "keep" => Structure::KeepingForest(trees),
                "give" => Structure::Forest(trees),
                _ => return None,
            };
            Some(("forest", forest, [work, workers, keys, operations]))
        }
        [word, work, workers, keys, operations] => {
            let (name, structure) = STRUCTURES.iter().find(|(name, _)| *name == word)?;
            Some((*name, *structure, [work, workers, keys, operations]))
        }
        _ => None,
    }
}
