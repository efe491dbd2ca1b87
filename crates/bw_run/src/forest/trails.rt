//! What the workers of a forest bring back, sorted by the trees.

ghost use Rattle.std.specs.Prelude.{◌≡◌, All, Ok, IfOk, OnOk, length, map};
ghost use Rattle.bw_step.specs.Trails.{lists_of};
ghost use Rattle.bw_run.specs.ForestRuns.{by_trees, with_last};

use crate::answers::Answers;
use crate::plan::empty_lists;
use bw_delta::NoMemory;
use bw_step::Receipt;
use nifforan_forest::Returned;
use std::alloc::Global;

/// Sorts what the workers brought back, each with a trail at each of so many trees: returns their
/// answers, by their numbers, and at each tree the trails of all workers. Also fails if one had no
/// memory for its replies.
pub(crate) fn sort_out(
    machine: Global,
    trees: usize,
    workers: Vec<Returned<Result<Answers, NoMemory>, Vec<Receipt>>>,
) -> Result<(Vec<Answers>, Vec<Vec<Vec<Receipt>>>), NoMemory>
    requires each { All (λ it. length it.trails.items ≡ trees) workers.items }
    ensures answers { IfOk result (λ sorted.
        map (λ it. it.output) workers.items ≡ map Ok sorted.0.items) }
    ensures trails { IfOk result (λ sorted. map (λ its. lists_of its.items) sorted.1.items
        ≡ by_trees trees (map (λ it. lists_of it.trails.items) workers.items)) }
{
    let mut answers = Vec::with_capacity(machine, workers.len())?;
    let mut by_tree = empty_lists(machine, trees)?;
    for worker in workers {
        let Returned { output, trails } = worker;
        answers.push(output?)?;
        add_trails(&mut by_tree, trails)?;
    }
    Ok((answers, by_tree))
}

/// Appends a worker's trail at each tree to those of the others there.
fn add_trails(
    by_tree: &mut Vec<Vec<Vec<Receipt>>>,
    trails: Vec<Vec<Receipt>>,
) -> Result<(), NoMemory>
    requires { length trails.items ≡ length by_tree.old.items }
    ensures count { length by_tree.new.items ≡ length by_tree.old.items }
    ensures added { OnOk result (map (λ its. lists_of its.items) by_tree.new.items
        ≡ with_last (lists_of trails.items) (map (λ its. lists_of its.items) by_tree.old.items)) }
{
    let mut tree = 0;
    for trail in trails {
        by_tree[tree].push(trail)?;
        tree += 1;
    }
    Ok(())
}
