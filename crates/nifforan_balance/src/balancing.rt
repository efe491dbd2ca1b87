//! Forests made anew of their pairs, over trees that have equally many each.

ghost use Rattle.std.specs.Prelude.{◌≡◌, ◌<◌, ◌≤◌, Err, false, length, max, IsOk, IfOk, IfErr};
ghost use Rattle.bw_forest.specs.Bounds.{is_bad_number};
ghost use Rattle.bw_law.specs.Laws.{IsTheMap};
ghost use Rattle.bw_procedures.specs.declared.fault.Fault.TheVariants as faults;
ghost use Rattle.nifforan_balance.specs.Balancing.{BeginAtParts, FillATable, HaveParts, IsBalanced};
ghost use Rattle.nifforan_balance.specs.Balancing.{IsBalanceFault, IsPartTooLarge, IsPutFault, place_of};

use crate::fault::BalanceFault;
use bw_delta::NoMemory;
use bw_forest::{BadTables, Bounds, ClosedForest, MAX_TREES};
use bw_keys::{Config, Key};
use bw_procedures::Fault;
use bw_table::Table;
use nifforan::{Map, SortedFault};
use std::alloc::Global;

/// Returns a closed forest with the same pairs and configuration, and with this many trees, 1 to
/// `MAX_TREES`, or one for each pair if there are fewer pairs. Each tree has as many pairs as each
/// other, or one more, where the forest may have grown in a few of its ranges alone.
///
/// It fills one leaf after the other, which takes about 0.1 µs a pair. A list of all pairs lies in the
/// machine's memory meanwhile, as the new trees do.
pub fn balanced(
    machine: Global,
    forest: &ClosedForest<Global>,
    trees: u32,
) -> Result<ClosedForest<Global>, BalanceFault>
    ensures balanced { IfOk result (IsBalanced forest.now trees) }
    ensures fine { IsOk result → is_bad_number trees ≡ false }
    ensures fault { IfErr result (IsBalanceFault forest.now trees) }
{
    if !(1..=MAX_TREES).contains(&trees) {
        return Err(BalanceFault::BadTrees);
    }
    match rebuilt(machine, forest, trees) {
        Ok(made) => Ok(made),
        Err(fault) => Err(BalanceFault::Put(fault)),
    }
}

/// Makes the forest anew over so many trees.
fn rebuilt(
    machine: Global,
    forest: &ClosedForest<Global>,
    trees: u32,
) -> Result<ClosedForest<Global>, Fault>
    requires number { is_bad_number trees ≡ false }
    ensures balanced { IfOk result (IsBalanced forest.now trees) }
    ensures fault { IfErr result (IsPutFault forest.now trees) }
{
    let pairs = forest.pairs(machine)?;
    let trees = (trees as usize).min(pairs.len().max(1));
    let lows = lows(machine, pairs.as_slice(), trees)?;
    let tables = tables(machine, forest.config(), pairs.as_slice(), trees)?;
    let Ok(bounds) = Bounds::of(lows) else {
        unreachable!()
    };
    match ClosedForest::of(machine, bounds, tables) {
        Ok(made) => Ok(made),
        Err(unclosed) => match unclosed.fault {
            BadTables::NoMemory => Err(Fault::NoMemory),
            _ => unreachable!(),
        },
    }
}

/// Returns where the ranges of so many trees begin: 0, and the first key of each part but the first.
fn lows(machine: Global, pairs: &[(Key, u64)], trees: usize) -> Result<Vec<Key>, NoMemory>
    requires some { 0 < trees }
    requires few { trees ≤ max (length pairs.now) 1 }
    ensures { IfOk result (λ lows. BeginAtParts pairs.now trees lows.items) }
{
    let mut lows = Vec::with_capacity(machine, trees)?;
    lows.push_reserved(0);
    for tree in 1..trees {
        lows.push_reserved(pairs[place(tree, trees, pairs.len())].0);
    }
    Ok(lows)
}

/// Returns a table for each part of the pairs.
fn tables(
    machine: Global,
    config: Config,
    pairs: &[(Key, u64)],
    trees: usize,
) -> Result<Vec<Table<Global>>, Fault>
    requires some { 0 < trees }
    ensures number { IfOk result (λ tables. length tables.items ≡ trees) }
    ensures parts { IfOk result (λ tables. HaveParts config pairs.now trees tables.items) }
    ensures full { result ≡ Err faults.TableFull → IsPartTooLarge config pairs.now trees }
{
    let Ok(mut tables) = Vec::with_capacity(machine, trees) else {
        return Err(Fault::NoMemory);
    };
    for tree in 0..trees {
        let from = place(tree, trees, pairs.len());
        let part = &pairs[from..place(tree + 1, trees, pairs.len())];
        tables.push_reserved(table(machine, config, part)?);
    }
    Ok(tables)
}

/// Returns how many pairs come before the part with the number, of so many parts.
fn place(tree: usize, trees: usize, pairs: usize) -> usize
    requires some { 0 < trees }
    requires there { tree ≤ trees }
    ensures place { result ≡ place_of pairs trees tree }
    ensures within { result ≤ pairs }
{
    (tree as u128 * pairs as u128 / trees as u128) as usize
}

/// Returns a table with these pairs, and with all pages that the configuration says.
fn table(machine: Global, config: Config, pairs: &[(Key, u64)]) -> Result<Table<Global>, Fault>
    ensures config { IfOk result (λ table. table.config ≡ config) }
    ensures map { IfOk result (λ table. IsTheMap table pairs.now) }
    ensures full { result ≡ Err faults.TableFull → FillATable config pairs.now }
{
    let map = match Map::from_sorted(machine, machine, config, pairs.iter().copied()) {
        Ok(map) => map,
        Err(SortedFault::Put(fault)) => return Err(fault),
        // The configuration is that of a table, and the keys rise.
        Err(_) => return Err(Fault::NoMemory),
    };
    map.law();
    let mut table = map.into_table();
    let missing = config.pages - table.config().pages;
    table.add_pages(missing)?;
    Ok(table)
}
