//! Two workers of one tree, each in a thread of its own. On a tree with a reader worker 1 has the reader.

ghost use Rattle.std.specs.Prelude.{◌≡◌};
ghost use Rattle.bw_tree.specs.Trees.{OpensFor};

use bw_keys::{Config, Key};
use bw_snap::{Announcements, Naming, ReadTree, Reader};
use bw_step::{Receipt, Step};
use bw_table::Table;
use bw_tree::{Blanks, MadeBy, Share, Shared, Tree};
use std::alloc::Global;
use std::marker::Brand;
use std::process::Abort;
use std::sync::Wait;
use std::sync::ledger::Ledger;
use std::thread::{Threads, join};

/// What a worker has beside its tree.
pub(crate) trait Beside {
    /// Publishes all, has the reader look for the key, if there is a reader, and adds that receipt.
    fn look<R: Abort>(&mut self, rt: &R, key: Key, looks: &mut Vec<Receipt>);

    /// Publishes all, and returns the pairs that the reader finds, if there is a reader.
    fn pairs<R: Abort>(&mut self, rt: &R, machine: Global) -> Option<Vec<(Key, u64)>>;
}

#[derive(Drop)]
pub(crate) struct Nobody;

impl Beside for Nobody {
    fn look<R: Abort>(&mut self, _rt: &R, _key: Key, _looks: &mut Vec<Receipt>) {}

    fn pairs<R: Abort>(&mut self, _rt: &R, _machine: Global) -> Option<Vec<(Key, u64)>> {
        None
    }
}

/// The tree's reader.
#[derive(Drop)]
struct Reading<'t, R: Wait + Copy, N: Naming, D: Ledger> {
    tree: &'t ReadTree<R, N, D>,
    reader: Reader<N>,
}

impl<'t, R: Wait + Copy, N: Naming, D: Ledger> Beside for Reading<'t, R, N, D> {
    fn look<X: Abort>(&mut self, rt: &X, key: Key, looks: &mut Vec<Receipt>) {
        drop(self.tree.publish().expect(rt, "a publication"));
        let look = self.reader.look(key).expect(rt, "a look");
        let (at, found) = (look.at, look.found);
        looks
            .push(Receipt::Looked { at, key, found })
            .expect(rt, "memory for a look");
    }

    fn pairs<X: Abort>(&mut self, rt: &X, machine: Global) -> Option<Vec<(Key, u64)>> {
        self.reader
            .learn(self.tree.publish().expect(rt, "a publication"));
        let mut found = Vec::new(machine);
        self.reader
            .scan(0, usize::MAX, &mut found)
            .expect(rt, "a scan");
        Some(found)
    }
}

/// What the threads do, each with its result.
pub(crate) trait Crew<T: Drop> {
    /// Does the part of a worker, 0 or 1, and gives its share back.
    fn work<R: Abort, S: Shared<Global, Step<Global>>, B: Beside>(
        &self,
        rt: &R,
        tree: &S,
        worker: u32,
        share: Share<S::Insertions, S::Removals>,
        beside: &mut B,
    ) -> (Share<S::Insertions, S::Removals>, T);
}

/// Runs both workers of a tree without readers.
fn work_both<
    I: MadeBy + Send + Sync,
    D: Ledger + Send + Sync,
    R: Threads + Wait + Abort + Sync + Send + Copy,
    T: Drop + Send,
    C: Crew<T> + Sync,
>(
    rt: R,
    tree: &Tree<R, Global, I, D>,
    (zero, one): (Share<I, D>, Share<I, D>),
    crew: &C,
) -> ((Share<I, D>, T), (Share<I, D>, T)) {
    join(
        &rt,
        move || crew.work(&rt, tree, 0, zero, &mut Nobody),
        move || crew.work(&rt, tree, 1, one, &mut Nobody),
    )
}

fn work_over<
    I: MadeBy + Send + Sync,
    D: Ledger + Send + Sync,
    R: Threads + Wait + Abort + Sync + Send + Copy,
    T: Drop + Send,
    C: Crew<T> + Sync,
>(rt: R, machine: Global, table: Table<Global>, blanks: Blanks, crew: &C) -> (Table<Global>, T, T)
    requires ledgers { OpensFor I.Ledger I.config D.Ledger table.config blanks }
{
    let Ok((tree, mut shares, opening)) = Tree::<R, Global, I, D>::from_table(
        rt, machine, table, blanks,
    ) else {
        rt.panic("there is no tree")
    };
    let one = shares.pop().expect(&rt, "a share for worker 1");
    let zero = shares.pop().expect(&rt, "a share for worker 0");
    let (zero, one) = work_both(rt, &tree, (zero, one), crew);
    shares.push(opening).expect(&rt, "memory for a share");
    shares.push(zero.0).expect(&rt, "memory for a share");
    shares.push(one.0).expect(&rt, "memory for a share");
    (tree.close(shares).expect(&rt, "all shares"), zero.1, one.1)
}

/// Runs a crew on a tree over this table. Returns the table, and the results of both.
pub(crate) fn work_on_tree<
    R: Threads + Wait + Abort + Sync + Send + Copy,
    T: Drop + Send,
    C: Crew<T> + Sync,
>(rt: R, machine: Global, table: Table<Global>, crew: &C) -> (Table<Global>, T, T) {
    work_over::<Brand, Brand, R, T, C>(rt, machine, table, Blanks::new(3), crew)
}

/// Runs both workers of a tree with a reader.
fn work_both_beside<
    N: Naming + Send + Sync,
    D: Ledger + Send + Sync,
    R: Threads + Wait + Abort + Sync + Send + Copy,
    T: Drop + Send,
    C: Crew<T> + Sync,
>(
    rt: R,
    tree: &ReadTree<R, N, D>,
    (zero, one): (Share<N, D>, Share<N, D>),
    reader: Reader<N>,
    crew: &C,
) -> ((Share<N, D>, T), (Share<N, D>, T)) {
    join(
        &rt,
        move || crew.work(&rt, tree, 0, zero, &mut Nobody),
        move || crew.work(&rt, tree, 1, one, &mut Reading { tree, reader }),
    )
}

fn work_beside<
    N: Naming + Send + Sync,
    D: Ledger + Send + Sync,
    R: Threads + Wait + Abort + Sync + Send + Copy,
    T: Drop + Send,
    C: Crew<T> + Sync,
>(
    rt: R,
    machine: Global,
    config: Config,
    blanks: Blanks,
    announcements: Announcements,
    crew: &C,
) -> (Table<Global>, T, T)
    requires announcements { announcements.seen.book ≡ N.announcements }
    requires ledgers { OpensFor N.Ledger N.config D.Ledger config blanks }
{
    let (tree, mut shares, mut readers) = ReadTree::<R, N, D>::with_readers(
        rt,
        machine,
        config,
        blanks,
        announcements,
        1,
    ).expect(&rt, "a tree with a reader");
    let one = shares.pop().expect(&rt, "a share for worker 1");
    let zero = shares.pop().expect(&rt, "a share for worker 0");
    let reader = readers.pop().expect(&rt, "a reader");
    let (zero, one) = work_both_beside(rt, &tree, (zero, one), reader, crew);
    shares.push(zero.0).expect(&rt, "memory for a share");
    shares.push(one.0).expect(&rt, "memory for a share");
    (tree.close(shares).expect(&rt, "all shares"), zero.1, one.1)
}

/// Runs a crew on a new tree with a reader. Returns the table, and the results of both.
pub(crate) fn work_on_read_tree<
    R: Threads + Wait + Abort + Sync + Send + Copy,
    T: Drop + Send,
    C: Crew<T> + Sync,
>(rt: R, machine: Global, config: Config, crew: &C) -> (Table<Global>, T, T) {
    let (blanks, announcements) = (Blanks::new(2), Announcements::new());
    work_beside::<Brand, Brand, R, T, C>(rt, machine, config, blanks, announcements, crew)
}
