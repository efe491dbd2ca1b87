//! The hands of a worker of a forest, and what it does with them.

ghost use Rattle.std.specs.Prelude.{◌≡◌, ◌+◌, ◌++◌, ◌≤◌, [], All, IfOk, length, map, vec_capacity};
ghost use Rattle.bw_tree.specs.Shares.{no_changes};
ghost use Rattle.bw_crew.specs.Workers.{share_by};
ghost use Rattle.bw_forest.specs.Bounds.{ranges_of};
ghost use Rattle.nifforan_forest.specs.Workers.{ArePlaced};

use crate::hand::Divides;
use crate::job::ForestJob;
use crate::worker::ForestWorker;
use bw_crew::{Member, Part, Worked};
use bw_delta::NoMemory;
use bw_forest::Bounds;
use bw_procedures::Trail;
use bw_step::Step;
use bw_tree::{Ordered, Share};
use bw_work::Open;
use std::alloc::Global;

/// The hands of a worker, one on each tree, and room for their trails.
#[derive(Drop)]
pub(crate) struct Hands<
    't,
    I: Divides,
    S: Ordered<Global, Step<Global>, Insertions = I>,
    L: Trail,
> {
    // from this a proof learns that the trees live as long as the hands
    trees: &'t [S],
    bounds: &'t Bounds,
    pub(crate) members: Vec<Member<'t, S, Open, L>>,
    room: Vec<L>,
    ghost each: { length members.items ≡ length I.bounds },
    ghost divided: { bounds.now ≡ I.bounds },
    ghost placed: { ArePlaced (λ hand. hand.range) I.bounds members.items },
    ghost empty: { room.items ≡ [] },
    ghost fits: { length I.bounds ≤ vec_capacity room },
}

impl<'t, I: Divides, S: Ordered<Global, Step<Global>, Insertions = I>, L: Trail> Hands<
    't,
    I,
    S,
    L,
> {
    /// Makes the hands of the worker with this number.
    pub(crate) fn new(
        machine: Global,
        bounds: &'t Bounds,
        trees: &'t [S],
        shares: Vec<Share<I, S::Removals>>,
        worker: u32,
    ) -> Result<Hands<'t, I, S, L>, NoMemory>
        requires divided { bounds.now ≡ I.bounds }
        requires trees { length trees.now ≡ length I.bounds }
        requires placed { map S.range trees.now ≡ ranges_of I.bounds }
        requires shares { length shares.items ≡ length trees.now }
        requires new { All (λ share. share ≡ no_changes) shares.items }
        ensures { IfOk result
            (λ it. All (λ hand. hand.seen.trail ≡ []) it.members.items) }
    {
        let mut shares = shares;
        let mut members = Vec::with_capacity(machine, trees.len())?;
        for i in 0..trees.len() {
            let Some(share) = shares.pop() else {
                unreachable!()
            };
            members.push_reserved(Member::new(machine, &trees[i], share, worker, &Open));
        }
        Ok(Hands {
            trees,
            bounds,
            members,
            room: Vec::with_capacity(machine, trees.len())?,
        })
    }

    /// Appends the shares to the others, and returns the trails. Needs no memory, so that nothing
    /// done is lost for want of it.
    pub(crate) fn finish(self, shares: &mut Vec<Share<I, S::Removals>>) -> Vec<L>
        requires { length shares.old.items + length I.bounds ≤ vec_capacity shares.old }
        ensures trails { map L.added result.items
            ≡ map (λ hand. hand.seen.trail) self.entry.members.items }
        ensures shares { shares.new.items
            ≡ shares.old.items ++ map (λ trail. share_by (L.added trail)) result.items }
        ensures capacity { vec_capacity shares.new ≡ vec_capacity shares.old }
    {
        let Hands { members, room, .. } = self;
        let mut trails = room;
        for hand in members {
            let (share, trail) = hand.finish();
            shares.push_reserved(share);
            trails.push_reserved(trail);
        }
        trails
    }
}

/// A job that workers of a forest share.
#[derive(Drop)]
pub(crate) struct InForest<'j, J> {
    pub(crate) job: &'j J,
}

impl<
    'j,
    't,
    I: Divides,
    O: Drop,
    S: Ordered<Global, Step<Global>, Insertions = I>,
    L: Trail,
    J: ForestJob<Output = O, Trail = L>,
> Part<Hands<'t, I, S, L>> for InForest<'j, J> {
    type Output = Worked<Hands<'t, I, S, L>, O>;

    ghost given = { λ part worker it. All (λ hand. hand.seen.trail ≡ []) it.members.items };

    ghost promised = { λ part worker it. J.promised part.job.now I.bounds worker it.output
        (map (λ hand. hand.seen.trail) it.hands.members.items) };

    fn run(&self, worker: u32, hands: Hands<'t, I, S, L>) -> Worked<Hands<'t, I, S, L>, O> {
        let Hands {
            trees,
            bounds,
            members,
            room,
        } = hands;
        let mut forest = ForestWorker {
            bounds,
            hands: members,
        };
        let output = self.job.work(worker, &mut forest);
        let ForestWorker { bounds, hands } = forest;
        let hands = Hands {
            trees,
            bounds,
            members: hands,
            room,
        };
        Worked { hands, output }
    }
}
