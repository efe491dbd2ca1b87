//! One worker's hand on a tree that others share.

ghost use Rattle.std.specs.Prelude.{◌≡◌, [], Some, Ok, OnOk, OnErr, length, refl};
ghost use Rattle.bw_step.specs.ProposalView.{proposal_of};
ghost use Rattle.bw_procedures.specs.declared.steps.Keep.TheVariants as keeps;
ghost use Rattle.bw_procedures.specs.Seen.{Installed, Looked, ends_of};
ghost use Rattle.bw_work.specs.Hands.{Sums, sums_stay, sums_join};
ghost use Rattle.std.proofs.Common.{◌∙◌};

use crate::gate::Gate;
use bw_delta::{Chain, NoMemory};
use bw_keys::{Config, Fence, Key, Pid, Version};
use bw_procedures::{Account, Ends, Keep, Steps, Trail, is_consolidated_behind};
use bw_step::{
    Action, CopyFault, Denied, Kind, Look, Next, Performed, Place, Receipt, Step, Unperformed, View,
};
use bw_tree::{Share, Shared};
use std::alloc::{Allocator, Global};

/// A worker: a tree that it shares with others, its share of the tree's book, its gate, and its
/// account.
///
/// Its trail keeps receipts as that of [`Sole`](bw_alone::Sole) does, so a worker that lives long
/// calls [`take_trail`](Hand::take_trail) from time to time. Where nobody will ask for the
/// receipts, a worker [with a trail](Hand::with_trail) of [`GivenUp`](crate::GivenUp)
/// takes the same steps and asks for no memory for them. One of [`Packed`](crate::Packed) receipts
/// writes to a third or half of it, and unpacks them later.
///
/// The tree's `close` wants the share of each worker. A worker that returns early, as by a `?`
/// between two calls, drops its hand with the share in it. So have a function do the work with a
/// borrowed hand, and hand the share back whatever that function answers:
///
/// ```text
/// let mut hand = Hand::new(machine, alloc, &tree, share, worker, &Open);
/// let done = fill(&mut hand);
/// let (share, trail) = hand.finish();
/// (share, trail, done)
/// ```
///
/// If a share is lost all the same, the tree's `into_table` still returns the table.
#[derive(Drop)]
pub struct Hand<'t, A: Allocator + Copy, S: Shared<A, Step<A>>, G: Gate, T: Trail = Vec<Receipt>> {
    pub(crate) tree: &'t S,
    gate: &'t G,
    alloc: A,
    worker: u32,
    share: Share<S::Insertions, S::Removals>,
    account: Account<T>,
}

impl<'t, A: Allocator + Copy, S: Shared<A, Step<A>>, G: Gate> Hand<'t, A, S, G> {
    /// A worker without receipts. Its chains will lie in `alloc`, and its trail in the machine's
    /// memory.
    pub fn new(
        machine: Global,
        alloc: A,
        tree: &'t S,
        share: Share<S::Insertions, S::Removals>,
        worker: u32,
        gate: &'t G,
    ) -> Hand<'t, A, S, G>
        ensures share { result.share ≡ share }
        ensures worker { result.worker ≡ worker }
        ensures tree { result.tree.now ≡ tree.now }
        ensures config { result.account.seen.config ≡ S.made_by tree.now }
        ensures trail { result.account.seen.trail ≡ [] }
        ensures effort { result.account.seen.effort ≡ 0 }
        ensures ends { ends_of result.account.seen ≡ record { full = 0; tall = 0; worn = 0 } }
    {
        Hand::with_trail(Vec::new(machine), alloc, tree, share, worker, gate)
    }
}

impl<'t, A: Allocator + Copy, S: Shared<A, Step<A>>, G: Gate, T: Trail> Hand<'t, A, S, G, T> {
    /// Returns a worker that continues the trail, which says what becomes of its receipts. The chains
    /// that it makes lie in `alloc`.
    pub fn with_trail(
        trail: T,
        alloc: A,
        tree: &'t S,
        share: Share<S::Insertions, S::Removals>,
        worker: u32,
        gate: &'t G,
    ) -> Hand<'t, A, S, G, T>
        ensures share { result.share ≡ share }
        ensures worker { result.worker ≡ worker }
        ensures tree { result.tree.now ≡ tree.now }
        ensures config { result.account.seen.config ≡ S.made_by tree.now }
        ensures trail { result.account.seen.trail ≡ T.added trail }
        ensures effort { result.account.seen.effort ≡ 0 }
        ensures ends { ends_of result.account.seen ≡ record { full = 0; tall = 0; worn = 0 } }
    {
        Hand {
            tree,
            gate,
            alloc,
            worker,
            share,
            account: Account::with_trail(trail, tree.config()),
        }
    }

    /// Adds the receipt of a look that the worker had elsewhere to its trail. Without memory for it
    /// the worker stays as it was.
    pub fn note(&mut self, key: Key, look: Look) -> Result<(), NoMemory>
        ensures share { Sums self.old.account.seen.trail self.old.share
            self.new.account.seen.trail self.new.share }
        ensures seen { OnOk result (Looked keeps.Always key (Ok (Some look))
            self.old.account.seen self.new.account.seen) }
        ensures unseen { OnErr result (self.new.account.seen ≡ self.old.account.seen) }
    {
        self.account.reserve()?;
        self.account.looked(key, Keep::Always, Some(look));
        Ok(())
    }

    /// Returns the number of receipts on the trail, whether or not they are kept.
    #[inline(always)]
    pub fn trail_len(&self) -> usize
        ensures { result ≡ length self.now.account.seen.trail }
    {
        self.account.trail_len()
    }

    /// Returns the receipts since the last `take_trail`, in their order, and goes on with an empty
    /// trail. See [`Hand`] for when to call it.
    pub fn take_trail(&mut self) -> T
        ensures trail { T.added result ≡ self.old.account.seen.trail }
        ensures rest { self.new.account.seen ≡ record self.old.account.seen { trail = [] } }
        ensures share { self.new.share ≡ self.old.share }
        ensures worker { self.new.worker ≡ self.old.worker }
    {
        self.account.take_trail()
    }

    /// Returns the share and the receipts, in their order: all of them, or those since the last
    /// [`take_trail`](Hand::take_trail).
    pub fn finish(self) -> (Share<S::Insertions, S::Removals>, T)
        ensures share { result.0 ≡ self.entry.share }
        ensures trail { T.added result.1 ≡ self.entry.account.seen.trail }
        ensures room { T.room result.1 ≡ self.entry.account.room }
    {
        let Hand { share, account, .. } = self;
        (share, account.into_trail())
    }
}

impl<'t, A: Allocator + Copy, S: Shared<A, Step<A>>, G: Gate, T: Trail> Steps<A, Step<A>>
    for Hand<'t, A, S, G, T> {
    ghost seen = { λ h. h.account.seen };

    ghost kept = { T.kept };

    // the share is raised by the receipts that were added, and the tree is the same
    ghost follows = { λ a b. Sums a.account.seen.trail a.share b.account.seen.trail b.share
        × (a.tree.now ≡ b.tree.now) };

    ghost shows = { λ h low end pairs. Unit {0} };

    // others may take steps at any time
    ghost calm = { λ h fact. ⊥ };

    ghost stays = { λ h. (sums_stay h.account.seen.trail h.share, refl) };

    ghost joins = { λ a b c p q. (
      sums_join a.account.seen.trail b.account.seen.trail c.account.seen.trail
          a.share b.share c.share p.0 q.0,
      p.1 ∙ q.1,
    ) };

    ghost narrows = { λ h low key end pairs le shown. tt };

    #[inline(always)]
    fn config(&self) -> Config {
        self.account.config()
    }

    #[inline(always)]
    fn alloc(&self) -> A {
        self.alloc
    }

    #[inline(always)]
    fn root(&self) -> Place {
        self.tree.root()
    }

    #[inline(always)]
    fn leaf_at_once(&self, key: Key) -> Option<View> {
        self.tree.leaf_at_once(key)
    }

    #[inline(always)]
    fn look_at_once(&mut self, key: Key, keep: Keep) -> Result<Option<Look>, NoMemory> {
        self.account.reserve()?;
        let Some(look) = self.tree.look_at_once(key) else {
            return Ok(None);
        };
        self.account.looked(key, keep, Some(look));
        Ok(Some(look))
    }

    #[inline(always)]
    fn read_at_once(
        &mut self,
        key: Key,
        high: Fence,
        limit: usize,
        list: &mut Vec<(Key, u64)>,
    ) -> Result<Option<Fence>, NoMemory> {
        list.reserve(limit.min(self.account.config().fanout as usize + 1))?;
        Ok(self.tree.read_at_once(key, high, limit, list))
    }

    // Longer chains stay as they are, as a tending would leave them.
    #[inline(always)]
    fn records_at_once(&self) -> bool {
        self.account.config().chain != 1
    }

    #[inline(always)]
    fn perform(&mut self, action: Action) -> Result<Performed, Unperformed> {
        if self.account.reserve_for(action).is_err() {
            return Err(Unperformed::Denied(Denied::NoMemory));
        }
        match self.tree.perform(self.alloc, &mut self.share, action) {
            Ok(done) => {
                self.account.performed(action, done);
                pass_performed(self.gate, self.worker, action, done.receipt);
                Ok(done)
            }
            Err(why) => {
                self.account.unperformed(action, why);
                Err(why)
            }
        }
    }

    #[inline(always)]
    fn visit(&mut self, place: Place, key: Key, goal: u8) -> Next {
        let next = self.tree.visit(place, key, goal);
        self.account.visited(next.go);
        next
    }

    #[inline(always)]
    fn peek(&mut self, pid: Pid) -> Option<View> {
        self.tree.peek(pid)
    }

    #[inline(always)]
    fn look(&mut self, pid: Pid, key: Key, keep: Keep) -> Result<Option<Look>, NoMemory> {
        self.account.reserve()?;
        let look = self.tree.look(pid, key);
        self.account.looked(key, keep, look);
        Ok(look)
    }

    #[inline(always)]
    fn copy_page(&mut self, pid: Pid, version: Version) -> Result<Chain<A>, CopyFault> {
        let copy = self.tree.copy_page(self.alloc, pid, version);
        self.account.copied(&copy);
        copy
    }

    #[inline(always)]
    fn install(&mut self, step: Step<A>) -> Result<Receipt, Denied>
        ensures follows { Sums self.old.account.seen.trail self.old.share
            self.new.account.seen.trail self.new.share × (self.old.tree.now ≡ self.new.tree.now) }
        ensures seen { Installed (proposal_of step) result
            self.old.account.seen self.new.account.seen }
    {
        if self.account.reserve().is_err() {
            return Err(Denied::NoMemory);
        }
        match self.tree.install(&mut self.share, step) {
            Ok(receipt) => {
                self.account.accepted(receipt);
                pass(self.gate, self.worker, receipt);
                Ok(receipt)
            }
            Err(Denied::NoMemory) => Err(Denied::NoMemory),
            Err(Denied::Refused(reason)) => {
                self.account.refused(reason);
                Err(Denied::Refused(reason))
            }
        }
    }

    #[inline(always)]
    fn idle(&mut self) {
        self.account.idled();
    }

    #[inline(always)]
    fn effort(&self) -> u64 {
        self.account.effort()
    }

    #[inline(always)]
    fn ends(&self) -> Ends {
        self.account.ends()
    }

    #[inline(always)]
    fn trail(&self) -> &[Receipt] {
        self.account.trail()
    }
}

/// Calls the gate where the receipt is that of a change of the tree's shape.
#[inline(always)]
fn pass<G: Gate>(gate: &G, worker: u32, receipt: Receipt) {
    if let Receipt::Shaped { kind, .. } = receipt {
        gate.at(worker, kind);
    }
}

/// Calls the gate so for what was performed, and then for the consolidation of the page after it, if
/// there was one.
#[inline(always)]
fn pass_performed<G: Gate>(gate: &G, worker: u32, action: Action, receipt: Receipt) {
    pass(gate, worker, receipt);
    if is_consolidated_behind(action, receipt) {
        gate.at(worker, Kind::Consolidate);
    }
}
