//! A worker of a shared tree, whose share is the sum of its trail.

ghost use Rattle.std.specs.Prelude.{◌≡◌, [], refl};
ghost use Rattle.bw_tree.specs.Shares.{no_changes};
ghost use Rattle.bw_crew.specs.Workers.{share_by, MemberValue};
ghost use Rattle.bw_work.specs.Hands.{Sums};
ghost use Rattle.std.proofs.Common.{◌∙◌};

use crate::worker::Notes;
use bw_delta::{Chain, NoMemory};
use bw_keys::{Config, Fence, Key, Pid, Version};
use bw_procedures::{Ends, Keep, Steps, Trail};
use bw_step::{
    Action, CopyFault, Denied, Look, Next, Performed, Place, Receipt, Step, Unperformed, View,
};
use bw_tree::{Ordered, Share, Shared};
use bw_work::{Gate, Hand, Queries};
use std::alloc::Global;
use std::marker::Model;

/// A hand on a tree that others share. All that it makes lies in the machine's memory. Contracts
/// see it as what a worker's account is, and the range of the keys that the tree is for.
#[derive(Drop)]
pub struct Member<'t, S: Shared<Global, Step<Global>>, G: Gate, L: Trail> {
    hand: Hand<'t, Global, S, G, L>,
}

impl<'t, S: Shared<Global, Step<Global>>, G: Gate, L: Trail> Model for Member<'t, S, G, L> {
    ghost Value = { MemberValue };

    ghost view = { λ m. record {
      seen = m.hand.account.seen;
      range = S.range m.hand.tree.now;
    } };

    ghost invariant = { λ m. Sums [] no_changes m.hand.account.seen.trail m.hand.share };
}

impl<'t, S: Shared<Global, Step<Global>>, G: Gate, L: Trail> Member<'t, S, G, L> {
    /// Makes a worker that has taken no step yet, with a share of nothing.
    pub fn new(
        machine: Global,
        tree: &'t S,
        share: Share<S::Insertions, S::Removals>,
        worker: u32,
        gate: &'t G,
    ) -> Member<'t, S, G, L>
        requires { share ≡ no_changes }
        ensures trail { result.seen.trail ≡ [] }
        ensures range { result.range ≡ S.range tree.now }
    {
        Member {
            hand: Hand::with_trail(L::empty(machine), machine, tree, share, worker, gate),
        }
    }

    /// Returns the share and the trail.
    pub fn finish(self) -> (Share<S::Insertions, S::Removals>, L)
        ensures trail { L.added result.1 ≡ self.entry.seen.trail }
        ensures share { result.0 ≡ share_by (L.added result.1) }
    {
        let Member { hand, .. } = self;
        hand.finish()
    }
}

impl<'t, S: Shared<Global, Step<Global>>, G: Gate, L: Trail> Steps<Global, Step<Global>>
    for Member<'t, S, G, L> {
    ghost seen = { λ m. m.seen };

    ghost kept = { L.kept };

    // it stays on a tree for the same keys; what its share is raised by is the member's own law
    ghost follows = { λ a b. a.range ≡ b.range };

    ghost shows = { λ m low end pairs. Unit {0} };

    // others may take steps at any time
    ghost calm = { λ m fact. ⊥ };

    ghost stays = { λ m. refl };

    ghost joins = { λ a b c p q. p ∙ q };

    ghost narrows = { λ m low key end pairs le shown. tt };

    #[inline(always)]
    fn config(&self) -> Config {
        self.hand.config()
    }

    #[inline(always)]
    fn alloc(&self) -> Global {
        self.hand.alloc()
    }

    #[inline(always)]
    fn root(&self) -> Place {
        self.hand.root()
    }

    #[inline(always)]
    fn leaf_at_once(&self, key: Key) -> Option<View> {
        self.hand.leaf_at_once(key)
    }

    #[inline(always)]
    fn look_at_once(&mut self, key: Key, keep: Keep) -> Result<Option<Look>, NoMemory> {
        self.hand.look_at_once(key, keep)
    }

    #[inline(always)]
    fn read_at_once(
        &mut self,
        key: Key,
        high: Fence,
        limit: usize,
        list: &mut Vec<(Key, u64)>,
    ) -> Result<Option<Fence>, NoMemory> {
        self.hand.read_at_once(key, high, limit, list)
    }

    #[inline(always)]
    fn records_at_once(&self) -> bool {
        self.hand.records_at_once()
    }

    #[inline(always)]
    fn perform(&mut self, action: Action) -> Result<Performed, Unperformed> {
        self.hand.perform(action)
    }

    #[inline(always)]
    fn visit(&mut self, place: Place, key: Key, goal: u8) -> Next {
        self.hand.visit(place, key, goal)
    }

    #[inline(always)]
    fn peek(&mut self, pid: Pid) -> Option<View> {
        self.hand.peek(pid)
    }

    #[inline(always)]
    fn look(&mut self, pid: Pid, key: Key, keep: Keep) -> Result<Option<Look>, NoMemory> {
        self.hand.look(pid, key, keep)
    }

    #[inline(always)]
    fn copy_page(&mut self, pid: Pid, version: Version) -> Result<Chain<Global>, CopyFault> {
        self.hand.copy_page(pid, version)
    }

    #[inline(always)]
    fn install(&mut self, step: Step<Global>) -> Result<Receipt, Denied> {
        self.hand.install(step)
    }

    #[inline(always)]
    fn idle(&mut self) {
        self.hand.idle();
    }

    #[inline(always)]
    fn effort(&self) -> u64 {
        self.hand.effort()
    }

    #[inline(always)]
    fn ends(&self) -> Ends {
        self.hand.ends()
    }

    #[inline(always)]
    fn trail(&self) -> &[Receipt] {
        self.hand.trail()
    }
}

impl<'t, S: Ordered<Global, Step<Global>>, G: Gate, L: Trail> Queries for Member<'t, S, G, L> {
    fn next_at(&self, key: Key) -> Option<(Key, u64)> {
        self.hand.next_at(key)
    }

    fn previous_at(&self, key: Key) -> Option<(Key, u64)> {
        self.hand.previous_at(key)
    }

    fn len(&self) -> u64 {
        self.hand.len()
    }
}

impl<'t, S: Ordered<Global, Step<Global>>, G: Gate, L: Trail> Notes for Member<'t, S, G, L> {
    fn note(&mut self, key: Key, look: Look) -> Result<(), NoMemory> {
        self.hand.note(key, look)
    }
}
