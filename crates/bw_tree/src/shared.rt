use crate::share::Share;
use bw_delta::Chain;
use bw_keys::{Config, Fence, Key, Pid, Version};
use bw_step::{
    Action, CopyFault, Denied, Look, Next, Performed, Place, Proposes, Receipt, Unperformed, View,
};
use std::alloc::Allocator;
use std::sync::ledger::Ledger;

/// A tree that workers share. Each call but `config` takes the tree's lock once, for one atomic step,
/// or for the few that make one look or one change. No answer borrows from the tree, so code over any
/// such tree can't keep the lock between calls.
///
/// What a tree must have is its configuration and the atomic steps. The calls that do more in one hold
/// of the lock are provided, by an answer that sends the worker to the steps: a search then goes by
/// [`visit`](Shared::visit).
///
/// `P` is the step over `A`.
pub trait Shared<A: Allocator + Copy, P: Proposes> {
    ghost use Rattle.std.specs.Prelude.{◌≡◌, ◌≤◌, ◌<◌, IfOk, IfSome};
    ghost use Rattle.bw_keys.specs.Ranges.{end_of};
    ghost use Rattle.bw_keys.specs.declared.config.Config.{Config};
    ghost use Rattle.bw_keys.specs.declared.range.Range.{Range};
    ghost use Rattle.bw_delta.specs.Sound.{IsSound};
    ghost use Rattle.bw_tree.specs.Ranges.{all_keys};
    ghost use Rattle.bw_tree.specs.Shares.{CountsIn, CountsPerformed};
    ghost use Rattle.bw_tree.specs.Trees.{ReadsTree};
    ghost use Rattle.bw_step.specs.Actions.{Reports};
    ghost use Rattle.bw_step.specs.Steps.{IsNext, IsReceiptOf};

    /// The ledger of the tree's insertions.
    type Insertions: Ledger;

    /// The ledger of the tree's removals.
    type Removals: Ledger;

    // the configuration that the tree was made by
    ghost made_by: { Self → Config };

    // the range of the keys that the tree is for: all of them, but in a forest
    ghost range: { Self → Range } = { λ tree. all_keys };

    /// Returns the configuration that the tree was made by.
    fn config(&self) -> Config
        ensures { result ≡ made_by self.now };

    /// Returns the place where every search begins.
    fn root(&self) -> Place
        ensures { result.from ≡ 0 };

    /// Returns where a search for the key, down to the goal's level, goes from a place.
    fn visit(&self, place: Place, key: Key, goal: u8) -> Next
        ensures { IsNext place key goal result.go };

    /// Returns the page with the id, if there is one.
    fn peek(&self, pid: Pid) -> Option<View>
        ensures { IfSome result (λ view. view.pid ≡ pid) };

    /// Returns what the map has at the key, if the page is a leaf in its row whose range holds the
    /// key.
    fn look(&self, pid: Pid, key: Key) -> Option<Look>;

    /// Returns the leaf whose range holds the key, unless a page on the way to it is in the middle
    /// of a split or a merge, or the tree can't find the leaf in one hold of its lock.
    fn leaf_at_once(&self, _key: Key) -> Option<View>
        ensures leaf { IfSome result (λ view. view.level ≡ 0) }
        ensures range { IfSome result (λ view. (view.low ≤ _key) × (_key < end_of view.high)) }
    {
        None
    }

    /// Returns what the map has at the key, or `None` if one hold of the tree's lock can't tell.
    fn look_at_once(&self, _key: Key) -> Option<Look> {
        None
    }

    /// Appends the pairs of the key's leaf that lie from the key on and below the high to the list, the
    /// first `limit` of them, and returns where the leaf ends. Where the tree can't do it in one hold of
    /// its lock, or the list has no room for them, it appends nothing, and returns none.
    fn read_at_once(
        &self,
        _key: Key,
        _high: Fence,
        _limit: usize,
        _list: &mut Vec<(Key, u64)>,
    ) -> Option<Fence>
        ensures { ReadsTree _key _high _limit result _list.old.items _list.new.items }
    {
        None
    }

    /// Performs the action, and counts an insertion or a removal in the share. Memory for a record is had
    /// before the lock is taken. Where the tree can't do it in one hold of its lock, nothing is done.
    fn perform(
        &self,
        _alloc: A,
        share: &mut Share<Self::Insertions, Self::Removals>,
        _action: Action,
    ) -> Result<Performed, Unperformed>
        ensures share { CountsPerformed share.old share.new result }
        ensures reports { IfOk result (Reports _action) }
    {
        Err(Unperformed::StepByStep)
    }

    /// Returns a copy of the page's chain, if the page is in a row and still has the version that
    /// was seen.
    fn copy_page(&self, alloc: A, pid: Pid, seen: Version) -> Result<Chain<A>, CopyFault>
        ensures { IfOk result IsSound };

    /// Takes the step, and counts an insertion or a removal in the share. Returns the step's
    /// receipt, or why it was denied.
    fn install(
        &self,
        share: &mut Share<Self::Insertions, Self::Removals>,
        step: P,
    ) -> Result<Receipt, Denied>
        ensures share { CountsIn share.old share.new result }
        ensures receipt { IfOk result (IsReceiptOf (P.proposal step)) };
}
