ghost use Rattle.std.specs.Prelude.{◌≡◌, ◌<◌, IfOk};
ghost use Rattle.bw_keys.specs.declared.page.TheConstants.{MAX_DEPTH};
ghost use Rattle.bw_delta.specs.Records.{bare, above, merged, merging_at, depth};

use crate::base::Base;
use crate::fault::NoMemory;
use bw_keys::{Fence, Key, MAX_DEPTH, Pid};
use std::alloc::Allocator;
use std::marker::Model;
use std::mem;

/// What one record says of the chain below it.
#[derive(Clone, Copy, Debug, PartialEq, Eq)]
pub enum Delta {
    /// The key has the value.
    Insert(Key, u64),
    /// The key, which has a value below, has this one instead.
    Modify(Key, u64),
    /// The key has no value.
    Delete(Key),
    /// The range ends before the separator, and the page goes on to the right.
    Split(Key, Pid),
    /// The page is being removed.
    Remove,
    /// A search from the separator on goes down to the page.
    TermAdd(Key, Pid),
    /// The separator leads nowhere any more.
    TermDelete(Key),
}

/// What a merge says of the two chains below it.
#[derive(Clone, Copy, Debug, PartialEq, Eq)]
pub struct Merging {
    /// The low of the page that was taken in: smaller keys belong to the left chain.
    pub separator: Key,
    /// Where the range of the joined page ends.
    pub high: Fence,
    /// The page to the right of the joined page.
    pub right: Option<Pid>,
}

/// A delta chain: records over a base page, the newest on top, at most [`MAX_DEPTH`] deep.
#[cycle(chain)]
pub struct Chain<A: Allocator> {
    pub node: Node<A>,
}

/// One link of a chain.
#[cycle(chain)]
#[derive(Drop)]
pub enum Node<A: Allocator> {
    /// The base page.
    Bare(Base<A>),
    /// A record over the chain below.
    Above(Delta, Box<Chain<A>, A>),
    /// A merge over the left chain and the chain of the page that was taken in.
    Merged(Merging, Box<Chain<A>, A>, Box<Chain<A>, A>),
}

impl<A: Allocator> Drop for Chain<A> {
    fn drop(self) {
        let Chain { node: _node } = self;
    }
}

impl<A: Allocator> Model for Chain<A> {
    ghost use Rattle.std.specs.Prelude.{◌≤◌};
    ghost use Rattle.bw_keys.specs.declared.page.TheConstants.{MAX_DEPTH};
    ghost use Rattle.bw_delta.specs.Records.{Records, depth};
    ghost use Rattle.bw_delta.specs.Codes.{records_code};

    ghost Value = { Records };

    ghost coded = { records_code };

    ghost use Rattle.bw_delta.specs.RecordsView.{records};

    ghost view = { λ c. records c.node };

    ghost invariant = { λ c. depth (records c.node) ≤ MAX_DEPTH };

    ghost size = { depth };

    ghost use Rattle.std.proofs.Common.{arith};

    ghost size_decreases = { λ c h. Prim.grind arith };
}

impl<A: Allocator + Copy> Chain<A> {
    /// Makes the chain of a base alone. It takes no memory.
    pub fn bare(base: Base<A>) -> Chain<A>
        ensures { result ≡ bare base }
    {
        Chain {
            node: Node::Bare(base),
        }
    }

    /// Returns the number of records above a base, along the deepest path: 0 for a base, and at most
    /// [`MAX_DEPTH`].
    pub fn depth(&self) -> u8
        ensures { result ≡ depth self.now }
    {
        match &self.node {
            Node::Bare(_) => 0,
            Node::Above(_, below) => below.depth() + 1,
            Node::Merged(_, left, right) => {
                let left = left.depth();
                let right = right.depth();
                left.max(right) + 1
            }
        }
    }

    /// Puts one record on top, by a swap into the prepared box. It takes no memory.
    pub fn prepend(&mut self, delta: Delta, spare: Spare<A>)
        requires { depth self.old < MAX_DEPTH }
        ensures { self.new ≡ above delta self.old }
    {
        let Spare { mut below } = spare;
        mem::swap(self, &mut *below);
        *self = Chain {
            node: Node::Above(delta, below),
        };
    }

    /// Puts a merge record over this chain and the chain of the page on its right. Both chains are
    /// swapped into boxes that the caller brings, so it takes no memory.
    pub fn merge(
        &mut self,
        right: Chain<A>,
        separator: Key,
        high: Fence,
        right_link: Option<Pid>,
        left_spare: Spare<A>,
        right_spare: Spare<A>,
    )
        requires left_shallow { depth self.old < MAX_DEPTH }
        requires right_shallow { depth right < MAX_DEPTH }
        ensures { self.new ≡ merged (merging_at separator high right_link) self.old right }
    {
        let Spare {
            below: mut left_below,
        } = left_spare;
        let Spare {
            below: mut right_below,
        } = right_spare;
        mem::swap(self, &mut *left_below);
        *right_below = right;
        let merging = Merging {
            separator,
            high,
            right: right_link,
        };
        *self = Chain {
            node: Node::Merged(merging, left_below, right_below),
        };
    }

    /// Returns an equal chain with memory of its own.
    pub fn copy_in(&self, alloc: A) -> Result<Chain<A>, NoMemory>
        ensures { IfOk result (λ copy. copy ≡ self.now) }
    {
        match &self.node {
            Node::Bare(base) => Ok(Chain::bare(base.copy_in(alloc)?)),
            Node::Above(delta, below) => {
                let below = Box::new(alloc, below.copy_in(alloc)?)?;
                Ok(Chain {
                    node: Node::Above(*delta, below),
                })
            }
            Node::Merged(merging, left, right) => {
                let left = Box::new(alloc, left.copy_in(alloc)?)?;
                let right = Box::new(alloc, right.copy_in(alloc)?)?;
                Ok(Chain {
                    node: Node::Merged(*merging, left, right),
                })
            }
        }
    }
}

/// A prepared box, by which a record goes on top of a chain without memory. All spares are alike.
#[derive(Drop)]
pub struct Spare<A: Allocator> {
    below: Box<Chain<A>, A>,
}

impl<A: Allocator> Model for Spare<A> {
    ghost Value = { Unit {0} };

    ghost view = { λ _. tt };
}

impl<A: Allocator + Copy> Spare<A> {
    /// Prepares a box.
    pub fn new(alloc: A) -> Result<Spare<A>, NoMemory> {
        let filler = Chain::bare(Base::empty(alloc));
        let below = Box::new(alloc, filler)?;
        Ok(Spare { below })
    }
}
