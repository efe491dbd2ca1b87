use crate::step::Step;
use std::alloc::Allocator;

/// What a step means, so that a trait's method can take a step by value, whatever its allocator.
pub trait Proposes {
    ghost use Rattle.bw_step.specs.Proposals.{Proposal};

    // the step as plain data
    ghost proposal: { Self → Proposal };
}

impl<A: Allocator + Copy> Proposes for Step<A> {
    ghost use Rattle.bw_step.specs.ProposalView.{proposal_of};

    ghost proposal = { λ step. proposal_of step };
}
