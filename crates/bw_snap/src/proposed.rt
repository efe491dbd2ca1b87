use std::marker::Model;

/// A proposed step as plain data. No value of it is made: it stands for the steps of announced
/// lists, which contracts alone see.
#[derive(Drop)]
pub struct Proposed {}

impl Model for Proposed {
    ghost use Rattle.bw_step.specs.Proposals.{Proposal, insert};
    ghost use Rattle.bw_snap.specs.Proposals.{proposal_code};

    ghost Value = { Proposal };

    ghost coded = { proposal_code };

    ghost view = { λ _. insert 0 0 0 0 };
}

/// An announced list. A clause reads it as a list of any length.
pub type List = [Proposed; 0];
