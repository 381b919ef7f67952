//! What a walk over the tokens of a refutation holds.
use crate::chain_steps::ChainScratch;
use crate::pending::Pending;
use edge_state::EdgeState;
use line_proofs::StepList;
use rule_closure::Closer;

/// The exclusions that are held at a node, to which the lines lead; those that are given there, by
/// the splits and by closings; what both take; the nodes that wait, the next one last; and the
/// lines so far.
#[derive(Drop)]
pub struct Walk {
    pub state: EdgeState,
    pub given: EdgeState,
    pub closer: Closer,
    pub room: ChainScratch,
    pub pending: Vec<Pending>,
    pub lines: StepList,
}
