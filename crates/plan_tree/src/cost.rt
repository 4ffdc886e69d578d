ghost use Rattle.std.specs.Prelude.{◌≡◌};
ghost use Rattle.plan_tree.specs.Costs as spec;

use crate::{Estimate, Node, Plan};

/// The cost of the whole plan, in units of which 400 are one of PostgreSQL's.
pub fn cost_of(plan: &Plan) -> u64
    ensures { result ≡ spec.cost_of plan.now }
{
    plan.block.node.estimate().cost
}

impl Node {
    /// What the node is thought to cost, with its input, and to give.
    pub fn estimate(&self) -> Estimate
        ensures { result ≡ spec.estimate_of self.now }
    {
        match self {
            Node::Result(estimate, _)
            | Node::SeqScan(estimate, _)
            | Node::IndexScan(estimate, _, _)
            | Node::SubqueryScan(estimate, _, _)
            | Node::NestedLoop(estimate, _, _, _)
            | Node::HashJoin(estimate, _, _, _, _)
            | Node::Check(estimate, _, _)
            | Node::Aggregate(estimate, _, _)
            | Node::Unique(estimate, _, _)
            | Node::Sort(estimate, _, _)
            | Node::Limit(estimate, _, _)
            | Node::Insert(estimate)
            | Node::Update(estimate, _)
            | Node::Delete(estimate, _) => *estimate,
        }
    }
}
