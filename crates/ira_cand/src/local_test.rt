ghost use Rattle.std.specs.Prelude.{◌≡◌, Bool};
ghost use Rattle.ira_node.specs.declared.node_state.NodeState.{NodeState};
ghost use Rattle.ira_pred.specs.Clause.{formula};
ghost use Rattle.ira_pred.specs.ClauseAnswer.{holds_test};

use ira_node::NodeState;
use ira_pred::Clause;
use std::alloc::Allocator;

/// A test of one state of a node. Its answer depends on nothing but the test and the state.
pub trait LocalTest: Drop {
    // whether the state passes the test
    ghost holds: { Self → NodeState → Bool };

    /// Whether the state passes.
    fn holds(&self, state: &NodeState) -> bool
        ensures { result ≡ holds self.now state.now };
}

impl<'a, A: Allocator> LocalTest for &'a Clause<A> {
    ghost holds = { λ clause. holds_test (formula clause.now) };

    fn holds(&self, state: &NodeState) -> bool {
        Clause::holds(self, state)
    }
}
