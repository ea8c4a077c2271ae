ghost use Rattle.std.specs.Prelude.{◌≡◌, ◌≤◌, ◌↔◌, Some, length, take};
ghost use Rattle.ira_node.specs.NodeState.{first_state};
ghost use Rattle.ira_replay.specs.LocalRun.{LeadsTo};

use ira_event::NodeLog;
use ira_node::NodeState;
use ira_replay::States;
use std::alloc::Allocator;

/// The state of a node after so many first events of its log, where there are so many and each has a step.
pub fn state_after<A: Allocator>(log: &NodeLog<A>, events: u32) -> Option<NodeState>
    ensures { (s : NodeState) → (result ≡ Some s) ↔ ((events ≤ length log.now.events)
        × LeadsTo log.now.nodes (first_state log.now.initiator) (take events log.now.events) s) }
{
    for (position, state) in States::new(log.nodes(), log.initiator(), log.events()) {
        if position == events {
            return Some(state);
        }
    }
    None
}
