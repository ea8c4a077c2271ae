ghost use Rattle.std.specs.Prelude.{◌≡◌, ◌↔◌};
ghost use Rattle.ira_node.specs.NodeState.{first_state};
ghost use Rattle.ira_replay.specs.LocalRun.{LeadsTo, IsFirstFault};

use crate::replay_fault::ReplayFault;
use ira_event::NodeLog;
use ira_node::{NodeState, StepFault};
use std::alloc::Allocator;

/// The state in which a log ends, where all its events have steps, or its first event without one.
pub fn replay<A: Allocator>(log: &NodeLog<A>) -> Result<NodeState, ReplayFault>
    ensures ok { (t : NodeState)
        → (result ≡ Ok t) ↔ LeadsTo log.now.nodes (first_state log.now.initiator) log.now.events t }
    ensures err { (f : ReplayFault) → (result ≡ Err f) ↔ IsFirstFault log.now f }
{
    let mut state = NodeState::first(log.initiator());
    let mut position = 0;
    for event in log.events() {
        position += 1;
        state
            .advance(log.nodes(), &event)
            .map_err(|fault| ReplayFault { position, fault })?;
    }
    Ok(state)
}
